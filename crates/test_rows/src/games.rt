//! Games: outcomes, moves, and which are within the limits.
use crate::telling::{is_found, is_said};
use pg_base::{Grid, Kind, LineFault, PointSet, Score, Side};
use pg_game::{Field, Game, Illegal, Judge, LineField, Position};
use pg_plain::{game, numbers, part, set, side, word};
use std::alloc::Global;

/// Whether the row tells the outcome at the marks.
fn has_outcome(alloc: Global, row: &str) -> Option<bool> {
    let g = game(alloc, row)?;
    let mut judge = Judge::new(alloc, &g).ok()?;
    let told = match judge.over(&g, &g.start()) {
        Some(Score::XWins) => "x",
        Some(Score::YWins) => "y",
        Some(Score::Draw) => "draw",
        None => "none",
    };
    Some(told == part(row, 4))
}

/// Whether an answer to a move is the one that a text tells after the number of the point.
fn is_answer(answer: &Result<Position, Illegal>, text: &str) -> bool {
    match answer {
        Ok(next) => {
            let left = word(text, 2).parse::<u8>().ok();
            next.turn == side(word(text, 1)) && left == Some(next.left)
        }
        Err(Illegal::Range) => word(text, 1) == "range",
        Err(Illegal::Taken) => word(text, 1) == "taken",
        Err(Illegal::Over) => word(text, 1) == "over",
    }
}

/// What a judge answers to a move, where X's points are points of the game.
fn judged(alloc: Global, g: &Game, p: &Position, v: u16) -> Option<Result<Position, Illegal>> {
    if !p.x.is_below(g.points()) {
        return None;
    }
    let mut judge = Judge::new(alloc, g).ok()?;
    Some(judge.play(g, p, v))
}

/// Whether the moves of a row are answered as it tells.
fn has_answers(alloc: Global, row: &str) -> Option<bool> {
    let g = game(alloc, row)?;
    let mut p = g.start();
    for text in part(row, 4).split(',') {
        let v = word(text, 0).parse::<u16>().ok()?;
        let answer = judged(alloc, &g, &p, v)?;
        if !is_answer(&answer, text) {
            return Some(false);
        }
        if let Ok(next) = answer {
            p = next;
        }
    }
    Some(true)
}

/// The position after moves to those of the points that the game has.
fn after_moves(g: &Game, points: &[u16]) -> Position {
    let mut p = g.start();
    for v in points {
        if *v < g.points() {
            p = g.after(&p, *v);
        }
    }
    p
}

/// Whether the row tells the free points and the lines.
fn has_free(alloc: Global, row: &str) -> Option<bool> {
    let g = game(alloc, row)?;
    let p = after_moves(&g, &numbers(alloc, part(row, 4))?);
    let due = part(row, 5);
    let count = word(due, 0).parse::<u32>().ok()?;
    let lines = word(due, 2).parse::<usize>().ok()?;
    let free = g.free_points(&p);
    let counts = free.len() == count && g.lines().len() == lines;
    let lowest = is_found(g.lowest_free(&p), word(due, 1));
    Some(counts && lowest && g.is_full(&p) == free.is_empty())
}

/// Whether the row tells whether the game fits.
pub(crate) fn fits(alloc: Global, row: &str) -> Option<bool> {
    let points = word(row, 1).parse::<u16>().ok()?;
    let bias = word(row, 2).parse::<u8>().ok()?;
    let (from, to) = (
        word(row, 3).parse::<u16>().ok()?,
        word(row, 4).parse::<u16>().ok()?,
    );
    let mut line = Vec::new(alloc);
    for v in from..to {
        line.push(v).ok()?;
    }
    let field = LineField::from_rows(alloc, points, &[line.as_slice()]).ok()?;
    let none = PointSet::empty();
    let kind = pg_plain::kind(word(row, 0));
    let made = Game::new(kind, Field::Lines(field), none, none, Side::Y, bias);
    Some(is_said(made.is_ok(), word(row, 5)))
}

/// Whether the row tells whether the game with a grid fits.
fn grid_fits(alloc: Global, row: &str) -> Option<bool> {
    let head = part(row, 0);
    let width = word(head, 0).parse::<u16>().ok()?;
    let points = word(head, 1).parse::<u16>().ok()?;
    let (x, y) = (set(alloc, part(row, 1))?, set(alloc, part(row, 2))?);
    let mut field = LineField::from_rows(alloc, points, &[&[0, 1]]).ok()?;
    field.grid = Some(Grid { width, height: 3 });
    let made = Game::new(Kind::MakerMaker, Field::Lines(field), x, y, Side::X, 1);
    Some(is_said(made.is_ok(), word(head, 2)))
}

/// Whether a turn of several points begins as the game does, and with as many points left as the
/// bias says.
fn turns_begin(alloc: Global, row: &str) -> Option<bool> {
    let g = game(alloc, row)?;
    Some(g.with_turn(Side::Y).left == g.bias && g.start().is_same(&g.with_turn(g.turn)))
}

/// Whether the points of two rows make lines, of which the first is the one that the row tells, or
/// a point stands twice.
fn are_ordered(alloc: Global, row: &str) -> Option<bool> {
    let first = numbers(alloc, part(row, 0))?;
    let second = numbers(alloc, part(row, 1))?;
    let due = part(row, 2);
    match LineField::from_rows(alloc, 4, &[first.as_slice(), second.as_slice()]) {
        Ok(field) => {
            let line = field.lines.as_slice().first()?;
            let ordered = line.as_slice() == numbers(alloc, due)?.as_slice();
            Some(ordered && field.lines.as_slice().len() == 2)
        }
        Err(fault) => Some(fault == LineFault::Repeated && due == "repeated"),
    }
}

/// Whether the row is as it tells, of the question that the word names; None where it names none,
/// the row can't be read, or no memory is found.
pub(crate) fn is_so(alloc: Global, question: &str, row: &str) -> Option<bool> {
    match question {
        // the outcome at a position.
        "outcomes" => has_outcome(alloc, row),
        // what a judge answers to moves.
        "moves" => has_answers(alloc, row),
        // which points are free.
        "free" => has_free(alloc, row),
        // which games are within the limits.
        "fits" => fits(alloc, row),
        // which grids and marks are.
        "grids" => grid_fits(alloc, row),
        // how turns of several points begin.
        "turns" => turns_begin(alloc, row),
        // points of lines in any order.
        "orders" => are_ordered(alloc, row),
        _ => None,
    }
}
