//! Games.
use crate::words::{numbers, part, set, word};
use pg_base::{Kind, Line, Lines, Side};
use pg_game::{Field, Game, LineField};
use pg_graph::{Ends, Graph};
use std::alloc::Global;

/// The rows, columns and diagonals of the boards of three by three, four by four and five by five.
const THREE: &str = "0 1 2,3 4 5,6 7 8,0 3 6,1 4 7,2 5 8,0 4 8,2 4 6";

const FOUR: &str = "0 1 2 3,4 5 6 7,8 9 10 11,12 13 14 15,\
0 4 8 12,1 5 9 13,2 6 10 14,3 7 11 15,0 5 10 15,3 6 9 12";

const FIVE: &str = "0 1 2 3 4,5 6 7 8 9,10 11 12 13 14,15 16 17 18 19,20 21 22 23 24,\
0 5 10 15 20,1 6 11 16 21,2 7 12 17 22,3 8 13 18 23,4 9 14 19 24,0 6 12 18 24,4 8 12 16 20";

/// The text of lines, of which `three`, `four` and `five` name those of a board.
fn spelled(text: &str) -> &str {
    match text {
        "three" => THREE,
        "four" => FOUR,
        "five" => FIVE,
        _ => text,
    }
}

/// The lines of a text.
fn lines(alloc: Global, text: &str) -> Option<Lines> {
    let mut members = Vec::new(alloc);
    for line in text.split(',') {
        if !line.is_empty() {
            let points = numbers(alloc, line)?;
            members.push(Line::new(alloc, &points).ok()?).ok()?;
        }
    }
    Some(Lines::from_vec(members))
}

/// The ends of the edges of a text.
fn ends(alloc: Global, text: &str) -> Option<Ends> {
    let mut members = Vec::new(alloc);
    for edge in text.split(',') {
        if let [u, v] = numbers(alloc, edge)?.as_slice() {
            members.push((*u, *v)).ok()?;
        }
    }
    Some(Ends::from_vec(members))
}

/// The kind, and Maker-Maker where the word is unknown.
pub fn kind(word: &str) -> Kind {
    match word {
        "maker-breaker" => Kind::MakerBreaker,
        "avoider-enforcer" => Kind::AvoiderEnforcer,
        "switching" => Kind::Switching,
        _ => Kind::MakerMaker,
    }
}

/// The side, which is Y unless the word is `x`.
pub fn side(word: &str) -> Side {
    if word == "x" { Side::X } else { Side::Y }
}

/// What a game of the kind with so many points or vertices is played on: the lines of the text, of
/// which `three`, `four` and `five` name those of a board, or its edges. There is none where the
/// text tells none, or no memory is found.
pub fn field(alloc: Global, kind: Kind, count: u16, text: &str) -> Option<Field> {
    if kind == Kind::Switching {
        let ends = ends(alloc, text)?;
        return Some(Field::Graph(Graph {
            vertices: count,
            s: 0,
            t: 1,
            ends,
        }));
    }
    let lines = lines(alloc, spelled(text))?;
    Some(Field::Lines(LineField {
        points: count,
        grid: None,
        lines,
    }))
}

/// The game that a text tells as `KIND COUNT TURN BIAS:LINES:X:Y`. There is none where the text
/// tells none, the game isn't within the limits, or no memory is found.
pub fn game(alloc: Global, text: &str) -> Option<Game> {
    let head = part(text, 0);
    let kind = kind(word(head, 0));
    let count = word(head, 1).parse::<u16>().ok()?;
    let bias = word(head, 3).parse::<u8>().ok()?;
    let field = field(alloc, kind, count, part(text, 1))?;
    let (x, y) = (set(alloc, part(text, 2))?, set(alloc, part(text, 3))?);
    Game::new(kind, field, x, y, side(word(head, 2)), bias).ok()
}
