//! Rows worked by hand, and a table of small games. Its numbers are those of bench/plain.py,
//! which finds them in another way.
use crate::compared::{Tally, line_at_start};
use pg_base::{Kind, PointSet, Side};
use pg_game::Game;
use pg_plain::{field, game, kind, part, word};
use pg_threat::ThreatLine;
use std::alloc::Global;
use std::test::Fail;

/// Rows with `;` between them, after a word:
///
/// - `positions KIND COUNT:LINES:FOUND`: at how many of all positions at which the side to move may
///   attack the shortest threat line forces no reply, one, two and three, and at how many there is
///   none. Both searches say the same at each of them, to each depth.
/// - `line KIND COUNT TURN BIAS DEPTH:LINES:X:Y:POINTS`: the points of the line that is found to a
///   depth.
const ROWS: &str = "\
positions maker-breaker 3:0 1,0 2:8 1 0 0 2;\
positions maker-breaker 5:0 1 2,2 3 4:45 4 0 0 46;\
positions maker-breaker 5:0 1,1 2,2 3,3 4,0 4:95 11 0 0 15;\
positions maker-breaker 6:0,1 2 3,3 4 5:271 4 0 0 46;\
positions maker-breaker 6:0 1 2,1 2 3,2 3 4,3 4 5,0 4 5:203 47 1 0 124;\
positions maker-breaker 6:0 1 2,0 3 4,1 3 5,2 4 5:205 27 6 0 149;\
positions maker-breaker 7:0 1 2,0 3 4,0 5 6,1 3 5,1 4 6,2 3 6,2 4 5:777 105 49 0 386;\
positions maker-breaker 7:0 1,0 2 3,2 4 5,2 4 6:724 79 9 1 320;\
positions maker-maker 3:0 1,0 2:16 2 0 0 12;\
positions maker-maker 5:0 1 2,2 3 4:90 8 0 0 284;\
positions maker-maker 5:0 1,1 2,2 3,3 4,0 4:130 2 0 0 30;\
positions maker-maker 6:0,1 2 3,3 4 5:418 0 0 0 0;\
positions maker-maker 6:0 1 2,1 2 3,2 3 4,3 4 5,0 4 5:382 78 2 0 572;\
positions maker-maker 6:0 1 2,0 3 4,1 3 5,2 4 5:410 54 12 0 574;\
positions maker-maker 7:0 1 2,0 3 4,0 5 6,1 3 5,1 4 6,2 3 6,2 4 5:1554 210 98 0 772;\
positions maker-maker 7:0 1,0 2 3,2 4 5,2 4 6:1310 100 18 2 1316;\
line maker-breaker 9 x 1 1:0 1,0 2:::0 1 2;\
line maker-breaker 9 x 1 0:0 1,0 2:::;\
line maker-breaker 9 x 1 3:0 1,0 2,3 4:4:8:3;\
line maker-breaker 9 x 1 2:0 1,0 2 3,2 4 5,2 4 6:::;\
line maker-breaker 9 x 1 3:0 1,0 2 3,2 4 5,2 4 6:::0 1 2 3 4 5 6;\
line maker-maker 9 x 1 3:0 1,0 2,0 5 6:7 8:5 6:0 1 2;\
line maker-breaker 9 x 1 3:0 1,0 2,3 5 6:7 8:5 6:0 1 2;\
line maker-maker 9 x 1 3:0 1,0 2,3 5 6:7 8:5 6:";

/// X's and Y's marks by a number: its digit to the base 3 for each point says whose mark it has, if
/// any. None where it has more digits.
fn marks_of(points: u16, number: u32) -> Option<(PointSet, PointSet)> {
    let (mut x, mut y) = (PointSet::empty(), PointSet::empty());
    let mut rest = number;
    for v in 0..points {
        if v < 1024 && rest % 3 == 1 {
            x.put(v);
        }
        if v < 1024 && rest % 3 == 2 {
            y.put(v);
        }
        rest /= 3;
    }
    if rest > 0 { None } else { Some((x, y)) }
}

/// The game of a row at the marks that a number names.
fn game_of(alloc: Global, told: &str, turn: Side, number: u32) -> Option<Game> {
    let head = part(told, 0);
    let points = word(head, 1).parse::<u16>().ok()?;
    let (x, y) = marks_of(points, number)?;
    let kind = kind(word(head, 0));
    let field = field(alloc, kind, points, part(told, 1))?;
    Game::new(kind, field, x, y, turn, 1).ok()
}

/// Compares the searches at all positions of at most seven points with the side to move.
fn compare_all(alloc: Global, told: &str, turn: Side, tally: &mut Tally) -> Option<()> {
    for number in 0..2187u32 {
        let Some(g) = game_of(alloc, told, turn, number) else {
            continue;
        };
        if g.kind != Kind::Switching {
            tally.compare(alloc, &g).ok()?;
        }
    }
    Some(())
}

/// Whether so many lines of each depth are found, by both searches alike.
fn are_found(alloc: Global, told: &str) -> Option<bool> {
    let mut tally = Tally {
        found: [0; 5],
        faults: 0,
    };
    compare_all(alloc, told, Side::X, &mut tally)?;
    compare_all(alloc, told, Side::Y, &mut tally)?;
    let [none, one, two, three, without] = tally.found;
    let text = format!(in alloc; "{none} {one} {two} {three} {without}").ok()?;
    Some(tally.faults == 0 && text.as_str() == part(told, 2))
}

/// Whether the line has these points, in their order; where there is no line, whether there are
/// none.
fn has_points(line: Option<ThreatLine>, due: &str) -> bool {
    let Some(line) = line else {
        return due.is_empty();
    };
    let mut words = due.split_whitespace();
    for v in line.points.iter().take(usize::from(line.len)) {
        match words.next() {
            Some(word) if word.parse::<u16>().ok() == Some(*v) => {}
            _ => return false,
        }
    }
    words.next().is_none()
}

/// Whether the line has the points that a row tells.
fn is_line(alloc: Global, told: &str) -> Option<bool> {
    let depth = word(part(told, 0), 4).parse::<u8>().ok()?;
    let g = game(alloc, told)?;
    if g.kind == Kind::Switching || depth > 3 {
        return None;
    }
    let line = line_at_start(alloc, &g, depth).ok()?;
    Some(has_points(line, part(told, 4)))
}

/// The rows that aren't so.
fn wrong(alloc: Global) -> Result<String, Fail> {
    let mut rows = String::new(alloc);
    for row in ROWS.split(';') {
        let (asked, told) = row.split_once(' ').unwrap_or((row, ""));
        let is_so = match asked {
            "positions" => are_found(alloc, told),
            "line" => is_line(alloc, told),
            _ => None,
        };
        if is_so != Some(true) {
            rows.push_str(row)?;
            rows.push(';')?;
        }
    }
    Ok(rows)
}

#[test]
fn rows_are_so(rt: HostRuntime) -> Result<(), Fail> {
    assert_eq!(rt; wrong(rt.alloc())?.as_str(), "");
    Ok(())
}
