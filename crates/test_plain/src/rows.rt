//! The table of all small games. `bench/plain.py` finds the numbers of the two further
//! families again.
use crate::families::Family;
use crate::tally::{Tally, add_games};
use pg_plain::word;
use std::alloc::Global;
use std::test::Fail;

/// Rows with `;` between them, as `FAMILY SIZE COUNT MARKS:X Y FIRST`: how many games X wins
/// whoever moves, Y does, and the side to move does. SIZE is the number of vertices, or of signs of
/// a vector, COUNT that of edges or vectors; the games are taken at all marks, or at none, and
/// those on vectors with each target.
const ROWS: &str = "\
switching 2 0 all:0 1 0;\
switching 2 1 all:1 7 1;\
switching 2 2 all:12 34 8;\
switching 2 3 all:86 142 42;\
switching 2 4 all:484 547 184;\
switching 2 5 all:2367 2005 731;\
switching 3 0 all:0 1 0;\
switching 3 1 all:1 16 1;\
switching 3 2 all:22 148 19;\
switching 3 3 all:273 1038 201;\
switching 3 4 all:2503 6136 1567;\
switching 3 5 all:18863 32294 10079;\
switching 4 0 all:0 1 0;\
switching 4 1 all:1 28 1;\
switching 4 2 all:35 427 33;\
switching 4 3 all:666 4692 582;\
switching 4 4 all:9105 41548 7262;\
switching 4 5 all:99821 314862 71803;\
connectivity 2 0 all:0 1 0;\
connectivity 2 1 all:1 7 1;\
connectivity 2 2 all:12 34 8;\
connectivity 2 3 all:86 142 42;\
connectivity 2 4 all:484 547 184;\
connectivity 2 5 all:2367 2005 731;\
connectivity 3 0 all:0 1 0;\
connectivity 3 1 all:0 18 0;\
connectivity 3 2 all:3 180 6;\
connectivity 3 3 all:73 1330 109;\
connectivity 3 4 all:951 8148 1107;\
connectivity 3 5 all:8913 43974 8349;\
connectivity 4 0 all:0 1 0;\
connectivity 4 1 all:0 30 0;\
connectivity 4 2 all:0 495 0;\
connectivity 4 3 all:16 5876 48;\
connectivity 4 4 all:645 55770 1500;\
connectivity 4 5 none:0 1888 114;\
vectors 3 0 all:1 7 0;\
vectors 3 1 all:31 154 7;\
vectors 3 2 all:534 1855 203;\
vectors 3 3 all:6726 16086 3108;\
vectors 3 4 all:68814 112098 32928;\
vectors 3 5 none:2052 1911 2373";

/// The family of a row; None where there is no such, or its games are too large.
fn family_of(asked: &str, target: u32) -> Option<Family> {
    let size = word(asked, 1).parse::<u16>().ok()?;
    match word(asked, 0) {
        "switching" if size <= 4 => Some(Family::Switching { vertices: size }),
        "connectivity" if size <= 4 => Some(Family::Connectivity { vertices: size }),
        "vectors" if size == 3 => Some(Family::Vectors { target }),
        _ => None,
    }
}

/// Counts the games of a row.
fn tally_of(alloc: Global, asked: &str) -> Option<Tally> {
    let points = word(asked, 2).parse::<u16>().ok()?;
    if points > 5 {
        return None;
    }
    let targets = if word(asked, 0) == "vectors" { 8 } else { 1 };
    let mut tally = Tally {
        x: 0,
        y: 0,
        first: 0,
        faults: 0,
    };
    for target in 0..targets {
        let family = family_of(asked, target)?;
        add_games(alloc, family, points, word(asked, 3) == "all", &mut tally).ok()?;
    }
    Some(tally)
}

/// Whether a row is so, and no game has another value than plain search finds it.
fn is_so(alloc: Global, row: &str) -> Option<bool> {
    let (asked, due) = row.split_once(':')?;
    let tally = tally_of(alloc, asked)?;
    let (x, y, first) = (tally.x, tally.y, tally.first);
    let told = format!(in alloc; "{x} {y} {first}").ok()?;
    Some(tally.faults == 0 && told.as_str() == due)
}

/// The rows that aren't so.
fn wrong(alloc: Global) -> Result<String, Fail> {
    let mut rows = String::new(alloc);
    for row in ROWS.split(';') {
        if is_so(alloc, row) != Some(true) {
            rows.push_str(row)?;
            rows.push(';')?;
        }
    }
    Ok(rows)
}

#[test]
fn small_games_have_their_classes(rt: HostRuntime) -> Result<(), Fail> {
    assert_eq!(rt; wrong(rt.alloc())?.as_str(), "");
    Ok(())
}
