//! The table of rows.
use crate::expanding::{is_cached, is_expanded};
use crate::settling::is_settled;
use pg_plain::{game, part, word};
use pg_pns::Work;
use std::alloc::Global;
use std::test::Fail;

/// Rows with `;` between them, of games as `KIND COUNT TURN BIAS:LINES:X:Y`, after a word:
///
/// - `order`, with the number of positions after BIAS and a last part: those that are expanded,
///   each as `X|Y|TURN`. The first move of least number is followed, those to points of live lines
///   before the others.
/// - `settled`: with each number of positions up to a limit the search leaves open whether X wins
///   exactly where the plain program says that the expanded positions don't settle it, and else
///   both say the same. No criterion decides these games.
/// - `cached`: the cache of pairs is asked.
const ROWS: &str = "\
order avoider-enforcer 3 x 1 20000:0 1,0 2,1 2:::||x,0||y,1||y,2||y,0|1|x,1|0|x,2|0|x;\
order avoider-enforcer 5 y 1 20000:0 4,1 4,2 4:4::4||y,4|0|x,3 4|0|y,3 4|0 1|x;\
order maker-maker 9 x 1 1:three:::||x;\
order maker-breaker 6 x 1 1:0 1,2 3,4 5:::;\
settled avoider-enforcer 3 x 1:0 1,0 2,1 2::;\
settled avoider-enforcer 4 y 1:0 1,1 2,2 3::;\
settled avoider-enforcer 5 y 1:0 4,1 4,2 4:4:;\
settled avoider-enforcer 5 x 1:0 1,1 2,2 3,3 4,0 4::;\
settled maker-breaker 7 x 1:0 1 2,2 3 4,4 5 0,1 3 5,0 3 6::;\
settled maker-breaker 7 x 1:0 1 2,2 3 4,4 5 6,6 0 3,1 4 6::;\
settled maker-breaker 9 x 1:three::;\
cached maker-breaker 6 x 1:0 1,2 3,4 5::";

/// Whether a row is so. The work is that of the row before it.
fn is_so(alloc: Global, row: &str, work: &mut Work) -> Option<bool> {
    let (asked, told) = row.split_once(' ')?;
    let g = game(alloc, told)?;
    match asked {
        "order" => {
            let positions = word(part(told, 0), 4).parse::<u32>().ok()?;
            is_expanded(alloc, &g, positions, part(told, 4), work)
        }
        "settled" => is_settled(alloc, &g, work),
        "cached" => is_cached(alloc, &g, work),
        _ => None,
    }
}

/// The rows that aren't so.
fn wrong(alloc: Global) -> Result<String, Fail> {
    let mut rows = String::new(alloc);
    let mut work = Work::new(alloc);
    for row in ROWS.split(';') {
        if is_so(alloc, row, &mut work) != Some(true) {
            rows.push_str(row)?;
            rows.push(';')?;
        }
    }
    Ok(rows)
}

#[test]
fn rows_are_so(rt: HostRuntime) -> Result<(), Fail> {
    assert_eq!(rt; wrong(rt.alloc())?.as_str(), "");
    Ok(())
}
