//! Reads tables of rows from the input, and says of each table whether the crates answer all its
//! rows as they tell. With words it does a part of a search instead, which scripts measure.
#![tactic(auto)]

mod asking;
mod boards;
mod games;
mod graphs;
mod image_files;
mod maps;
mod matching;
mod meanings;
mod parts;
mod plainly;
mod points;
mod polyominoes;
mod telling;
mod threats;

use pg_plain::word;
use std::alloc::Global;
use std::io;

/// Whether the row is as it tells, of a question of this group; None where there is no such group
/// or question, the row can't be read, or no memory is found.
fn is_so(alloc: Global, group: &str, question: &str, row: &str) -> Option<bool> {
    match group {
        "games" => games::is_so(alloc, question, row),
        "graphs" => graphs::is_so(alloc, question, row),
        "image-files" => image_files::is_so(alloc, question, row),
        "maps" => maps::is_so(alloc, question, row),
        "matching" => matching::is_so(alloc, question, row),
        "meanings" => meanings::is_so(alloc, row),
        "points" => points::is_so(alloc, question, row),
        "polyominoes" => polyominoes::is_so(alloc, question, row),
        _ => None,
    }
}

/// Says which rows of the table aren't so, or how many there are where all are. The table's first
/// line is the word of a group of questions and the word of a question; empty lines and those that
/// begin with `#` are no rows.
fn answer(rt: &HostRuntime, table: &str) -> io::Result<()> {
    let name = table.lines().next().unwrap_or("");
    let (group, question) = (word(name, 0), word(name, 1));
    let mut count = 0u32;
    let mut are_all_so = true;
    for row in table.lines().skip(1) {
        if !row.is_empty() && !row.starts_with('#') {
            count = count.saturating_add(1);
            if is_so(rt.alloc(), group, question, row) != Some(true) {
                are_all_so = false;
                println!(rt; "differs {name} {row}")?;
            }
        }
    }
    if are_all_so {
        println!(rt; "ok {name} {count}")?;
    }
    Ok(())
}

/// Says of each table of the input whether its rows are so, and then what small rows of each part
/// tell.
fn answer_all(rt: &HostRuntime) -> io::Result<()> {
    let tables = io::read_to_string(rt.alloc(), rt.reader())?;
    for table in tables.split("\ntable ").skip(1) {
        answer(rt, table)?;
    }
    parts::tell(rt, parts::ROWS)
}

fn main(rt: HostRuntime) -> io::Result<()> {
    let row = parts::row(&rt)?;
    if row.is_empty() {
        answer_all(&rt)
    } else {
        parts::tell(&rt, row.as_str())
    }
}
