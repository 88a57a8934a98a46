//! Reads tables of rows from the input, and says of each table whether the crates that look for
//! certificates answer all its rows as they tell; and runs with a stand-in finder on files and a
//! console in memory, and says of each whether what is said and stored is what the row tells.
#![tactic(auto)]

mod played;
mod rows;
mod settled;
mod shared;
mod stand_in;
mod zoned;

use pg_plain::word;
use pg_settle::VERSION;
use std::alloc::Global;
use std::io;

/// Whether the row is as it tells, of the question that the word names; None where it names none,
/// the row can't be read, or no memory is found.
fn is_so(alloc: Global, question: &str, row: &str) -> Option<bool> {
    match question {
        // how many nodes each claim of the tree of play has.
        "played" => played::is_so(alloc, row),
        // whether X wins, with a claim that the checker accepts.
        "settled" => settled::is_so(alloc, row),
        // the shared pairs that are found.
        "shared" => shared::is_so(alloc, row),
        // whether Maker wins, by zones, with a claim that the checker accepts.
        "zoned" => zoned::is_so(alloc, row),
        _ => None,
    }
}

/// Says which rows of the table aren't so, or how many there are where all are. The table's first
/// line is the word of a question; empty lines and those that begin with `#` are no rows.
fn answer(rt: &HostRuntime, table: &str) -> io::Result<()> {
    let question = word(table.lines().next().unwrap_or(""), 0);
    let mut count = 0u32;
    let mut are_all_so = true;
    for row in table.lines().skip(1) {
        if !row.is_empty() && !row.starts_with('#') {
            count = count.saturating_add(1);
            if is_so(rt.alloc(), question, row) != Some(true) {
                are_all_so = false;
                println!(rt; "differs {question} {row}")?;
            }
        }
    }
    if are_all_so {
        println!(rt; "ok {question} {count}")?;
    }
    Ok(())
}

/// Says of each run whether it is as it tells; where it isn't, with what came of it.
fn answer_runs(rt: &HostRuntime, script: &str) -> io::Result<()> {
    for row in script.split("\nrow ").skip(1) {
        let name = row.lines().next().unwrap_or("");
        let told = rows::told(rt.alloc(), row)?;
        let due = rows::entry(row, "due ").replace(rt.alloc(), "VERSION", VERSION)?;
        if told == due {
            println!(rt; "ok {name}")?;
        } else {
            println!(rt; "differs {name}: {told}")?;
        }
    }
    Ok(())
}

fn main(rt: HostRuntime) -> io::Result<()> {
    let script = io::read_to_string(rt.alloc(), rt.reader())?;
    let script = script.as_str();
    let (tables, runs) = script.split_once("\ntable runs\n").unwrap_or((script, ""));
    for table in tables.split("\ntable ").skip(1) {
        answer(&rt, table)?;
    }
    answer_runs(&rt, runs)
}
