//! Answers tables of small games by the criteria and by plain search, and says of each table
//! whether all its rows are so.
//!
//! Each criterion is proved to force its claim. The tables here pin where it holds, and where the
//! value by plain search reaches the goal. The product calls nothing of it.
#![tactic(auto)]

mod edge_sets;
mod lines;
mod numbered;
mod pairing_rows;
mod pairings;
mod plain_rows;
mod potential_rows;
mod questions;
mod switch_rows;
mod tables;
mod threats;
mod told;

use crate::questions::is_so;
use std::io;

/// Says which rows of the table aren't so, or where all are, how many it has. No row of an unknown
/// question is so.
fn answer(rt: &HostRuntime, table: &str) -> io::Result<()> {
    let name = table.lines().next().unwrap_or("");
    let mut count = 0u32;
    let mut are_all_so = true;
    for row in table.lines().skip(1) {
        if !row.is_empty() && !row.starts_with('#') {
            count = count.saturating_add(1);
            if is_so(rt.alloc(), name, row) != Some(true) {
                are_all_so = false;
                println!(rt; "differs {name} {row}")?;
            }
        }
    }
    if are_all_so {
        println!(rt; "ok {name} {count}")?;
    }
    Ok(())
}

fn main(rt: HostRuntime) -> io::Result<()> {
    let script = io::read_to_string(rt.alloc(), rt.reader())?;
    for table in script.as_str().split("\ntable ").skip(1) {
        answer(&rt, table)?;
    }
    Ok(())
}
