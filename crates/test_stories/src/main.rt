//! Plays a game over the console of the system; then carries out the runs that the rest of the
//! input tells, on the files of the system or in memory, and says of each row in memory whether its
//! runs leave what is due.
//!
//! With a number as its word it makes so many allocations first, and carries out the rows in memory
//! alone.
#![tactic(auto)]

mod came;
mod due;
mod entries;
mod faults;
mod held;
mod nodes;
mod pairs;
mod pieces;
mod replies;
mod rows;
mod runs;
mod sizes;
mod system;
mod tables;
mod values;

use pg_plain::{folded, texts_of};
use std::{env, io};

/// The words by which Breaker is played on the console of the system.
const PLAY: &str = "play noughts-and-crosses.game breaker-in-the-centre.cert --side y";

/// The number that the words of the command line say, if they say one.
fn number(rt: &HostRuntime) -> io::Result<Option<u64>> {
    match env::args(rt)?.nth(1) {
        Some(word) => Ok(word.parse::<u64>().ok()),
        None => Ok(None),
    }
}

/// The script, of which each line is an entry. Unless the rows in memory are wanted alone, the runs
/// on the system are carried out.
fn script(rt: &HostRuntime, rows_alone: bool) -> io::Result<String> {
    if !rows_alone {
        system::carry_out(rt, PLAY)?;
    }
    let script = io::read_to_string(rt.alloc(), rt.reader())?;
    let script = folded(rt.alloc(), script.as_str())?;
    if !rows_alone {
        system::carry_out_all(rt, script.as_str())?;
    }
    Ok(script)
}

/// Says whether the lines of tables are as they tell, and of each row whether its runs leave what
/// is due.
fn answer(rt: &HostRuntime, script: &str) -> io::Result<()> {
    let texts = texts_of(rt.alloc(), script)?;
    tables::answer(rt, &texts, script)?;
    for row in script.split("\nrow ").skip(1) {
        let answer = rows::answer(rt.alloc(), &texts, row)?;
        rt.println(answer.as_str())?;
    }
    Ok(())
}

fn main(rt: HostRuntime) -> io::Result<()> {
    let count = number(&rt)?;
    for _ in 0..count.unwrap_or(0) {
        let _ = b"room".to_vec(rt.alloc());
    }
    let script = script(&rt, count.is_some())?;
    answer(&rt, script.as_str())
}
