//! Runs on the files and the console of the system.
use crate::runs::status_of;
use pg_host::{HostConsole, HostFiles};
use std::io;

/// Carries out a run on these words, which are said first; last its status, where that isn't 0.
pub(crate) fn carry_out(rt: &HostRuntime, words: &str) -> io::Result<()> {
    println!(rt; "{words}:")?;
    let mut files = HostFiles::new(rt);
    let mut console = HostConsole::new(rt);
    let status = status_of(rt.alloc(), words, &mut files, &mut console)?;
    if status != 0 {
        println!(rt; "status {status}")?;
    }
    Ok(())
}

/// Carries out each run that the script tells by a line `system WORDS`.
pub(crate) fn carry_out_all(rt: &HostRuntime, script: &str) -> io::Result<()> {
    for line in script.lines() {
        if let Some(words) = line.strip_prefix("system ") {
            carry_out(rt, words)?;
        }
    }
    Ok(())
}
