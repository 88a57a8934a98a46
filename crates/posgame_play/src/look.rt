//! How a board is shown on this terminal.
use pg_characters::{COLUMNS, Look};
use std::env;
use std::io::IsTerminal;

/// Returns how many characters a row of the terminal has: `COLUMNS` of the environment, or else 80.
fn columns(rt: &HostRuntime) -> u16 {
    match env::var(rt, "COLUMNS") {
        Ok(text) => text.parse::<u16>().unwrap_or(COLUMNS),
        Err(_) => COLUMNS,
    }
}

/// Returns how a board is shown, but for a layout: in colour on a terminal, unless `NO_COLOR` is
/// set.
pub(crate) fn look(rt: &HostRuntime) -> Look {
    Look {
        columns: columns(rt),
        colour: rt.stdout().is_terminal() && env::var(rt, "NO_COLOR").is_err(),
        layout: None,
    }
}
