//! What went wrong, said to people on standard error.
use crate::sparing::replaced;
use crate::usage::{Asked, NAME};
use pg_host::say_unreadable;
use pg_messages::{NO_MEMORY, READ_FAILED, WRITE_FAILED};

/// Says which file can't be read, and why.
fn say_unread(rt: &HostRuntime, asked: &Asked<'_>) {
    let game = asked.game;
    let layout = asked.layout.unwrap_or(game);
    let last = asked.certificate.unwrap_or(layout);
    for name in [game, layout, last] {
        if say_unreadable(rt, NAME, name) {
            return;
        }
    }
    let _ = eprintln!(rt; "{NAME}: {last} or standard input couldn't be read");
}

/// Says which file the record would replace, or that something can't be written.
fn say_unwritten(rt: &HostRuntime, asked: &Asked<'_>) {
    let _ = match replaced(rt, asked) {
        Some(name) => eprintln!(rt; "{NAME}: the record would replace {name}"),
        None => eprintln!(rt; "{NAME}: the record or standard output couldn't be written"),
    };
}

/// Says what statuses of calls and memory mean; the codes of faults are on standard output.
pub(crate) fn say(rt: &HostRuntime, status: u8, asked: &Asked<'_>) {
    match status {
        READ_FAILED => say_unread(rt, asked),
        WRITE_FAILED => say_unwritten(rt, asked),
        NO_MEMORY => {
            let _ = eprintln!(rt; "{NAME}: out of memory");
        }
        _ => {}
    }
}
