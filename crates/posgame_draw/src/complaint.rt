//! What went wrong, said to people on standard error.
use crate::usage::{Asked, NAME};
use clap::Error;
use pg_host::say_unreadable;
use pg_messages::{NO_MEANING, NO_MEMORY, READ_FAILED, WRITE_FAILED};

/// Returns the names of the files that are read: of the game, of its layout, and of a certificate
/// or a record; that of the game again for one that isn't asked for.
fn files_of<'a>(asked: &Asked<'a>) -> [&'a str; 3] {
    match asked {
        Asked::Picture(order) => [
            order.game,
            order.style.layout.unwrap_or(order.game),
            order.certificate.unwrap_or(order.game),
        ],
        Asked::Recorded(order, style) => [
            order.game,
            style.layout.unwrap_or(order.game),
            order.record,
        ],
        Asked::Book(order, style) => [
            order.game,
            style.layout.unwrap_or(order.game),
            order.certificate,
        ],
    }
}

/// Says which of the files can't be read, and why.
fn say_unread(rt: &HostRuntime, answer: &Result<Asked<'_>, Error>) {
    let Ok(asked) = answer else {
        return;
    };
    for name in files_of(asked) {
        if say_unreadable(rt, NAME, name) {
            return;
        }
    }
    let _ = eprintln!(rt; "{NAME}: a file couldn't be read");
}

/// Says why words have no meaning: by `clap`, if it has something to say, or that the node isn't
/// there.
fn say_meaningless(rt: &HostRuntime, answer: &Result<Asked<'_>, Error>) {
    let _ = match answer {
        Err(error) => error.print(rt),
        Ok(Asked::Recorded(..)) => eprintln!(rt; "{NAME}: there is no such move"),
        Ok(_) => eprintln!(rt; "{NAME}: there is no such node"),
    };
}

/// Says what statuses of words, calls and memory mean; the codes of faults are on standard output.
pub(crate) fn say(rt: &HostRuntime, status: u8, answer: &Result<Asked<'_>, Error>) {
    let _ = match status {
        NO_MEANING => {
            say_meaningless(rt, answer);
            Ok(())
        }
        READ_FAILED => {
            say_unread(rt, answer);
            Ok(())
        }
        WRITE_FAILED => eprintln!(rt; "{NAME}: standard output couldn't be written"),
        NO_MEMORY => eprintln!(rt; "{NAME}: out of memory"),
        _ => Ok(()),
    };
}
