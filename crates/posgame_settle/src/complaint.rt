//! What went wrong, said to people on standard error.
use crate::looking::{is_hidden, is_open};
use crate::usage::{Asked, NAME, Task, is_task};
use pg_host::say_unreadable;
use pg_messages::{NO_MEANING, NO_MEMORY, READ_FAILED, WRITE_FAILED};
use pg_plan::plan_name;

/// Says why a file couldn't be read.
fn say_unread_file(rt: &HostRuntime, name: &str) {
    if !say_unreadable(rt, NAME, name) {
        let _ = eprintln!(rt; "{NAME}: {name}: it couldn't be read");
    }
}

/// Says why the plan can't be read, if that can't be opened, else why the game can't.
fn say_unread(rt: &HostRuntime, asked: &Asked<'_>) {
    let (folder, is_needed) = match asked.task {
        Task::Join(folder) => (folder, true),
        Task::Split(folder) => (folder, false),
        Task::Settle | Task::Moves => return say_unread_file(rt, asked.game),
    };
    let Ok(plan) = plan_name(rt.alloc(), folder) else {
        return;
    };
    let plan = plan.as_str();
    if is_hidden(rt, plan) || is_needed && !is_open(rt, plan) {
        say_unread_file(rt, plan);
    } else {
        say_unread_file(rt, asked.game);
    }
}

/// Says what can't be written.
fn say_unwritten(rt: &HostRuntime, asked: &Asked<'_>) {
    let name = asked.certificate;
    let _ = match asked.task {
        Task::Moves => eprintln!(rt; "{NAME}: standard output couldn't be written"),
        Task::Split(folder) => {
            eprintln!(rt; "{NAME}: a file in {folder} or standard output couldn't be written")
        }
        Task::Settle | Task::Join(_) => {
            eprintln!(rt; "{NAME}: {name} or standard output couldn't be written")
        }
    };
}

/// Says why the words have no meaning, though `clap` has read them.
fn say_meaningless(rt: &HostRuntime, asked: &Asked<'_>) {
    let game = asked.game;
    let _ = if is_task(game) {
        eprintln!(rt;
            "{NAME}: {game} stands before all options, and a file of this name is ./{game}"
        )
    } else {
        eprintln!(rt; "{NAME}: a number is outside its range")
    };
}

/// Says what statuses of calls and memory mean; the codes of faults are on standard output.
pub(crate) fn say(rt: &HostRuntime, status: u8, asked: &Asked<'_>) {
    match status {
        NO_MEANING => say_meaningless(rt, asked),
        READ_FAILED => say_unread(rt, asked),
        WRITE_FAILED => say_unwritten(rt, asked),
        NO_MEMORY => {
            let _ = eprintln!(rt; "{NAME}: out of memory");
        }
        _ => {}
    }
}
