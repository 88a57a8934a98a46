//! The program: it settles the game that its arguments name, and exits with a status.
#![tactic(auto)]

ghost use Rattle.pg_settle.specs.Budgets.{IsBudget};

mod complaint;
mod looking;
mod progress;
mod usage;

use looking::is_hidden;
use pg_host::{HostConsole, HostFiles, guard_streams, words_given};
use pg_joining::{JoinOrder, join};
use pg_messages::{NO_MEANING, NO_MEMORY, READ_FAILED};
use pg_moves::{MovesOrder, settle_moves};
use pg_plan::plan_name;
use pg_settle::{Budget, Order, budget_for, settle};
use pg_splitting::{DEFAULT_PIECES, SplitOrder, split_game};
use progress::ShownFinder;
use std::process::ExitCode;
use usage::{Asked, Task, is_task};

/// Tries the moves of the game, and returns the status.
fn run_on_moves(rt: &HostRuntime, asked: &Asked<'_>, budget: Budget) -> u8
    requires { IsBudget budget }
{
    let order = MovesOrder {
        game: asked.game,
        budget,
        json: asked.json,
    };
    let mut finder = ShownFinder::new(rt, asked.progress);
    let mut files = HostFiles::new(rt);
    let mut console = HostConsole::new(rt);
    settle_moves(rt.alloc(), order, &mut finder, &mut files, &mut console)
}

/// Joins the certificates in a folder, and returns the status.
fn run_on_certificates(rt: &HostRuntime, asked: &Asked<'_>, folder: &str, budget: Budget) -> u8
    requires { IsBudget budget }
{
    let order = JoinOrder {
        game: asked.game,
        folder,
        certificate: asked.certificate,
        budget,
        images: asked.images,
    };
    let certificates = HostFiles::new(rt);
    let mut files = HostFiles::new(rt);
    let mut console = HostConsole::new(rt);
    join(rt.alloc(), order, certificates, &mut files, &mut console)
}

/// Splits the game into positions in a folder, and returns the status.
fn run_on_positions(rt: &HostRuntime, asked: &Asked<'_>, folder: &str) -> u8 {
    let Ok(plan) = plan_name(rt.alloc(), folder) else {
        return NO_MEMORY;
    };
    if is_hidden(rt, plan.as_str()) {
        return READ_FAILED;
    }
    let order = SplitOrder {
        game: asked.game,
        folder,
        most: asked.most.unwrap_or(DEFAULT_PIECES),
    };
    let mut files = HostFiles::ending_with(rt, plan.as_str());
    let mut console = HostConsole::new(rt);
    split_game(rt.alloc(), order, &mut files, &mut console)
}

/// Settles the game, and returns the status. A task's word behind an option is no game's name, lest
/// the game behind it be replaced by a certificate.
fn run_on_game(rt: &HostRuntime, asked: &Asked<'_>, budget: Budget) -> u8
    requires { IsBudget budget }
{
    if is_task(asked.game) {
        return NO_MEANING;
    }
    let order = Order {
        game: asked.game,
        certificate: asked.certificate,
        budget,
        images: asked.images,
        json: asked.json,
    };
    let mut finder = ShownFinder::new(rt, asked.progress);
    let mut files = HostFiles::new(rt);
    let mut console = HostConsole::new(rt);
    settle(rt.alloc(), order, &mut finder, &mut files, &mut console)
}

/// Does what is asked for, and returns the status.
fn run(rt: &HostRuntime, asked: &Asked<'_>) -> u8 {
    let Some(budget) = budget_for(asked.positions, asked.entries, asked.nodes) else {
        return NO_MEANING;
    };
    match asked.task {
        Task::Settle => run_on_game(rt, asked, budget),
        Task::Moves => run_on_moves(rt, asked, budget),
        Task::Join(folder) => run_on_certificates(rt, asked, folder, budget),
        Task::Split(folder) => run_on_positions(rt, asked, folder),
    }
}

fn main(rt: HostRuntime) -> ExitCode {
    guard_streams(&rt);
    let words = match words_given(&rt) {
        Ok(words) => words,
        Err(status) => return ExitCode::from(status),
    };
    let asked = match usage::read_words(rt.alloc(), &words) {
        Ok(asked) => asked,
        Err(error) => {
            let _ = error.print(&rt);
            return ExitCode::from(usage::status_of(&error));
        }
    };
    let status = run(&rt, &asked);
    complaint::say(&rt, status, &asked);
    ExitCode::from(status)
}
