//! Runs of `posgame-settle`.
ghost use Rattle.std.specs.Prelude.{◌∷◌, map, string_bytes};
ghost use Rattle.pg_settle.specs.Budgets.{IsBudget};
ghost use Rattle.pg_answering.specs.Machine.{told_by};
ghost use Rattle.pg_answering.specs.Settling.{DoesTask, SettlesGame, TriesMoves};
ghost use Rattle.pg_answering.specs.Tasks.{task_by, task_of};

use crate::machine::Machine;
use crate::tasks::{Wishes, is_option, wishes_of};
use pg_finder::ProofNumbers;
use pg_limits::Unwatched;
use pg_messages::NO_MEANING;
use pg_moves::{MovesOrder, settle_moves};
use pg_settle::{Order, settle};
use std::alloc::Global;

/// Settles the game of this name, and stores the certificate under the other.
fn run_on_game(
    alloc: Global,
    game: &str,
    certificate: &str,
    wishes: Wishes,
    machine: &mut Machine,
) -> u8
    requires { IsBudget wishes.budget }
    ensures { SettlesGame game.now certificate.now wishes
        (told_by machine.old) (told_by machine.new) result }
{
    let order = Order {
        game,
        certificate,
        budget: wishes.budget,
        images: wishes.images,
        json: wishes.json,
    };
    let mut finder = ProofNumbers { watch: Unwatched };
    settle(
        alloc,
        order,
        &mut finder,
        &mut machine.files,
        &mut machine.console,
    )
}

/// Tries the moves of the game of this name.
fn run_on_moves(alloc: Global, game: &str, wishes: Wishes, machine: &mut Machine) -> u8
    requires { IsBudget wishes.budget }
    ensures { TriesMoves game.now wishes (told_by machine.old) (told_by machine.new) result }
{
    let order = MovesOrder {
        game,
        budget: wishes.budget,
        json: wishes.json,
    };
    let mut finder = ProofNumbers { watch: Unwatched };
    settle_moves(
        alloc,
        order,
        &mut finder,
        &mut machine.files,
        &mut machine.console,
    )
}

/// Does the task of two words and wishes.
fn run_task(alloc: Global, first: &str, second: &str, wishes: Wishes, machine: &mut Machine) -> u8
    requires { IsBudget wishes.budget }
    ensures { DoesTask (task_by first.now second.now wishes)
        (told_by machine.old) (told_by machine.new) result }
{
    if is_option(first.as_bytes()) || is_option(second.as_bytes()) {
        return NO_MEANING;
    }
    if "moves".as_bytes() != first.as_bytes() {
        return run_on_game(alloc, first, second, wishes, machine);
    }
    if wishes.images {
        return NO_MEANING;
    }
    run_on_moves(alloc, second, wishes, machine)
}

/// Runs `posgame-settle` with these arguments on the machine, and returns the status: `GAME CERT`
/// settles a game, and `moves GAME` tries its moves. Options follow, each one word, as `options_of`
/// of `pg_request` reads them. The finder is `ProofNumbers`. Any other arguments have no meaning:
/// the status is 2, and nothing is done.
pub fn run_settle(alloc: Global, arguments: &[String], machine: &mut Machine) -> u8
    ensures { DoesTask (task_of (map string_bytes arguments.now))
        (told_by machine.old) (told_by machine.new) result }
{
    match arguments {
        [first, second, options @ ..] => match wishes_of(options) {
            Some(wishes) => run_task(alloc, first, second, wishes, machine),
            None => NO_MEANING,
        },
        _ => NO_MEANING,
    }
}
