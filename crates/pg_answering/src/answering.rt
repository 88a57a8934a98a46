//! Runs of the programs, as answers.
ghost use Rattle.std.specs.Prelude.{◌≡◌, ◌∷◌, IfOk, map, string_bytes};
ghost use Rattle.pg_request.specs.Request.{shown};
ghost use Rattle.pg_answering.specs.Answers.{Answers, Runs};
ghost use Rattle.pg_answering.specs.Machine.{told_by};
ghost use Rattle.pg_answering.specs.Programs.{arguments_of};

use crate::drawing::run_draw;
use crate::machine::Machine;
use crate::program::Program;
use crate::settling::run_settle;
use crate::solving::run_posgame;
use pg_base::Memory;
use pg_request::{Request, answer};
use std::alloc::Global;

/// Runs the program with these arguments on the machine, and returns the status.
fn run(alloc: Global, program: Program, arguments: &[String], machine: &mut Machine) -> u8
    ensures { Runs program (map string_bytes arguments.now)
        (told_by machine.old) (told_by machine.new) result }
{
    match program {
        Program::Posgame => run_posgame(alloc, arguments, machine),
        Program::Settle => run_settle(alloc, arguments, machine),
        Program::Draw => run_draw(alloc, arguments, machine),
    }
}

/// Returns the words after the first.
fn arguments_of(words: &[String]) -> &[String]
    ensures { map string_bytes result.now ≡ arguments_of (map string_bytes words.now) }
{
    match words {
        [] => words,
        [_, arguments @ ..] => arguments,
    }
}

/// Runs the program with the words of the request after the first, on the files and the input of
/// the request in memory. Returns the status, the log and the files that the words name, as
/// `answer` of `pg_request` lays them out.
///
/// # Errors
///
/// `Memory` if memory runs out beside the run. If it runs out in the run, the status is 7.
pub fn answer_to(alloc: Global, program: Program, request: Request) -> Result<Vec<u8>, Memory>
    ensures { IfOk result (λ bytes. Answers program (shown request) bytes.items) }
{
    let Request {
        words,
        input,
        files,
    } = request;
    let mut machine = Machine::new(alloc, files, input);
    let status = run(alloc, program, arguments_of(&words), &mut machine);
    answer(
        alloc,
        status,
        machine.console.entries(),
        &machine.files,
        &words,
    )
}
