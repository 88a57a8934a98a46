//! Runs of `posgame`.
ghost use Rattle.std.specs.Prelude.{map, string_bytes};
ghost use Rattle.pg_answering.specs.Machine.{told_by};
ghost use Rattle.pg_answering.specs.Solving.{RunsPosgame};

use crate::machine::Machine;
use pg_pns::Work;
use std::alloc::Global;

/// Runs `posgame` with these arguments on the machine, and returns the status. It promises of this
/// machine all that `run` of `pg_cli` promises.
pub fn run_posgame(alloc: Global, arguments: &[String], machine: &mut Machine) -> u8
    ensures { RunsPosgame (map string_bytes arguments.now)
        (told_by machine.old) (told_by machine.new) result }
{
    let mut work = Work::new(alloc);
    pg_cli::run(
        alloc,
        arguments,
        &mut machine.files,
        &mut machine.console,
        &mut work,
    )
}
