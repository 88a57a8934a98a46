//! The commands of all families.
ghost use Rattle.std.specs.Prelude.{[]};
ghost use Rattle.pg_families.specs.Prelude.{Grows, BothCauses, QuietsBy, Runs};
ghost use Rattle.pg_families.specs.Family.{ActsInFamily, GivesInFamily, IsLackingInFamily};
ghost use Rattle.pg_families.specs.Family.{LeavesFamilyFiles, QuietAtReadInFamily, RefusesFamily};

use crate::span_check::check_span;
use crate::span_play::play_span;
use crate::span_solve::solve_span;
use crate::vec_check::check_vectors;
use crate::vec_play::play_vectors;
use crate::vec_solve::solve_vectors;
use pg_io::{Console, Files};
use pg_talk::Halt;
use pg_words::{Family, FamilyTask};
use std::alloc::Global;

/// Does the task with the game of the family under one name and the certificate under another.
pub fn carry_out_in_family<F: Files, C: Console>(
    alloc: Global,
    family: Family,
    task: FamilyTask,
    game: &str,
    certificate: &str,
    files: &mut F,
    console: &mut C,
) -> Result<u8, Halt>
    ensures ran { Runs (λ held. RefusesFamily family task (held game.now) (held certificate.now))
        (λ held. ActsInFamily family task (held game.now) (held certificate.now) certificate.now)
        (F.told files.old) (F.told files.new) (C.told console.old) (C.told console.new) result }
    ensures causes { BothCauses
        (IsLackingInFamily family task (F.told files.old).held game.now certificate.now)
        (F.told files.old) (F.told files.new) (C.told console.old) (C.told console.new) result }
    ensures quiet { QuietsBy (QuietAtReadInFamily task (C.told console.old) (C.told console.new))
        (Grows (C.told console.old).log (C.told console.new).log [])
        (C.told console.old) (C.told console.new) result }
    ensures files { LeavesFamilyFiles task certificate.now (F.told files.old) (F.told files.new) }
    ensures gives { GivesInFamily task result }
{
    match (family, task) {
        (Family::Connectivity, FamilyTask::Solve) => {
            solve_span(alloc, game, certificate, files, console)
        }
        (Family::Connectivity, FamilyTask::Check) => {
            check_span(alloc, game, certificate, files, console)
        }
        (Family::Connectivity, FamilyTask::Play { side }) => {
            play_span(alloc, game, certificate, side, files, console)
        }
        (Family::Vectors, FamilyTask::Solve) => {
            solve_vectors(alloc, game, certificate, files, console)
        }
        (Family::Vectors, FamilyTask::Check) => {
            check_vectors(alloc, game, certificate, files, console)
        }
        (Family::Vectors, FamilyTask::Play { side }) => {
            play_vectors(alloc, game, certificate, side, files, console)
        }
    }
}
