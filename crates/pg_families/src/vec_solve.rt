//! Solving a game on vectors, and storing what shows its class.
ghost use Rattle.std.specs.Prelude.{◌≡◌, [], ◌∷◌, Err, IfErr, IfOk};
ghost use Rattle.pg_families.specs.Prelude.{Grows, message_text, DONE, Does, BothCauses};
ghost use Rattle.pg_families.specs.Prelude.{IsGameHalt, IsWriteHalt, MuteAtMemory, QuietsBy, Runs};
ghost use Rattle.pg_families.specs.Prelude.{StoresAt, Refused};
ghost use Rattle.pg_families.specs.Vectors.{IsVectorLacking, SolvesVectorGame, SolvesVectors};
ghost use Rattle.pg_families.specs.Vectors.{vec_class_text, vectors_held};

use crate::opening::open_vectors;
use pg_cert::print_cert;
use pg_gf2::{VecGame, vec_solve};
use pg_io::{Console, Files};
use pg_lehman::Class;
use pg_messages::Message;
use pg_talk::{Halt, deliver};
use std::alloc::Global;

/// The message of a class.
fn class_message(class: &Class) -> Message
    ensures { message_text result ≡ vec_class_text class.now }
{
    match class {
        Class::Short { .. } => Message::ClassShort,
        Class::Cut { .. } => Message::ClassCut,
        Class::First { .. } => Message::ClassFirstMover,
    }
}

/// Stores the certificate that shows a game's class, and says the class.
fn deliver_class<F: Files, C: Console>(
    alloc: Global,
    game: &VecGame,
    certificate: &str,
    files: &mut F,
    console: &mut C,
) -> Result<u8, Halt>
    ensures solved { Does (SolvesVectorGame game.now certificate.now)
        (F.told files.old) (F.told files.new) (C.told console.old) (C.told console.new) result }
    ensures files { StoresAt (certificate.now ∷ []) (F.told files.old) (F.told files.new) }
    ensures causes { BothCauses ⊥ (F.told files.old) (F.told files.new)
        (C.told console.old) (C.told console.new) result }
    ensures quiet { MuteAtMemory (C.told console.old) (C.told console.new) result }
    ensures done { IfOk result (λ status. status ≡ DONE) }
    ensures halts { IfErr result IsWriteHalt }
{
    let (class, shown) = vec_solve(alloc, game)?;
    let text = print_cert(alloc, &shown)?;
    deliver(
        certificate,
        &text,
        class_message(&class),
        None,
        files,
        console,
    )
}

/// Solves the game on vectors under one name, and stores the certificate that shows its class under
/// another.
pub fn solve_vectors<F: Files, C: Console>(
    alloc: Global,
    game: &str,
    certificate: &str,
    files: &mut F,
    console: &mut C,
) -> Result<u8, Halt>
    ensures ran { Runs (λ held refusal. vectors_held (held game.now) ≡ Err (Refused refusal))
        (λ held. SolvesVectors (vectors_held (held game.now)) certificate.now)
        (F.told files.old) (F.told files.new) (C.told console.old) (C.told console.new) result }
    ensures causes { BothCauses (IsVectorLacking (F.told files.old).held game.now)
        (F.told files.old) (F.told files.new) (C.told console.old) (C.told console.new) result }
    ensures quiet { QuietsBy (Grows (C.told console.old).log (C.told console.new).log [])
        (Grows (C.told console.old).log (C.told console.new).log [])
        (C.told console.old) (C.told console.new) result }
    ensures files { StoresAt (certificate.now ∷ []) (F.told files.old) (F.told files.new) }
    ensures done { IfOk result (λ status. status ≡ DONE) }
    ensures halts { IfErr result IsGameHalt }
{
    let game = open_vectors(alloc, files, game)?;
    deliver_class(alloc, &game, certificate, files, console)
}
