//! Solving a connectivity game, and storing what shows its class.
ghost use Rattle.std.specs.Prelude.{◌≡◌, [], ◌∷◌, Err, IfErr, IfOk};
ghost use Rattle.pg_families.specs.Prelude.{Grows, message_text, DONE, Does, BothCauses};
ghost use Rattle.pg_families.specs.Prelude.{IsGameHalt, IsWriteHalt, MuteAtMemory, QuietsBy, Runs};
ghost use Rattle.pg_families.specs.Prelude.{StoresAt, Refused};
ghost use Rattle.pg_families.specs.Connectivity.{IsSpanLacking, SolvesSpan, SolvesSpanGame};
ghost use Rattle.pg_families.specs.Connectivity.{span_class_text, span_held};

use crate::opening::open_span;
use pg_family_files::print_span_cert;
use pg_io::{Console, Files};
use pg_messages::Message;
use pg_span::{SpanClass, SpanGame};
use pg_talk::{Halt, deliver};
use std::alloc::Global;

/// The message of a class.
fn class_message(class: SpanClass) -> Message
    ensures { message_text result ≡ span_class_text class }
{
    match class {
        SpanClass::Maker => Message::ClassMaker,
        SpanClass::Breaker => Message::ClassBreaker,
        SpanClass::First => Message::ClassFirstMover,
    }
}

/// Stores the certificate that shows a game's class, and says the class.
fn deliver_class<F: Files, C: Console>(
    alloc: Global,
    game: &SpanGame,
    certificate: &str,
    files: &mut F,
    console: &mut C,
) -> Result<u8, Halt>
    ensures solved { Does (SolvesSpanGame game.now certificate.now)
        (F.told files.old) (F.told files.new) (C.told console.old) (C.told console.new) result }
    ensures files { StoresAt (certificate.now ∷ []) (F.told files.old) (F.told files.new) }
    ensures causes { BothCauses ⊥ (F.told files.old) (F.told files.new)
        (C.told console.old) (C.told console.new) result }
    ensures quiet { MuteAtMemory (C.told console.old) (C.told console.new) result }
    ensures done { IfOk result (λ status. status ≡ DONE) }
    ensures halts { IfErr result IsWriteHalt }
{
    let (class, shown) = pg_span::span_solve(alloc, game)?;
    let text = print_span_cert(alloc, &shown)?;
    deliver(
        certificate,
        &text,
        class_message(class),
        None,
        files,
        console,
    )
}

/// Solves the connectivity game under one name, and stores the certificate that shows its class
/// under another.
pub fn solve_span<F: Files, C: Console>(
    alloc: Global,
    game: &str,
    certificate: &str,
    files: &mut F,
    console: &mut C,
) -> Result<u8, Halt>
    ensures ran { Runs (λ held refusal. span_held (held game.now) ≡ Err (Refused refusal))
        (λ held. SolvesSpan (span_held (held game.now)) certificate.now)
        (F.told files.old) (F.told files.new) (C.told console.old) (C.told console.new) result }
    ensures causes { BothCauses (IsSpanLacking (F.told files.old).held game.now)
        (F.told files.old) (F.told files.new) (C.told console.old) (C.told console.new) result }
    ensures quiet { QuietsBy (Grows (C.told console.old).log (C.told console.new).log [])
        (Grows (C.told console.old).log (C.told console.new).log [])
        (C.told console.old) (C.told console.new) result }
    ensures files { StoresAt (certificate.now ∷ []) (F.told files.old) (F.told files.new) }
    ensures done { IfOk result (λ status. status ≡ DONE) }
    ensures halts { IfErr result IsGameHalt }
{
    let game = open_span(alloc, files, game)?;
    deliver_class(alloc, &game, certificate, files, console)
}
