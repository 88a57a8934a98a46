//! Storing a file, and then saying what was stored.
ghost use Rattle.std.specs.Prelude.{◌≡◌, [], ◌∷◌, map, IfErr, IfOk};
ghost use Rattle.pg_talk.specs.Prelude.{Grows, Said, DONE};
ghost use Rattle.pg_talk.specs.Done.{Does};
ghost use Rattle.pg_talk.specs.Halts.{BothCauses, IsWriteHalt, MuteAtMemory};
ghost use Rattle.pg_talk.specs.Storing.{Delivers, StoresAt, texts_of};

use crate::halt::Halt;
use crate::saying::say_both;
use pg_io::{Console, Files, store};
use pg_messages::{DONE, Message};

/// Stores a file, and then says a message, and a further one where it is given.
pub fn deliver<F: Files, C: Console>(
    name: &str,
    text: &[u8],
    message: Message,
    further: Option<Message>,
    files: &mut F,
    console: &mut C,
) -> Result<u8, Halt>
    ensures delivered { Does (Delivers (name.now, text.now) (texts_of message further))
        (F.told files.old) (F.told files.new) (C.told console.old) (C.told console.new) result }
    ensures said { IfOk result (λ _. Grows (C.told console.old).log (C.told console.new).log
        (map Said (texts_of message further))) }
    ensures files { StoresAt (name.now ∷ []) (F.told files.old) (F.told files.new) }
    ensures causes { BothCauses ⊥ (F.told files.old) (F.told files.new)
        (C.told console.old) (C.told console.new) result }
    ensures quiet { MuteAtMemory (C.told console.old) (C.told console.new) result }
    ensures done { IfOk result (λ status. status ≡ DONE) }
    ensures halts { IfErr result IsWriteHalt }
{
    store(files, name, text)?;
    say_both(console, message, further)?;
    Ok(DONE)
}
