//! Storing a certificate, and then printing a result.
ghost use Rattle.std.specs.Prelude.{◌≡◌, [], ◌∷◌, IfErr, IfOk};
ghost use Rattle.pg_settle.specs.Prelude.{BothCauses, DONE, Delivers, Does, IsWriteHalt};
ghost use Rattle.pg_settle.specs.Prelude.{MuteAtMemory, StoresAt};
ghost use Rattle.pg_settle.specs.Outputs.{texts_of_output};

use crate::output::Output;
use pg_io::{Console, Files, store};
use pg_messages::DONE;
use pg_talk::{Halt, deliver, say_text};

/// Stores a file, and then prints a line.
fn deliver_line<F: Files, C: Console>(
    name: &str,
    text: &[u8],
    line: &str,
    files: &mut F,
    console: &mut C,
) -> Result<u8, Halt>
    ensures delivered { Does (Delivers (name.now, text.now) (line.now ∷ []))
        (F.told files.old) (F.told files.new) (C.told console.old) (C.told console.new) result }
    ensures files { StoresAt (name.now ∷ []) (F.told files.old) (F.told files.new) }
    ensures causes { BothCauses ⊥ (F.told files.old) (F.told files.new)
        (C.told console.old) (C.told console.new) result }
    ensures quiet { MuteAtMemory (C.told console.old) (C.told console.new) result }
    ensures done { IfOk result (λ status. status ≡ DONE) }
    ensures halts { IfErr result IsWriteHalt }
{
    store(files, name, text)?;
    say_text(console, line)?;
    Ok(DONE)
}

/// Stores a file, and then prints a result.
pub(crate) fn deliver_output<F: Files, C: Console>(
    name: &str,
    text: &[u8],
    output: &Output,
    files: &mut F,
    console: &mut C,
) -> Result<u8, Halt>
    ensures delivered { Does (Delivers (name.now, text.now) (texts_of_output output.now))
        (F.told files.old) (F.told files.new) (C.told console.old) (C.told console.new) result }
    ensures files { StoresAt (name.now ∷ []) (F.told files.old) (F.told files.new) }
    ensures causes { BothCauses ⊥ (F.told files.old) (F.told files.new)
        (C.told console.old) (C.told console.new) result }
    ensures quiet { MuteAtMemory (C.told console.old) (C.told console.new) result }
    ensures done { IfOk result (λ status. status ≡ DONE) }
    ensures halts { IfErr result IsWriteHalt }
{
    match output {
        Output::Messages(message, further) => {
            deliver(name, text, *message, *further, files, console)
        }
        Output::Json(line) => deliver_line(name, text, line.as_str(), files, console),
    }
}
