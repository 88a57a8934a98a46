//! What is said if there is no layout.
ghost use Rattle.std.specs.Prelude.{◌≡◌, IfOk, string_bytes};
ghost use Rattle.pg_laying.specs.Prelude.{stop_status};
ghost use Rattle.pg_laying.specs.Telling.{EndsWithout, layout_fault_text};

use crate::no_layout::{FAULTY_LAYOUT, NoLayout, OTHER_GAME};
use pg_base::Memory;
use pg_drawing::end_with;
use pg_io::{Console, Stop};
use pg_messages::{NO_MEMORY, READ_FAILED, WRITE_FAILED};
use pg_talk::Halt;
use std::alloc::Global;

/// Returns the text of a fault in the file of a layout.
fn layout_fault_text(alloc: Global, number: u8, line: u32) -> Result<String, Memory>
    ensures { IfOk result (λ text. string_bytes text ≡ layout_fault_text number line) }
{
    let text = format!(in alloc; "layout L{number} line {line}\n")?;
    Ok(text)
}

/// Returns the status of a call that failed, or of memory that ran out.
fn stop_status(stop: Stop) -> u8
    ensures { result ≡ stop_status stop }
{
    match stop {
        Stop::Read => READ_FAILED,
        Stop::Write => WRITE_FAILED,
        Stop::Memory => NO_MEMORY,
    }
}

/// Says why there is no layout, and returns the status of the run.
///
/// - 3: the game file is invalid, as `posgame` says it.
/// - 5, 7: a read failed or a file is missing; memory ran out. Nothing is said.
/// - 6: a write failed; nothing is said.
/// - 12: the file of the layout is invalid: `layout L3 line 4`; or the game isn't one on lines
///   without a grid: `layout: not for this game`.
pub fn tell_no_layout<C: Console>(alloc: Global, console: &mut C, why: NoLayout) -> u8
    ensures { EndsWithout why (C.told console.old) (C.told console.new) result }
{
    match why {
        NoLayout::Halted(Halt::Refused(refusal)) => {
            end_with(console, refusal.text().as_str(), refusal.status())
        }
        NoLayout::Halted(Halt::Stopped(stop)) => stop_status(stop),
        NoLayout::OtherGame => end_with(console, OTHER_GAME, FAULTY_LAYOUT),
        NoLayout::Faulty { number, line } => match layout_fault_text(alloc, number, line) {
            Ok(text) => end_with(console, text.as_str(), FAULTY_LAYOUT),
            Err(_) => NO_MEMORY,
        },
    }
}
