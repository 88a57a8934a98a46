//! The text of a record.
ghost use Rattle.std.specs.Prelude.{◌≡◌, ◌++◌, OnOk, IfOk, string_bytes};
ghost use Rattle.pg_record.specs.Prelude.{flat_map, spelled};
ghost use Rattle.pg_record.specs.Print.{event_words, printed_record};
ghost use Rattle.pg_record.specs.Replay.{IsRecord};

use crate::event::Event;
use crate::session::Session;
use pg_base::Memory;
use std::alloc::{AllocError, Global};
use std::fmt::Write;

/// Puts the line of an event.
fn put_event(out: &mut String, event: Event) -> Result<(), AllocError>
    ensures { OnOk result
        (string_bytes out.new ≡ string_bytes out.old ++ spelled (event_words event)) }
{
    match event {
        Event::Play(v) => {
            write!(out, "move {v}\n")?;
        }
        Event::Back => out.push_str("back\n")?,
    }
    Ok(())
}

/// Puts the lines of events.
fn put_events(out: &mut String, events: &[Event]) -> Result<(), AllocError>
    ensures { OnOk result
        (string_bytes out.new
        ≡ string_bytes out.old ++ flat_map (λ e. spelled (event_words e)) events.now) }
{
    for event in events {
        put_event(out, *event)?;
    }
    Ok(())
}

/// The text of a session's record: a first line, and one for each event. Events that were taken
/// back stand in it too.
///
/// # Errors
///
/// `Memory` where no memory is left.
#[tactic(auto, unfolding(crate::specs::Print::printed_record))]
pub fn print_record(alloc: Global, s: &Session) -> Result<Vec<u8>, Memory>
    ensures text { IfOk result (λ text. text.items ≡ printed_record s.now.events) }
    ensures allowed { IsRecord s.now.game s.now.events }
{
    let events = s.events();
    let mut out = String::new(alloc);
    out.push_str("posgame-record 1\n")?;
    put_events(&mut out, events)?;
    Ok(out.into_bytes())
}
