//! A dialogue over a game: what was played is shown, and lines are heard and answered.
ghost use Rattle.std.specs.Prelude.{◌≡◌, ◌<◌, ◌≤◌, ◌+◌, ℕ, IfOk};
ghost use Rattle.pg_playing.specs.Prelude.{Causes, reason_of};
ghost use Rattle.pg_playing.specs.Courses.{Goes, GoesFrom};
ghost use Rattle.pg_playing.specs.Dialogue.{AfterTurn, Allows, Closes, Follows, Leaves, Listens};
ghost use Rattle.pg_playing.specs.Dialogue.{Notes, Shows, Steps, Turns, after_shown};
ghost use Rattle.pg_playing.specs.Dialogue.{note_of_lines, turned};

use crate::bout::{Bout, Next, Turn};
use crate::note::Note;
use pg_base::Memory;
use pg_game::{Game, Illegal};
use pg_io::{Console, Heard, Stop};
use pg_messages::ReplyFault;
use pg_table::{Reply, read_reply};
use pg_talk::{MAX_REPLY, say_text, trimmed};
use std::alloc::Global;

/// The most lines that are heard in a game.
pub const MAX_HEARD: u32 = 10_000;

/// Returns why a point isn't claimed.
pub(crate) fn reason_of(why: Illegal) -> ReplyFault
    ensures { result ≡ reason_of why }
{
    match why {
        Illegal::Range => ReplyFault::NoPoint,
        Illegal::Over => ReplyFault::Over,
        Illegal::Taken => ReplyFault::Taken,
    }
}

/// Returns the answer to `lines`, with a point or without.
fn note_of_lines(game: &Game, through: Option<u32>) -> Note
    ensures { result ≡ note_of_lines game.now through }
{
    let Some(number) = through else {
        return Note::Lines(None);
    };
    if number < u32::from(game.points()) {
        Note::Lines(Some(number as u16))
    } else {
        Note::Refused(ReplyFault::NoPoint)
    }
}

/// Says the texts that show what was played. Returns whether the game is over.
fn show<B: Bout, C: Console>(alloc: Global, bout: &mut B, console: &mut C) -> Result<bool, Stop>
    requires { B.moved bout.old }
    ensures course { (heard : ℕ) → Goes (Steps (B.rules bout.old))
        (C.told console.old) (C.told console.new) (Shows (B.at bout.old) heard) result
        (λ over. after_shown over (B.at bout.new) heard) }
    ensures shown { IfOk result (λ _. B.shown bout.new) }
    ensures room { IfOk result (λ _. B.room bout.old ≤ B.room bout.new) }
    ensures allows { IfOk result (λ _. Allows (B.rules bout.old) (B.rules bout.new)) }
    ensures causes { Causes ⊥ (C.told console.old).faults (C.told console.new).faults result }
{
    loop {
        let telling = bout.tell(alloc)?;
        say_text(console, telling.text.as_str())?;
        match telling.next {
            Next::Text => {}
            Next::Line => return Ok(false),
            Next::End => return Ok(true),
        }
    }
}

/// Answers a line that changes nothing. Returns that the game isn't over.
fn note<B: Bout, C: Console>(
    alloc: Global,
    bout: &B,
    note: Note,
    console: &mut C,
) -> Result<bool, Stop>
    requires { B.shown bout.now }
    ensures course { (heard : ℕ) → Goes (Steps (B.rules bout.now))
        (C.told console.old) (C.told console.new) (Notes (B.at bout.now) heard note) result
        (λ ended. after_shown ended (B.at bout.now) heard) }
    ensures causes { Causes ⊥ (C.told console.old).faults (C.told console.new).faults result }
{
    let text = bout.answer(alloc, note)?;
    say_text(console, text.as_str())?;
    Ok(false)
}

/// Does what a line asks for, and returns what came of it.
fn heed<B: Bout>(alloc: Global, bout: &mut B, reply: Reply) -> Result<Turn, Memory>
    requires shown { B.shown bout.old }
    requires room { 0 < B.room bout.old }
    ensures leads { (heard : ℕ) → Turns (Follows (B.rules bout.old) (B.at bout.old) heard reply)
        (B.at bout.new) heard result }
    ensures after { IfOk result (λ turn. AfterTurn (B.moved bout.new) (B.shown bout.new) turn) }
    ensures room { IfOk result (λ _. B.room bout.old ≤ B.room bout.new + 1) }
    ensures allows { IfOk result (λ _. Allows (B.rules bout.old) (B.rules bout.new)) }
{
    match reply {
        Reply::Point(number) => match u16::try_from(number) {
            Ok(point) => bout.claim(alloc, point),
            Err(_) => Ok(Turn::Noted(Note::Refused(ReplyFault::NoPoint))),
        },
        Reply::Undo => bout.undo(alloc),
        Reply::Lines(through) => Ok(Turn::Noted(note_of_lines(bout.game(), through))),
        Reply::Help => Ok(Turn::Noted(Note::Help)),
        Reply::Quit => Ok(Turn::Ended),
        Reply::NoCell => Ok(Turn::Noted(Note::Refused(ReplyFault::NoPoint))),
        Reply::Unclear => Ok(Turn::Noted(Note::Refused(ReplyFault::NoNumber))),
    }
}

/// Says what came of a line. Returns whether the game is over or left.
fn answer_turn<B: Bout, C: Console>(
    alloc: Global,
    bout: &mut B,
    turn: Turn,
    console: &mut C,
) -> Result<bool, Stop>
    requires { AfterTurn (B.moved bout.old) (B.shown bout.old) turn }
    ensures course { (heard : ℕ) → Goes (Steps (B.rules bout.old))
        (C.told console.old) (C.told console.new) (turned (B.at bout.old) heard turn) result
        (λ ended. after_shown ended (B.at bout.new) heard) }
    ensures shown { IfOk result (λ _. B.shown bout.new) }
    ensures room { IfOk result (λ _. B.room bout.old ≤ B.room bout.new) }
    ensures allows { IfOk result (λ _. Allows (B.rules bout.old) (B.rules bout.new)) }
    ensures causes { Causes ⊥ (C.told console.old).faults (C.told console.new).faults result }
{
    match turn {
        Turn::Moved => show(alloc, bout, console),
        Turn::Noted(answer) => note(alloc, bout, answer, console),
        Turn::Ended => Ok(true),
    }
}

/// Does what a line asks for, and says what came of it. Returns whether the game is over or left.
#[tactic(auto, using(crate::proofs::Dialogues::allows_then))]
fn answer_line<B: Bout, C: Console>(
    alloc: Global,
    bout: &mut B,
    reply: Reply,
    console: &mut C,
) -> Result<bool, Stop>
    requires shown { B.shown bout.old }
    requires room { 0 < B.room bout.old }
    ensures course { (heard : ℕ) → GoesFrom (Steps (B.rules bout.old))
        (C.told console.old) (C.told console.new)
        (Follows (B.rules bout.old) (B.at bout.old) heard reply) result
        (λ ended. after_shown ended (B.at bout.new) heard) }
    ensures shown { IfOk result (λ _. B.shown bout.new) }
    ensures room { IfOk result (λ _. B.room bout.old ≤ B.room bout.new + 1) }
    ensures allows { IfOk result (λ _. Allows (B.rules bout.old) (B.rules bout.new)) }
    ensures causes { Causes ⊥ (C.told console.old).faults (C.told console.new).faults result }
{
    let turn = heed(alloc, bout, reply)?;
    answer_turn(alloc, bout, turn, console)
}

/// Ends the prompt's line, as no line was typed. Returns that the game is left.
fn leave<B: Bout, C: Console>(bout: &B, console: &mut C) -> Result<bool, Stop>
    ensures course { (heard : ℕ) → Goes (Steps (B.rules bout.now))
        (C.told console.old) (C.told console.new) (Leaves (B.at bout.now)) result
        (λ ended. after_shown ended (B.at bout.now) heard) }
    ensures causes { Causes ⊥ (C.told console.old).faults (C.told console.new).faults result }
{
    say_text(console, "\n")?;
    Ok(true)
}

/// Hears a line, does what it asks for, and shows what was played if that has changed. Returns
/// whether the game is over or left.
fn play_line<B: Bout, C: Console>(
    alloc: Global,
    bout: &mut B,
    console: &mut C,
) -> Result<bool, Stop>
    requires shown { B.shown bout.old }
    requires room { 0 < B.room bout.old }
    ensures course { (heard : ℕ) → Goes (Steps (B.rules bout.old))
        (C.told console.old) (C.told console.new) (Listens (B.at bout.old) heard) result
        (λ ended. after_shown ended (B.at bout.new) (heard + 1)) }
    ensures shown { IfOk result (λ _. B.shown bout.new) }
    ensures room { IfOk result (λ _. B.room bout.old ≤ B.room bout.new + 1) }
    ensures allows { IfOk result (λ _. Allows (B.rules bout.old) (B.rules bout.new)) }
    ensures causes { Causes ⊥ (C.told console.old).faults (C.told console.new).faults result }
{
    let mut line = [0u8; MAX_REPLY];
    match console.hear(&mut line) {
        Ok(Heard::Line(count)) => {
            let reply = read_reply(&bout.game().field, trimmed(&line[..count]));
            answer_line(alloc, bout, reply, console)
        }
        Ok(Heard::Long) => note(alloc, bout, Note::Refused(ReplyFault::NoNumber), console),
        Ok(Heard::End) => leave(bout, console),
        Err(_) => Err(Stop::Read),
    }
}

/// Plays until the game is over, it is left, or the input ends.
///
/// # Errors
///
/// `Read` or `Write` if a call on the console has failed, and `Memory` if memory ran out.
pub fn play_to_the_end<B: Bout, C: Console>(
    alloc: Global,
    bout: &mut B,
    console: &mut C,
) -> Result<(), Stop>
    requires moved { B.moved bout.old }
    requires room { MAX_HEARD ≤ B.room bout.old }
    ensures course { Goes (Steps (B.rules bout.old))
        (C.told console.old) (C.told console.new) (Shows (B.at bout.old) 0) result
        (λ _. Closes (B.at bout.new)) }
    ensures shown { IfOk result (λ _. B.shown bout.new) }
    ensures allows { IfOk result (λ _. Allows (B.rules bout.old) (B.rules bout.new)) }
    ensures causes { Causes ⊥ (C.told console.old).faults (C.told console.new).faults result }
{
    let mut heard = 0;
    let mut ended = show(alloc, bout, console)?;
    while !ended && heard < MAX_HEARD {
        ended = play_line(alloc, bout, console)?;
        heard += 1;
    }
    Ok(())
}
