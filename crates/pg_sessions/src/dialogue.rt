//! The dialogue of a session: lines are heard and answered until it ends.
ghost use Rattle.std.specs.Prelude.{◌≡◌, ◌≢◌, ◌<◌, ℕ, [], List, Err, length, IfOk};
ghost use Rattle.pg_sessions.specs.Prelude.{Causes, Game, Event, MAX_EVENTS};
ghost use Rattle.pg_sessions.specs.Course.{Goes};
ghost use Rattle.pg_sessions.specs.SessionLog.{IsOpen, Listens, Refuses, Stands, Steps};
ghost use Rattle.pg_sessions.specs.SessionLog.{after_request, reason_of};
ghost use Rattle.pg_sessions.specs.Turns.{Turns, closed, turned};

use crate::request::{Request, request_of};
use pg_game::Illegal;
use pg_io::{Console, Heard, Stop};
use pg_messages::{Message, ReplyFault};
use pg_record::Session;
use pg_talk::{MAX_REFUSALS, MAX_REPLY, say};

/// What came of a line.
#[derive(Clone, Copy, Debug, PartialEq, Eq)]
pub enum Turn {
    /// A move was played or taken back.
    Changed,
    /// The line was refused.
    Refused,
    /// The session is to end.
    Ended,
}

/// How a session ended.
#[derive(Clone, Copy, Debug, PartialEq, Eq)]
pub enum Close {
    /// By a line, by the end of the input, or for want of room for a further event.
    Ended,
    /// So many lines were refused that no more are heard.
    OutOfReplies,
}

/// Why a move isn't made, as it is said.
fn reason_of(why: Illegal) -> ReplyFault
    ensures { result ≡ reason_of why }
{
    match why {
        Illegal::Range => ReplyFault::NoPoint,
        Illegal::Over => ReplyFault::Over,
        Illegal::Taken => ReplyFault::Taken,
    }
}

/// Refuses a line.
fn refuse<C: Console>(console: &mut C, fault: ReplyFault) -> Result<Turn, Stop>
    ensures course { (g : Game) → (events : List Event) → (refusals : ℕ)
        → Goes (Steps g) IsOpen (C.told console.old) (C.told console.new)
        (Refuses events refusals fault) result
        (λ turn. turned events refusals turn) }
    ensures turn { IfOk result (λ turn. turn ≡ Turn.Refused) }
    ensures causes { Causes ⊥ (C.told console.old).faults (C.told console.new).faults result }
    ensures memory { result ≢ Err Stop.Memory }
{
    say(console, Message::NoReply(fault))?;
    Ok(Turn::Refused)
}

/// Tells how many moves stand after an event.
fn tell_standing<C: Console>(session: &Session<'_>, console: &mut C) -> Result<Turn, Stop>
    ensures course { (refusals : ℕ)
        → Goes (Steps session.now.game) IsOpen (C.told console.old) (C.told console.new)
        (Stands session.now.events refusals) result
        (λ turn. turned session.now.events refusals turn) }
    ensures turn { IfOk result (λ turn. turn ≡ Turn.Changed) }
    ensures causes { Causes ⊥ (C.told console.old).faults (C.told console.new).faults result }
    ensures memory { result ≢ Err Stop.Memory }
{
    say(console, Message::Standing(session.standing()))?;
    Ok(Turn::Changed)
}

/// Plays a point for the side to move, or refuses it.
fn make_move<C: Console>(session: &mut Session<'_>, console: &mut C, v: u16) -> Result<Turn, Stop>
    requires { length session.old.events < MAX_EVENTS }
    ensures course { (refusals : ℕ)
        → Goes (Steps session.old.game) IsOpen (C.told console.old) (C.told console.new)
        (after_request session.old.game session.old.events refusals (Request.Move v)) result
        (λ turn. turned session.new.events refusals turn) }
    ensures turns { Turns session.old session.new result }
    ensures causes { Causes ⊥ (C.told console.old).faults (C.told console.new).faults result }
    ensures memory { result ≢ Err Stop.Memory }
{
    match session.play(v) {
        Ok(()) => tell_standing(session, console),
        Err(why) => refuse(console, reason_of(why)),
    }
}

/// Takes the last standing move back, or refuses where none stands.
fn take_back<C: Console>(session: &mut Session<'_>, console: &mut C) -> Result<Turn, Stop>
    requires { length session.old.events < MAX_EVENTS }
    ensures course { (refusals : ℕ)
        → Goes (Steps session.old.game) IsOpen (C.told console.old) (C.told console.new)
        (after_request session.old.game session.old.events refusals Request.Back) result
        (λ turn. turned session.new.events refusals turn) }
    ensures turns { Turns session.old session.new result }
    ensures causes { Causes ⊥ (C.told console.old).faults (C.told console.new).faults result }
    ensures memory { result ≢ Err Stop.Memory }
{
    if session.back() {
        tell_standing(session, console)
    } else {
        refuse(console, ReplyFault::NothingToTakeBack)
    }
}

/// Does what a line asks for, or refuses it.
fn answer<C: Console>(
    session: &mut Session<'_>,
    console: &mut C,
    request: Request,
) -> Result<Turn, Stop>
    requires { length session.old.events < MAX_EVENTS }
    ensures course { (refusals : ℕ)
        → Goes (Steps session.old.game) IsOpen (C.told console.old) (C.told console.new)
        (after_request session.old.game session.old.events refusals request) result
        (λ turn. turned session.new.events refusals turn) }
    ensures turns { Turns session.old session.new result }
    ensures causes { Causes ⊥ (C.told console.old).faults (C.told console.new).faults result }
    ensures memory { result ≢ Err Stop.Memory }
{
    match request {
        Request::End => Ok(Turn::Ended),
        Request::Back => take_back(session, console),
        Request::Move(number) => match u16::try_from(number) {
            Ok(v) => make_move(session, console, v),
            Err(_) => refuse(console, ReplyFault::NoPoint),
        },
        Request::Unclear => refuse(console, ReplyFault::NoNumber),
    }
}

/// Hears a line and answers it.
fn take_turn<C: Console>(session: &mut Session<'_>, console: &mut C) -> Result<Turn, Stop>
    requires { length session.old.events < MAX_EVENTS }
    ensures course { (refusals : ℕ)
        → Goes (Steps session.old.game) IsOpen (C.told console.old) (C.told console.new)
        (Listens session.old.events refusals) result
        (λ turn. turned session.new.events refusals turn) }
    ensures turns { Turns session.old session.new result }
    ensures causes { Causes ⊥ (C.told console.old).faults (C.told console.new).faults result }
    ensures memory { result ≢ Err Stop.Memory }
{
    let mut line = [0u8; MAX_REPLY];
    match console.hear(&mut line) {
        Ok(Heard::Line(count)) => answer(session, console, request_of(&line[..count])),
        Ok(Heard::Long) => refuse(console, ReplyFault::NoNumber),
        Ok(Heard::End) => Ok(Turn::Ended),
        Err(_) => Err(Stop::Read),
    }
}

/// Hears and answers lines until the session ends.
pub(crate) fn hear_session<C: Console>(
    session: &mut Session<'_>,
    console: &mut C,
) -> Result<Close, Stop>
    requires { session.old.events ≡ [] }
    ensures course { Goes (Steps session.old.game) IsOpen (C.told console.old) (C.told console.new)
        (Listens [] 0) result
        (λ close. closed session.new.events close) }
    ensures game { IfOk result (λ _. session.new.game ≡ session.old.game) }
    ensures causes { Causes ⊥ (C.told console.old).faults (C.told console.new).faults result }
    ensures memory { result ≢ Err Stop.Memory }
{
    let mut refused = 0;
    while session.room() > 0 {
        match take_turn(session, console)? {
            Turn::Changed => {}
            Turn::Refused => {
                refused += 1;
                if refused == MAX_REFUSALS {
                    return Ok(Close::OutOfReplies);
                }
            }
            Turn::Ended => return Ok(Close::Ended),
        }
    }
    Ok(Close::Ended)
}
