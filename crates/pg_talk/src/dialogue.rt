//! Playing a side to the end over a console.
ghost use Rattle.std.specs.Prelude.{◌≡◌, ◌≢◌, ℕ, false, Err, Some, IfErr, IfOk, IsTrue};
ghost use Rattle.pg_talk.specs.Prelude.{Side, Causes, reaches, Position, DONE};
ghost use Rattle.pg_talk.specs.Contest.{Contest};
ghost use Rattle.pg_talk.specs.Dialogue.{At, Owes, Over};
ghost use Rattle.pg_talk.specs.Done.{Performs};
ghost use Rattle.pg_talk.specs.Halts.{HaltCauses, IsPlayEnd, IsTalkHalt};
ghost use Rattle.pg_talk.specs.Playing.{IsPlay};
ghost use Rattle.pg_talk.specs.Reply.{said_number};
ghost use Rattle.pg_talk.specs.Talk.{Goes, IsTheirTurn, Talks, TalksFrom, answered, turned};

use crate::contestant::Contestant;
use crate::halt::Halt;
use crate::reply::said_number;
use crate::saying::say;
use pg_game::Illegal;
use pg_io::{Console, Heard, Stop};
use pg_messages::{DONE, INPUT_ENDED, Message, OUT_OF_REPLIES, ReplyFault};

/// How many bytes of a line are heard at once; a longer line is refused.
pub const MAX_REPLY: usize = 64;

/// How many refused replies end a dialogue.
pub const MAX_REFUSALS: u8 = 100;

/// What came of a turn, or of one of its points where it has several.
#[derive(Clone, Copy, Debug, PartialEq, Eq)]
pub enum Turn {
    /// A point was taken.
    Played,
    /// A reply was refused.
    Refused,
    /// The input has ended.
    Ended,
}

/// Refuses a reply, which ends the turn.
fn refuse<C: Console>(console: &mut C, fault: ReplyFault) -> Result<Turn, Stop>
    ensures talk { (c : Contest) → (side : Side) → (p : Position) → (refused : ℕ)
        → Talks c side (C.told console.old) (C.told console.new) (Owes p refused fault) result
        (λ turn. turned p refused turn) }
    ensures turn { IfOk result (λ turn. turn ≡ Turn.Refused) }
    ensures causes { Causes ⊥ (C.told console.old).faults (C.told console.new).faults result }
    ensures memory { result ≢ Err Stop.Memory }
{
    say(console, Message::NoReply(fault))?;
    Ok(Turn::Refused)
}

/// Plays a point for the other side, and a move of the player where it is then to move; or refuses
/// the point.
fn take_point<P: Contestant, C: Console>(
    player: &mut P,
    console: &mut C,
    v: u16,
) -> Result<Turn, Stop>
    requires { IsTheirTurn (P.contender player.old) }
    ensures talk { (refused : ℕ)
        → TalksFrom (P.contender player.old) (C.told console.old) (C.told console.new)
        (answered (P.contender player.old) refused (Some v)) result
        (λ turn. turned (P.contender player.new).position refused turn) }
    ensures goes { Goes (P.contender player.old) (P.contender player.new) result }
    ensures causes { Causes ⊥ (C.told console.old).faults (C.told console.new).faults result }
    ensures memory { result ≢ Err Stop.Memory }
{
    match player.answer(v) {
        Ok(None) => Ok(Turn::Played),
        Ok(Some(own)) => {
            say(console, Message::Move(own))?;
            Ok(Turn::Played)
        }
        Err(Illegal::Taken) => refuse(console, ReplyFault::Taken),
        Err(Illegal::Range | Illegal::Over) => refuse(console, ReplyFault::NoPoint),
    }
}

/// Plays the point that a line says, and a move of the player where it is then to move; or refuses
/// the line.
fn answer_line<P: Contestant, C: Console>(
    player: &mut P,
    console: &mut C,
    line: &[u8],
) -> Result<Turn, Stop>
    requires { IsTheirTurn (P.contender player.old) }
    ensures talk { (refused : ℕ)
        → TalksFrom (P.contender player.old) (C.told console.old) (C.told console.new)
        (answered (P.contender player.old) refused (said_number line.now)) result
        (λ turn. turned (P.contender player.new).position refused turn) }
    ensures goes { Goes (P.contender player.old) (P.contender player.new) result }
    ensures causes { Causes ⊥ (C.told console.old).faults (C.told console.new).faults result }
    ensures memory { result ≢ Err Stop.Memory }
{
    match said_number(line) {
        None => refuse(console, ReplyFault::NoNumber),
        Some(number) => match u16::try_from(number) {
            Ok(v) => take_point(player, console, v),
            Err(_) => refuse(console, ReplyFault::NoPoint),
        },
    }
}

/// Hears a reply, and answers it.
fn hear_reply<P: Contestant, C: Console>(player: &mut P, console: &mut C) -> Result<Turn, Stop>
    requires { IsTheirTurn (P.contender player.old) }
    ensures talk { (refused : ℕ)
        → TalksFrom (P.contender player.old) (C.told console.old) (C.told console.new)
        (At (P.contender player.old).position refused) result
        (λ turn. turned (P.contender player.new).position refused turn) }
    ensures goes { Goes (P.contender player.old) (P.contender player.new) result }
    ensures causes { Causes ⊥ (C.told console.old).faults (C.told console.new).faults result }
    ensures memory { result ≢ Err Stop.Memory }
{
    let mut line = [0u8; MAX_REPLY];
    match console.hear(&mut line) {
        Ok(Heard::Line(count)) => answer_line(player, console, &line[..count]),
        Ok(Heard::Long) => refuse(console, ReplyFault::NoNumber),
        Ok(Heard::End) => Ok(Turn::Ended),
        Err(_) => Err(Stop::Read),
    }
}

/// Makes the player's move where it is to move, and else hears a reply and answers it: one point,
/// also in a turn of several.
fn take_turn<P: Contestant, C: Console>(player: &mut P, console: &mut C) -> Result<Turn, Stop>
    requires { (P.contender player.old).contest.rules.over (P.contender player.old).position
        ≡ false }
    ensures talk { (refused : ℕ)
        → TalksFrom (P.contender player.old) (C.told console.old) (C.told console.new)
        (At (P.contender player.old).position refused) result
        (λ turn. turned (P.contender player.new).position refused turn) }
    ensures goes { Goes (P.contender player.old) (P.contender player.new) result }
    ensures causes { Causes ⊥ (C.told console.old).faults (C.told console.new).faults result }
    ensures memory { result ≢ Err Stop.Memory }
{
    match player.first() {
        Some(own) => {
            say(console, Message::Move(own))?;
            Ok(Turn::Played)
        }
        None => hear_reply(player, console),
    }
}

/// Plays the player's side over a console until the game is over, the input ends, or as many
/// replies are refused as may be. In a turn of several points each is a move, or a reply, of its
/// own.
pub fn play_to_the_end<P: Contestant, C: Console>(
    player: &mut P,
    console: &mut C,
) -> Result<u8, Stop>
    ensures talk { TalksFrom (P.contender player.old) (C.told console.old) (C.told console.new)
        (At (P.contender player.old).position 0) result
        (λ status. Over (P.contender player.new).position status) }
    ensures reached { IfOk result (λ status. status ≡ DONE →
        IsTrue (reaches (P.contender player.old).side (P.contender player.old).goal
        ((P.contender player.old).contest.rules.outcome (P.contender player.new).position))) }
    ensures done { IfOk result IsPlayEnd }
    ensures causes { Causes ⊥ (C.told console.old).faults (C.told console.new).faults result }
    ensures memory { result ≢ Err Stop.Memory }
{
    let mut refused = 0;
    loop {
        if let Some(score) = player.outcome() {
            let kind = player.kind();
            say(console, Message::Result { kind, score })?;
            return Ok(DONE);
        }
        match take_turn(player, console)? {
            Turn::Played => {}
            Turn::Refused => {
                refused += 1;
                if refused == MAX_REFUSALS {
                    return Ok(OUT_OF_REPLIES);
                }
            }
            Turn::Ended => return Ok(INPUT_ENDED),
        }
    }
}

/// Says the claim of a player, and plays its side to the end.
pub fn play_claim<P: Contestant, C: Console>(player: &mut P, console: &mut C) -> Result<u8, Halt>
    ensures played { Performs (λ _. ⊥) (IsPlay (P.contender player.old))
        (C.told console.old) (C.told console.new) result }
    ensures causes { HaltCauses ⊥ (C.told console.old).faults (C.told console.new).faults result }
    ensures done { IfOk result IsPlayEnd }
    ensures halts { IfErr result IsTalkHalt }
{
    let (side, goal) = (player.side(), player.goal());
    say(console, Message::Claim { side, goal })?;
    Ok(play_to_the_end(player, console)?)
}
