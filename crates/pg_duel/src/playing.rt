//! A game from its file, played against the program by a certificate, and its record.
ghost use Rattle.std.specs.Prelude.{◌≡◌, IfErr, IfOk, Some, option_copied, ⊤};
ghost use Rattle.pg_duel.specs.Prelude.{BothCauses, Does, Evidence, HaltCauses, IsFit, IsReadHalt};
ghost use Rattle.pg_duel.specs.Prelude.{IsValid, IsWithinItsLimits, QuietsBy, ReadsOnly, Runs};
ghost use Rattle.pg_duel.specs.Prelude.{StandsFor, StoresAt, chosen_claim, names_of, sitting_of};
ghost use Rattle.pg_duel.specs.Dueling.{AreLacking, Duels, GivesDuel, OpensBoth, PlaysBy};
ghost use Rattle.pg_duel.specs.Dueling.{PlaysSeat, Refuses, RefusesBy, RunsOn, both_held};
ghost use Rattle.pg_duel.specs.Sides.{side_by};
ghost use Rattle.pg_playing.specs.Playing.{GivesTable};

use crate::claims::side_by;
use crate::rival::Rival;
use pg_base::Side;
use pg_characters::Look;
use pg_check::{CheckFault, Checked};
use pg_evidence::{Evidence, check_standing, open_evidence, standing_of};
use pg_game::Game;
use pg_io::{Console, Files, Stop};
use pg_messages::Refusal;
use pg_opponent::Seat;
use pg_player::OpenFault;
use pg_playing::{play_to_the_end, store, turned_to};
use pg_talk::{Halt, open_game};
use std::alloc::Global;

/// What is to be played by a certificate, and how.
#[derive(Clone, Copy)]
pub struct Challenge<'a> {
    /// The path of the game.
    pub game: &'a str,
    /// The path of the certificate.
    pub certificate: &'a str,
    /// The side that the program plays, or that of the first claim if none is asked for.
    pub side: Option<Side>,
    /// The side that begins, or the game's if none is asked for.
    pub turn: Option<Side>,
    /// The path under which the record is stored, if it is to be.
    pub record: Option<&'a str>,
    /// How the board is shown.
    pub look: Look,
}

/// The game and the certificate under these names. The certificate is opened only if the game is
/// taken.
fn open_both<F: Files>(
    alloc: Global,
    files: &mut F,
    game: &str,
    certificate: &str,
) -> Result<(Game, Evidence), Halt>
    ensures opened { OpensBoth (F.told files.old).held game.now certificate.now result }
    ensures limits { IfOk result (λ both. IsWithinItsLimits both.1) }
    ensures halts { IfErr result IsReadHalt }
    ensures causes { HaltCauses (AreLacking (F.told files.old).held game.now certificate.now)
        (F.told files.old).faults (F.told files.new).faults result }
    ensures kept { ReadsOnly (F.told files.old) (F.told files.new) }
{
    let game = open_game(alloc, files, game)?;
    let evidence = open_evidence(alloc, files, certificate)?;
    Ok((game, evidence))
}

/// Plays a game that has begun, and stores its record.
fn play_seat<'a, F: Files, C: Console>(
    alloc: Global,
    checked: Checked<'a>,
    challenge: Challenge<'_>,
    seat: Seat<'a>,
    files: &mut F,
    console: &mut C,
) -> Result<u8, Halt>
    requires game { checked.game.now ≡ seat.session.game }
    requires chosen { chosen_claim checked.game.now checked.cert.now seat.player.claim.side
        ≡ Some seat.player.claim }
    requires fits { IsFit checked.game.now seat.player.claim (sitting_of seat) }
    ensures played { Does (PlaysSeat challenge.entry.look checked.entry.game.now
        seat.entry.player.claim (sitting_of seat.entry) (option_copied challenge.entry.record))
        (F.told files.old) (F.told files.new) (C.told console.old) (C.told console.new) result }
    ensures files { StoresAt (names_of (option_copied challenge.entry.record))
        (F.told files.old) (F.told files.new) }
    ensures causes { BothCauses ⊥ (F.told files.old) (F.told files.new)
        (C.told console.old) (C.told console.new) result }
    ensures gives { GivesTable result }
{
    let look = challenge.look;
    let mut rival = Rival {
        checked,
        look,
        seat,
    };
    play_to_the_end(alloc, &mut rival, console)?;
    store(alloc, &rival.seat.session, challenge.record, files, console)
}

/// Plays the side of a certificate that is valid.
fn play_side<F: Files, C: Console>(
    alloc: Global,
    checked: Checked<'_>,
    side: Side,
    challenge: Challenge<'_>,
    files: &mut F,
    console: &mut C,
) -> Result<u8, Halt>
    requires valid { IsValid checked.game.now checked.cert.now }
    ensures played { (e : Evidence) → StandsFor checked.entry.game.now e checked.entry.cert.now
        → side ≡ side_by challenge.entry.side checked.entry.game.now.turn checked.entry.cert.now
        → RunsOn (RefusesBy challenge.entry.side checked.entry.game.now e)
        (PlaysBy challenge.entry.look challenge.entry.side checked.entry.game.now e
        (option_copied challenge.entry.record))
        (F.told files.old) (F.told files.new) (C.told console.old) (C.told console.new) result }
    ensures files { StoresAt (names_of (option_copied challenge.entry.record))
        (F.told files.old) (F.told files.new) }
    ensures causes { BothCauses ⊥ (F.told files.old) (F.told files.new)
        (C.told console.old) (C.told console.new) result }
    ensures quiet { QuietsBy ⊤ ⊤ (C.told console.old) (C.told console.new) result }
    ensures gives { GivesDuel result }
{
    match Seat::begin(alloc, checked, side) {
        Ok(seat) => play_seat(alloc, checked, challenge, seat, files, console),
        Err(OpenFault::NoClaim) => Err(Halt::Refused(Refusal::NoClaim { side })),
        Err(OpenFault::Memory) => Err(Halt::Stopped(Stop::Memory)),
    }
}

/// Plays by the certificate for which this one stands.
fn play_by<F: Files, C: Console>(
    alloc: Global,
    game: &Game,
    evidence: Evidence,
    challenge: Challenge<'_>,
    files: &mut F,
    console: &mut C,
) -> Result<u8, Halt>
    requires { IsWithinItsLimits evidence }
    ensures played { RunsOn (RefusesBy challenge.entry.side game.now evidence)
        (PlaysBy challenge.entry.look challenge.entry.side game.now evidence
        (option_copied challenge.entry.record))
        (F.told files.old) (F.told files.new) (C.told console.old) (C.told console.new) result }
    ensures files { StoresAt (names_of (option_copied challenge.entry.record))
        (F.told files.old) (F.told files.new) }
    ensures causes { BothCauses ⊥ (F.told files.old) (F.told files.new)
        (C.told console.old) (C.told console.new) result }
    ensures quiet { QuietsBy ⊤ ⊤ (C.told console.old) (C.told console.new) result }
    ensures gives { GivesDuel result }
{
    let standing = standing_of(alloc, game, evidence)?;
    let side = side_by(challenge.side, game, &standing.cert);
    match check_standing(alloc, game, &standing) {
        Ok(checked) => play_side(alloc, checked, side, challenge, files, console),
        Err(CheckFault::Reject { claim, node, why }) => {
            Err(Halt::Refused(Refusal::Rejected { claim, node, why }))
        }
        Err(CheckFault::Memory) => Err(Halt::Stopped(Stop::Memory)),
    }
}

/// Plays a game against the person at the console by a certificate: it makes the moves of the claim
/// that `posgame play` plays for that side, hears the person's points and what is taken back, and
/// answers each line. It ends with 0 when the game is over or left or the input ends; then its
/// record is stored, if a path for it is given. A game that is over has reached the claim's goal.
///
/// # Errors
///
/// `Halt::Refused` if the game's or the certificate's file is invalid, if the certificate isn't
/// valid for the game, or if it has no claim of the side from the turn; then nothing is printed or
/// stored. `Halt::Stopped` if a call on files or the console has failed, a file doesn't exist, or
/// memory ran out.
pub fn duel<F: Files, C: Console>(
    alloc: Global,
    challenge: Challenge<'_>,
    files: &mut F,
    console: &mut C,
) -> Result<u8, Halt>
    ensures ran { Runs
        (λ held refusal. Refuses challenge.entry.turn challenge.entry.side
        (both_held (held challenge.entry.game.now) (held challenge.entry.certificate.now)) refusal)
        (λ held. Duels challenge.entry.look challenge.entry.turn challenge.entry.side
        (both_held (held challenge.entry.game.now) (held challenge.entry.certificate.now))
        (option_copied challenge.entry.record))
        (F.told files.old) (F.told files.new) (C.told console.old) (C.told console.new) result }
    ensures causes { BothCauses (AreLacking (F.told files.old).held challenge.entry.game.now
        challenge.entry.certificate.now)
        (F.told files.old) (F.told files.new) (C.told console.old) (C.told console.new) result }
    ensures quiet { QuietsBy ⊤ ⊤ (C.told console.old) (C.told console.new) result }
    ensures files { StoresAt (names_of (option_copied challenge.entry.record))
        (F.told files.old) (F.told files.new) }
    ensures gives { GivesDuel result }
{
    let (said, evidence) = open_both(alloc, files, challenge.game, challenge.certificate)?;
    let game = turned_to(said, challenge.turn);
    play_by(alloc, &game, evidence, challenge, files, console)
}
