//! Lines of play of a side's player, and where they lead.
ghost use Rattle.std.specs.Prelude.{◌≡◌, ◌≢◌, IfOk, IfSome, None, Ok, true};
ghost use Rattle.pg_play_tree.specs.Lines.{Plays};
ghost use Rattle.pg_play_tree.specs.Places.{CanOpen, CanPlay, CanPlayAll, IsNext, IsPlace};
ghost use Rattle.pg_play_tree.specs.Places.{Leads, OpensTo};

use pg_base::{Memory, Side};
use pg_check::Checked;
use pg_game::Position;
use pg_player::{OpenFault, Player};
use std::alloc::Global;

/// What follows at a position of a tree of play.
#[derive(Clone, Copy, Debug, PartialEq, Eq)]
pub(crate) enum Step {
    /// Nothing: the game is over.
    Over,
    /// The side's own move to this point.
    Own(u16),
    /// Any reply of the other side.
    Replies,
}

/// A position of a tree of play.
#[derive(Debug, Drop)]
pub(crate) struct Place {
    /// The points of both sides on a line of play that leads to it.
    pub(crate) points: Vec<u16>,
    /// The position.
    pub(crate) position: Position,
    /// What follows.
    pub(crate) step: Step,
}

/// Plays the point: as the player's own move if the player owes one, and otherwise as a reply.
/// Returns whether it could be played so.
fn play_point(player: &mut Player<'_>, v: u16) -> bool
    ensures plays { result ≡ true → Plays player.old player.new v }
    ensures able { CanPlay player.old v → result ≡ true }
{
    match player.first() {
        Some(own) => own == v,
        None => player.take_reply(v).is_ok(),
    }
}

/// Plays the points one after the other. Returns whether all could be played.
fn play_points(player: &mut Player<'_>, points: &[u16]) -> bool
    ensures leads { result ≡ true → Leads player.old points.now player.new }
    ensures able { CanPlayAll player.old points.now → result ≡ true }
{
    for v in points {
        if !play_point(player, *v) {
            return false;
        }
    }
    true
}

/// Returns the side's player after these points, if they are a line of play.
fn player_after<'a>(
    alloc: Global,
    checked: Checked<'a>,
    side: Side,
    points: &[u16],
) -> Result<Option<Player<'a>>, Memory>
    ensures opens { IfOk result (λ found. IfSome found
        (λ player. OpensTo checked.entry.game.now checked.entry.cert.now side points.now player)) }
    ensures able { CanOpen checked.entry.game.now checked.entry.cert.now side points.now
        → result ≢ Ok None }
{
    let mut player = match Player::open(alloc, checked, side) {
        Ok(player) => player,
        Err(OpenFault::NoClaim) => return Ok(None),
        Err(OpenFault::Memory) => return Err(Memory),
    };
    if !play_points(&mut player, points) {
        return Ok(None);
    }
    Ok(Some(player))
}

/// Returns what follows where the player stands.
fn next_step(player: &mut Player<'_>) -> Step
    ensures { IsNext player.old result }
{
    if player.outcome().is_some() {
        return Step::Over;
    }
    match player.first() {
        Some(v) => Step::Own(v),
        None => Step::Replies,
    }
}

/// Returns where these points lead, if they are a line of play of the side's player.
pub(crate) fn place_after(
    alloc: Global,
    checked: Checked<'_>,
    side: Side,
    points: Vec<u16>,
) -> Result<Option<Place>, Memory>
    ensures place { IfOk result (λ found. IfSome found
        (IsPlace checked.entry.game.now checked.entry.cert.now side)) }
    ensures points { IfOk result (λ found. IfSome found (λ place. place.points ≡ points)) }
    ensures able { CanOpen checked.entry.game.now checked.entry.cert.now side points.items
        → result ≢ Ok None }
{
    let Some(mut player) = player_after(alloc, checked, side, points.as_slice())? else {
        return Ok(None);
    };
    let position = player.position();
    let step = next_step(&mut player);
    Ok(Some(Place {
        points,
        position,
        step,
    }))
}
