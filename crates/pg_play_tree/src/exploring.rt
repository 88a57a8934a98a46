//! The positions to which a side's player comes, whatever the other side replies.
ghost use Rattle.std.specs.Prelude.{◌≡◌, ◌≢◌, ◌++◌, ◌∷◌, [], ◌<◌, ◌≤◌, IfOk, IfSome, None, Ok};
ghost use Rattle.std.specs.Prelude.{false, length};
ghost use Rattle.pg_play_tree.specs.Prelude.{MAX_MEMBERS, chosen_claim, point_count};
ghost use Rattle.pg_play_tree.specs.Lines.{MeetsMore};
ghost use Rattle.pg_play_tree.specs.Places.{AreFound, IsNew, is_next};

use crate::place::{Place, Step, place_after};
use pg_base::{Memory, Side};
use pg_check::Checked;
use pg_game::Position;
use std::alloc::Global;

/// Returns the index of the place at a position, if there is one.
pub(crate) fn index_at(places: &[Place], position: &Position) -> Option<usize>
    ensures found { IfSome result (λ k. k < length places.now) }
    ensures new { result ≡ None → IsNew places.now position.now }
{
    for k in 0..places.len() {
        if places[k].position.is_same(position) {
            return Some(k);
        }
    }
    None
}

/// Whether the point is played next at a position, where this step follows.
fn is_next(step: Step, position: &Position, v: u16) -> bool
    requires { v < MAX_MEMBERS }
    ensures { result ≡ is_next step position.now v }
{
    match step {
        Step::Over => false,
        Step::Own(own) => own == v,
        Step::Replies => position.is_free(v),
    }
}

/// Returns the points with one more.
fn with_point(alloc: Global, points: &[u16], v: u16) -> Result<Vec<u16>, Memory>
    ensures { IfOk result (λ longer. longer.items ≡ points.now ++ v ∷ []) }
{
    let mut longer = Vec::from_slice(alloc, points)?;
    longer.push(v)?;
    Ok(longer)
}

/// Adds the place that follows the one of index `k` by the point `v`, if the point is played next
/// there and the place is new. Returns false if there would be more than `most` places.
fn add_after(
    alloc: Global,
    checked: Checked<'_>,
    side: Side,
    places: &mut Vec<Place>,
    k: usize,
    v: u16,
    most: usize,
) -> Result<bool, Memory>
    requires index { k < length places.old.items }
    requires point { v < point_count checked.game.now }
    requires found { AreFound checked.game.now checked.cert.now side places.old.items }
    requires few { length places.old.items ≤ most }
    ensures found { IfOk result (λ _.
        AreFound checked.entry.game.now checked.entry.cert.now side places.new.items) }
    ensures size { IfOk result (λ _. (length places.old.items ≤ length places.new.items)
        × (length places.new.items ≤ most)) }
    ensures many { result ≡ Ok false
        → MeetsMore checked.entry.game.now checked.entry.cert.now side most }
{
    let (position, step) = (places[k].position, places[k].step);
    if !is_next(step, &position, v) {
        return Ok(true);
    }
    let next = checked.game.after(&position, v);
    if index_at(places.as_slice(), &next).is_some() {
        return Ok(true);
    }
    let line = with_point(alloc, places[k].points.as_slice(), v)?;
    let Some(place) = place_after(alloc, checked, side, line)? else {
        unreachable!()
    };
    if places.len() >= most {
        return Ok(false);
    }
    places.push(place)?;
    Ok(true)
}

/// Adds the places that follow the one of index `k`, but those that are there. Returns false if
/// there would be more than `most` places.
fn expand(
    alloc: Global,
    checked: Checked<'_>,
    side: Side,
    places: &mut Vec<Place>,
    k: usize,
    most: usize,
) -> Result<bool, Memory>
    requires index { k < length places.old.items }
    requires found { AreFound checked.game.now checked.cert.now side places.old.items }
    requires few { length places.old.items ≤ most }
    ensures found { IfOk result (λ _.
        AreFound checked.entry.game.now checked.entry.cert.now side places.new.items) }
    ensures size { IfOk result (λ _. (length places.old.items ≤ length places.new.items)
        × (length places.new.items ≤ most)) }
    ensures many { result ≡ Ok false
        → MeetsMore checked.entry.game.now checked.entry.cert.now side most }
{
    for v in 0..checked.game.points() {
        if !add_after(alloc, checked, side, places, k, v, most)? {
            return Ok(false);
        }
    }
    Ok(true)
}

/// Returns the positions to which the side's player comes, whatever the other side replies: the
/// first is the game's, and each follows one before it. None if there are more than `most`.
pub(crate) fn explore(
    alloc: Global,
    checked: Checked<'_>,
    side: Side,
    most: usize,
) -> Result<Option<Vec<Place>>, Memory>
    requires { chosen_claim checked.game.now checked.cert.now side ≢ None }
    ensures found { IfOk result (λ found. IfSome found (λ places.
        AreFound checked.entry.game.now checked.entry.cert.now side places.items)) }
    ensures size { IfOk result (λ found. IfSome found
        (λ places. (0 < length places.items) × (length places.items ≤ most))) }
    ensures many { result ≡ Ok None
        → MeetsMore checked.entry.game.now checked.entry.cert.now side most }
{
    let Some(first) = place_after(alloc, checked, side, Vec::new(alloc))? else {
        unreachable!()
    };
    let mut places = Vec::new(alloc);
    places.push(first)?;
    for k in 0..most {
        if !expand(alloc, checked, side, &mut places, k, most)? {
            return Ok(None);
        }
        if k + 1 >= places.len() {
            return Ok(Some(places));
        }
    }
    Ok(None)
}
