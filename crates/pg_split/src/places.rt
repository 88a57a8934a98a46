//! Whether positions make a plan.
ghost use Rattle.std.specs.Prelude.{◌≡◌, ◌≤◌, true};
ghost use Rattle.pg_plan.specs.Places.{IsPlace, IsPlan, names_earlier};
ghost use Rattle.pg_split.specs.Steps.{AreSteps, is_step};
ghost use Rattle.std.specs.List.{list_all};

use pg_base::MAX_MEMBERS;
use pg_plan::{MAX_GAME_FILES, MAX_MAPS, MAX_PLACES, Place, Step};

/// Returns whether the moves are those of points, to positions of lower numbers.
fn all_steps(count: u32, steps: &[Step]) -> bool
    ensures { result ≡ list_all (is_step count) steps.now }
{
    steps
        .iter()
        .all(|step| step.point < MAX_MEMBERS && step.place < count)
}

/// Returns whether the moves are those of a position with at most `MAX_PLACES` before it.
fn are_steps(count: u32, steps: &[Step]) -> bool
    requires { count ≤ MAX_PLACES }
    ensures { result ≡ true → AreSteps count steps.now }
{
    all_steps(count, steps)
}

/// Returns whether the numbers of a position are in their ranges, and it names those of lower
/// numbers.
fn is_place(count: u32, place: &Place) -> bool
    requires { count ≤ MAX_PLACES }
    ensures range { result ≡ true → IsPlace place.now }
    ensures earlier { result ≡ true → names_earlier count place.now ≡ true }
{
    match place {
        Place::Decided => true,
        Place::Image { map, place } => u32::from(*map) < MAX_MAPS && *place < count,
        Place::Game { file, steps } => {
            0 < *file && *file < MAX_GAME_FILES && are_steps(count, steps.as_slice())
        }
        Place::Moves(steps) => are_steps(count, steps.as_slice()),
    }
}

/// Returns whether the positions make a plan.
pub(crate) fn is_plan(places: &[Place]) -> bool
    ensures { result ≡ true → IsPlan places.now }
{
    if places.len() > MAX_PLACES as usize {
        return false;
    }
    let mut count = 0;
    for place in places {
        if !is_place(count, place) {
            return false;
        }
        count += 1;
    }
    true
}
