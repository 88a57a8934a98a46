//! The text of a plan.
ghost use Rattle.std.specs.Prelude.{◌≡◌, ◌++◌, IfOk, OnOk, map, string_bytes};
ghost use Rattle.pg_plan.specs.Prelude.{behind_spaces, flat_map, spelled};
ghost use Rattle.pg_plan.specs.Print.{place_words, printed_plan, step_word};

use crate::place::{Place, Plan, Step};
use pg_base::Memory;
use std::alloc::{AllocError, Global};
use std::fmt::Write;

/// Puts moves, each after a space.
fn put_steps(out: &mut String, steps: &[Step]) -> Result<(), AllocError>
    ensures { OnOk result
        (string_bytes out.new ≡ string_bytes out.old ++ behind_spaces (map step_word steps.now)) }
{
    for step in steps {
        let point = step.point;
        let place = step.place;
        write!(out, " {point}:{place}")?;
    }
    Ok(())
}

/// Puts the line of a position.
fn put_place(out: &mut String, place: &Place) -> Result<(), AllocError>
    ensures { OnOk result
        (string_bytes out.new ≡ string_bytes out.old ++ spelled (place_words place.now)) }
{
    match place {
        Place::Decided => out.push_str("decided\n"),
        Place::Image { map, place } => {
            let map = *map;
            let place = *place;
            write!(out, "image {map} {place}\n")
        }
        Place::Game { file, steps } => {
            let file = *file;
            write!(out, "game {file}")?;
            put_steps(out, steps.as_slice())?;
            out.push_str("\n")
        }
        Place::Moves(steps) => {
            out.push_str("moves")?;
            put_steps(out, steps.as_slice())?;
            out.push_str("\n")
        }
    }
}

/// Puts the lines of positions.
fn put_places(out: &mut String, places: &[Place]) -> Result<(), AllocError>
    ensures { OnOk result
        (string_bytes out.new
        ≡ string_bytes out.old ++ flat_map (λ p. spelled (place_words p)) places.now) }
{
    for place in places {
        put_place(out, place)?;
    }
    Ok(())
}

/// Returns the text of a plan: the line `posgame-plan 1`, and one line for each position.
///
/// The text of any positions is printed. If they make a plan, and the text isn't too large for a
/// file, it reads back as the same plan (law `printed_plan_is_read`).
///
/// # Errors
///
/// `Memory` if memory runs out.
#[tactic(auto, unfolding(crate::specs::Print::printed_plan))]
pub fn print_plan(alloc: Global, plan: &Plan) -> Result<Vec<u8>, Memory>
    ensures { IfOk result (λ text. text.items ≡ printed_plan plan.now) }
{
    let mut out = String::new(alloc);
    out.push_str("posgame-plan 1\n")?;
    put_places(&mut out, plan.as_slice())?;
    Ok(out.into_bytes())
}
