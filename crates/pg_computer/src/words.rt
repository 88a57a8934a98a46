//! What the program says of its points.
ghost use Rattle.std.specs.Prelude.{◌≡◌, ◌<◌, IfOk, string_bytes};
ghost use Rattle.pg_computer.specs.Prelude.{point_count};
ghost use Rattle.pg_computer.specs.Words.{proof_text, taken_text};

use crate::choice::Choice;
use pg_base::Memory;
use pg_characters::put_name;
use pg_game::Game;
use std::alloc::Global;

/// Whether the point is proved to keep the value, in words.
fn proof_of(proved: bool) -> &'static str
    ensures { result.now ≡ proof_text proved }
{
    if proved {
        ": proved to keep the value.\n"
    } else {
        ": not proved.\n"
    }
}

/// Returns the line that says which point the program claims.
pub(crate) fn taken_text(alloc: Global, game: &Game, choice: Choice) -> Result<String, Memory>
    requires { choice.point < point_count game.now }
    ensures { IfOk result (λ text. string_bytes text ≡ taken_text game.now choice) }
{
    let mut out = String::new(alloc);
    out.push_str("I take ")?;
    put_name(&mut out, game, choice.point)?;
    out.push_str(proof_of(choice.proved))?;
    Ok(out)
}
