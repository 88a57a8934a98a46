//! What is printed.
ghost use Rattle.std.specs.Prelude.{◌≡◌, IfOk, string_bytes};
ghost use Rattle.pg_splitting.specs.Texts.{decline_text, split_text};

use crate::depth::depth_of;
use crate::preparing::Decline;
use pg_base::Memory;
use pg_game::Game;
use pg_split::Piece;
use std::alloc::Global;

/// Returns what is printed of positions that were written.
pub(crate) fn split_text(alloc: Global, game: &Game, pieces: &[Piece]) -> Result<String, Memory>
    ensures { IfOk result (λ text. string_bytes text ≡ split_text game.now pieces.now) }
{
    let count = pieces.len();
    let depth = depth_of(game, pieces);
    let text = format!(in alloc; "positions {count} depth {depth}\n")?;
    Ok(text)
}

/// Returns why a game isn't split.
pub(crate) fn decline_text(alloc: Global, decline: Decline) -> Result<String, Memory>
    ensures { IfOk result (λ text. string_bytes text ≡ decline_text decline) }
{
    let text = match decline {
        Decline::FaultyPlan { number, line } => {
            format!(in alloc; "plan P{number} line {line}\n")?
        }
        Decline::OtherPlan => String::from_str(alloc, "plan: of another game, or too large\n")?,
        Decline::NoPlan => String::from_str(alloc, "plan: none for this game\n")?,
    };
    Ok(text)
}
