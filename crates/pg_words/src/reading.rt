//! The meaning of the words.
ghost use Rattle.std.specs.Prelude.{◌≡◌, IfOk, map, option_map, string_bytes};
ghost use Rattle.pg_words.specs.Ordered.{ordered};
ghost use Rattle.pg_words.specs.Words.{meaning_of};

use crate::command::Command;
use crate::matching::{is_set, matches};
use crate::order::in_order;
use crate::table::asked;
use pg_base::Memory;
use std::alloc::Global;

/// The meaning of the words that follow the program's name; none where they have none.
///
/// They are put in order, each option as one word, a flag among them, and read by one `clap`
/// command; the README of this crate has the rules and the table.
///
/// # Errors
///
/// `Memory` where no memory is found, also by `clap`.
pub fn meaning(alloc: Global, words: &[String]) -> Result<Option<Command>, Memory>
    ensures { IfOk result (λ c. option_map ordered c ≡ meaning_of (map string_bytes words.now)) }
{
    let Some(ordered) = in_order(alloc, words)? else {
        return Ok(None);
    };
    let Some(found) = matches(alloc, &ordered)? else {
        return Ok(None);
    };
    let positionals = found.get_strs("words").unwrap_or(&[]);
    asked(
        alloc,
        positionals,
        found.get_str("positions"),
        found.get_str("side"),
        is_set(found.get_str("images")),
    )
}
