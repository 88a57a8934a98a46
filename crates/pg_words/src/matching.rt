//! The words in order, read by `clap`.
ghost use Rattle.std.specs.Prelude.{◌≡◌, false, IfOk, map, option_map, string_bytes};
ghost use Rattle.clap.specs.Words.{app_of, rule_of};
ghost use Rattle.pg_words.specs.Given.{given};
ghost use Rattle.pg_words.specs.Line.{Line, in_order};
ghost use Rattle.pg_words.specs.Matched.{given_in, is_set};
ghost use Rattle.pg_words.specs.Ordered.{text};
ghost use Rattle.pg_words.specs.Command.{command_app, flag_rule, option_rule};

use clap::error::ErrorKind;
use clap::{Arg, ArgAction, ArgMatches, Command};
use pg_base::Memory;
use std::alloc::Global;

/// An option that takes one value, at most once.
fn option<'a>(alloc: Global, name: &'a str) -> Arg<'a>
    ensures rule { rule_of result ≡ option_rule name.entry.now }
    ensures local { result.global ≡ false }
{
    Arg::new(alloc, name).long(name).action(ArgAction::Set)
}

/// A flag, at most once.
fn flag<'a>(alloc: Global, name: &'a str) -> Arg<'a>
    ensures rule { rule_of result ≡ flag_rule name.entry.now }
    ensures local { result.global ≡ false }
{
    Arg::new(alloc, name).long(name).action(ArgAction::SetTrue)
}

/// The command that reads words in order: both options, the flag, and any number of positionals.
fn command<'a>(alloc: Global) -> Result<Command<'a>, Memory>
    ensures { IfOk result (λ c. app_of c ≡ command_app) }
{
    let words = Arg::new(alloc, "words").action(ArgAction::Append);
    let command = Command::new(alloc, "posgame")
        .no_binary_name(true)
        .disable_help_flag(true)
        .arg(option(alloc, "positions"))?
        .arg(option(alloc, "side"))?
        .arg(flag(alloc, "images"))?
        .arg(words)?;
    Ok(command)
}

/// Whether a flag stands, by its value.
pub(crate) fn is_set(value: Option<&str>) -> bool
    ensures { result ≡ is_set (text value.entry) }
{
    matches!(value, Some("true"))
}

/// What the words in order give; none where an option or the flag stands twice.
pub fn matches<'a>(alloc: Global, ordered: &'a [String]) -> Result<Option<ArgMatches<'a>>, Memory>
    ensures { (line : Line) → map string_bytes ordered.now ≡ in_order line
        → IfOk result (λ found. option_map given_in found ≡ given line) }
{
    let command = command(alloc)?;
    match command.try_get_matches_from(ordered) {
        Ok(found) => Ok(Some(found)),
        Err(error) => match error.kind() {
            ErrorKind::OutOfMemory => Err(Memory),
            _ => Ok(None),
        },
    }
}
