//! Texts and titles.
ghost use Rattle.std.specs.Prelude.{◌≡◌, ◌++◌, ◌∷◌, [], IfOk, OnOk, codes, string_bytes};
ghost use Rattle.pg_captions.specs.Prelude.{decimal};
ghost use Rattle.pg_captions.specs.Words.{kind_title, node_title, result_words};

use crate::names::{goal_words, kind_title, side_name};
use crate::text::Text;
use pg_base::{Goal, Kind, Memory, Side};
use pg_cert::Claim;
use std::alloc::{AllocError, Global};
use std::fmt::Write;

/// Returns the decimal digits of a number.
///
/// # Errors
///
/// `Memory` if memory ran out.
pub fn decimal_text(alloc: Global, n: u128) -> Result<Text, Memory>
    ensures { IfOk result (λ text. text ≡ decimal n) }
{
    Ok(Text::from_string(format!(in alloc; "{n}")?))
}

/// Returns the text of these words.
///
/// # Errors
///
/// `Memory` if memory ran out.
pub fn text_of(alloc: Global, words: &str) -> Result<Text, Memory>
    ensures { IfOk result (λ text. text ≡ words.now) }
{
    let mut out = String::new(alloc);
    out.push_str(words)?;
    Ok(Text::from_string(out))
}

/// Adds a line of these words.
pub(crate) fn put_line(alloc: Global, lines: &mut Vec<Text>, words: &str) -> Result<(), Memory>
    ensures { OnOk result (lines.new.items ≡ lines.old.items ++ words.now ∷ []) }
{
    lines.push(text_of(alloc, words)?)?;
    Ok(())
}

/// Returns the title of a game, which is its kind.
///
/// # Errors
///
/// `Memory` if memory ran out.
pub fn game_title(alloc: Global, kind: Kind) -> Result<Text, Memory>
    ensures { IfOk result (λ text. text ≡ kind_title kind) }
{
    text_of(alloc, kind_title(kind))
}

/// Puts what a side reaches.
pub(crate) fn put_result(
    out: &mut String,
    kind: Kind,
    side: Side,
    goal: Goal,
) -> Result<(), AllocError>
    ensures { OnOk result
        (string_bytes out.new ≡ string_bytes out.old ++ result_words kind side goal) }
{
    out.push_str(side_name(kind, side))?;
    out.push_str(goal_words(goal))
}

/// What the claim's side reaches at a node.
fn sound_title(alloc: Global, kind: Kind, claim: &Claim, node: u32) -> Result<Text, Memory>
    ensures { IfOk result (λ text. text
        ≡ result_words kind claim.now.side claim.now.goal
        ++ (codes ": position " ++ decimal node)) }
{
    let mut words = String::new(alloc);
    put_result(&mut words, kind, claim.side, claim.goal)?;
    write!(words, ": position {node}")?;
    Ok(Text::from_string(words))
}

/// What is said of an invalid node.
fn faulty_title(alloc: Global, node: u32, why: u8) -> Result<Text, Memory>
    ensures { IfOk result (λ text. text
        ≡ codes "Position " ++ (decimal node ++ (codes ": rejected J" ++ decimal why))) }
{
    Ok(Text::from_string(format!(in alloc; "Position {node}: rejected J{why}")?))
}

/// Returns the title of the node of that number: what the claim's side reaches there; of an invalid
/// node the number of its fault.
///
/// # Errors
///
/// `Memory` if memory ran out.
pub fn node_title(
    alloc: Global,
    kind: Kind,
    claim: &Claim,
    node: u32,
    fault: Option<u8>,
) -> Result<Text, Memory>
    ensures { IfOk result (λ text. text ≡ node_title kind claim.now node fault) }
{
    match fault {
        Some(why) => faulty_title(alloc, node, why),
        None => sound_title(alloc, kind, claim, node),
    }
}
