//! Words that both kinds of games share.
ghost use Rattle.std.specs.Prelude.{◌≡◌, ◌<◌, ◌++◌, ◌∷◌, [], IfOk, OnOk, decimal};
ghost use Rattle.pg_base.specs.declared.limits.TheConstants.{MAX_MEMBERS};
ghost use Rattle.pg_family_book.specs.Rules.{said_words, set_words, whose};

use pg_base::{Kind, Memory, PointSet, Side};
use pg_captions::{Text, side_name, text_of};
use std::alloc::Global;

/// What a claim says.
pub(crate) fn said_words(
    alloc: Global,
    kind: Kind,
    side: Side,
    turn: Side,
) -> Result<pg_picture::Text, Memory>
    ensures { IfOk result (λ text. text ≡ said_words kind side turn) }
{
    let mut words = String::new(alloc);
    words.push_str(side_name(kind, side))?;
    words.push_str(" wins if ")?;
    words.push_str(side_name(kind, turn))?;
    words.push_str(" moves first. ")?;
    Ok(pg_picture::Text::from_string(words))
}

/// Whose a point is.
pub(crate) fn whose(kind: Kind, x: &PointSet, y: &PointSet, point: u16) -> &'static str
    requires { point < MAX_MEMBERS }
    ensures { result.now ≡ whose kind x.now y.now point }
{
    if x.has(point) {
        side_name(kind, Side::X)
    } else if y.has(point) {
        side_name(kind, Side::Y)
    } else {
        "free"
    }
}

/// Which of two sets a point is in.
pub(crate) fn set_words(first: &PointSet, second: &PointSet, point: u16) -> &'static str
    requires { point < MAX_MEMBERS }
    ensures { result.now ≡ set_words first.now second.now point }
{
    if first.has(point) {
        "first"
    } else if second.has(point) {
        "second"
    } else {
        ""
    }
}

/// Adds a text to a list.
pub(crate) fn put_text(alloc: Global, texts: &mut Vec<Text>, words: &str) -> Result<(), Memory>
    ensures { OnOk result (texts.new.items ≡ texts.old.items ++ words.now ∷ []) }
{
    texts.push(text_of(alloc, words)?)?;
    Ok(())
}

/// Adds a number to a list of texts.
pub(crate) fn put_number(alloc: Global, texts: &mut Vec<Text>, number: u16) -> Result<(), Memory>
    ensures { OnOk result (texts.new.items ≡ texts.old.items ++ decimal number ∷ []) }
{
    let words = Text::from_string(format!(in alloc; "{number}")?);
    texts.push(words)?;
    Ok(())
}
