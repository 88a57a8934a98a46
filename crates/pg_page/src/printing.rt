//! The text of a page.
ghost use Rattle.std.specs.Prelude.{◌≡◌, ◌++◌, OnOk, IfOk, string_bytes, map};
ghost use Rattle.std.specs.List.{flat_map};
ghost use Rattle.pg_page.specs.Html.{attribute_text, escaped, escaped_byte, page_text, piece_text};
ghost use Rattle.pg_page.specs.Html.{rule_byte, ruled, seen_text};
ghost use Rattle.pg_page.specs.declared.piece.Piece.TheVariants.{Close, Lone, Open, Style};

use crate::attribute::{Attribute, Name};
use crate::piece::Piece;
use crate::tag::{LoneTag, Tag};
use pg_base::Memory;
use std::alloc::{AllocError, Global};

/// What a page begins with.
pub const DOCTYPE: &str = "<!DOCTYPE html>";

/// A byte as it is shown.
fn put_seen(out: &mut String, byte: u8) -> Result<(), AllocError>
    ensures { OnOk result (string_bytes out.new ≡ string_bytes out.old ++ seen_text byte) }
{
    match byte {
        b'\n' => out.push_str("\n"),
        b' '..=b'~' => out.push(byte as char),
        _ => out.push_str("?"),
    }
}

/// A byte of words, as it stands between tags and in values.
fn put_byte(out: &mut String, byte: u8) -> Result<(), AllocError>
    ensures { OnOk result (string_bytes out.new ≡ string_bytes out.old ++ escaped_byte byte) }
{
    match byte {
        b'&' => out.push_str("&amp;"),
        b'<' => out.push_str("&lt;"),
        b'>' => out.push_str("&gt;"),
        b'"' => out.push_str("&quot;"),
        _ => put_seen(out, byte),
    }
}

/// Words as they stand between tags and in values.
fn put_words(out: &mut String, words: &str) -> Result<(), AllocError>
    ensures { OnOk result (string_bytes out.new ≡ string_bytes out.old ++ escaped words.now) }
{
    for byte in words.as_bytes() {
        put_byte(out, *byte)?;
    }
    Ok(())
}

/// A byte of a style sheet.
fn put_rule_byte(out: &mut String, byte: u8) -> Result<(), AllocError>
    ensures { OnOk result (string_bytes out.new ≡ string_bytes out.old ++ rule_byte byte) }
{
    match byte {
        b'&' | b'<' => out.push_str("?"),
        _ => put_seen(out, byte),
    }
}

/// The rules of a style sheet.
fn put_rules(out: &mut String, rules: &str) -> Result<(), AllocError>
    ensures { OnOk result (string_bytes out.new ≡ string_bytes out.old ++ ruled rules.now) }
{
    for byte in rules.as_bytes() {
        put_rule_byte(out, *byte)?;
    }
    Ok(())
}

/// An attribute.
#[tactic(auto, unfolding(crate::specs::Html::attribute_text))]
fn put_attribute(out: &mut String, attribute: &Attribute) -> Result<(), AllocError>
    ensures { OnOk result
        (string_bytes out.new ≡ string_bytes out.old ++ attribute_text attribute.now) }
{
    out.push_str(" ")?;
    out.push_str(attribute.name.word())?;
    out.push_str("=\"")?;
    out.push_str(attribute.name.lead())?;
    put_words(out, attribute.value.as_str())?;
    out.push_str("\"")?;
    Ok(())
}

/// Attributes in order.
fn put_attributes(out: &mut String, attributes: &[Attribute]) -> Result<(), AllocError>
    ensures { OnOk result
        (string_bytes out.new ≡ string_bytes out.old ++ flat_map attribute_text attributes.now) }
{
    for attribute in attributes {
        put_attribute(out, attribute)?;
    }
    Ok(())
}

/// A tag that opens.
fn put_open(out: &mut String, tag: Tag, attributes: &[Attribute]) -> Result<(), AllocError>
    ensures { OnOk result
        (string_bytes out.new ≡ string_bytes out.old ++ piece_text (Open tag attributes.now)) }
{
    out.push_str("<")?;
    out.push_str(tag.name())?;
    put_attributes(out, attributes)?;
    out.push_str(">")?;
    Ok(())
}

/// A tag that is closed at once.
fn put_lone(out: &mut String, tag: LoneTag, attributes: &[Attribute]) -> Result<(), AllocError>
    ensures { OnOk result
        (string_bytes out.new ≡ string_bytes out.old ++ piece_text (Lone tag attributes.now)) }
{
    out.push_str("<")?;
    out.push_str(tag.name())?;
    put_attributes(out, attributes)?;
    out.push_str("/>")?;
    Ok(())
}

/// A tag that closes.
fn put_close(out: &mut String, tag: Tag) -> Result<(), AllocError>
    ensures { OnOk result (string_bytes out.new ≡ string_bytes out.old ++ piece_text (Close tag)) }
{
    out.push_str("</")?;
    out.push_str(tag.name())?;
    out.push_str(">")?;
    Ok(())
}

/// A style sheet.
fn put_style(out: &mut String, rules: &str) -> Result<(), AllocError>
    ensures { OnOk result
        (string_bytes out.new ≡ string_bytes out.old ++ piece_text (Style rules.now)) }
{
    out.push_str("<style>")?;
    put_rules(out, rules)?;
    out.push_str("</style>")?;
    Ok(())
}

/// A piece.
fn put_piece(out: &mut String, piece: &Piece) -> Result<(), AllocError>
    ensures { OnOk result (string_bytes out.new ≡ string_bytes out.old ++ piece_text piece.now) }
{
    match piece {
        Piece::Open { tag, attributes } => put_open(out, *tag, attributes.as_slice()),
        Piece::Lone { tag, attributes } => put_lone(out, *tag, attributes.as_slice()),
        Piece::Close { tag } => put_close(out, *tag),
        Piece::Words { words } => put_words(out, words.as_str()),
        Piece::Style { rules } => put_style(out, rules.as_str()),
    }
}

/// Pieces in order.
fn put_pieces(out: &mut String, pieces: &[Piece]) -> Result<(), AllocError>
    ensures { OnOk result
        (string_bytes out.new ≡ string_bytes out.old ++ flat_map piece_text pieces.now) }
{
    for piece in pieces {
        put_piece(out, piece)?;
    }
    Ok(())
}

/// Returns the text of a page: HTML in ASCII. A byte of its words that is neither a line feed nor
/// printable in ASCII becomes a question mark, and so do `&` and `<` in a style sheet.
///
/// # Errors
///
/// `Memory` if no memory is found.
pub fn print_page(alloc: Global, pieces: &[Piece]) -> Result<String, Memory>
    ensures { IfOk result (λ text. string_bytes text ≡ page_text pieces.now) }
{
    let mut out = String::new(alloc);
    out.push_str(DOCTYPE)?;
    put_pieces(&mut out, pieces)?;
    Ok(out)
}
