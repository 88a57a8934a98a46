//! The texts of games.
ghost use Rattle.std.specs.Prelude.{◌≡◌, ◌+◌, ◌%◌, ◌++◌, [], ◌∷◌, OnOk, IfOk, string_bytes};
ghost use Rattle.pg_family_files.specs.Prelude.{flat_map, spelled};
ghost use Rattle.pg_family_files.specs.Print.{header, worded, signs_of, vector_words, printed_span};
ghost use Rattle.pg_family_files.specs.Print.{printed_vectors};

use crate::family::{Family, Key};
use pg_base::Memory;
use pg_files::{put_edges, put_last, put_numbers};
use pg_gf2::VecGame;
use pg_span::SpanGame;
use std::alloc::{AllocError, Global};
use std::fmt::Write;

/// The first line.
fn put_header(out: &mut String, family: Family) -> Result<(), AllocError>
    ensures { OnOk result (string_bytes out.new ≡ string_bytes out.old ++ spelled (header family)) }
{
    let word = family.header();
    write!(out, "{word} 1\n")?;
    Ok(())
}

/// The sign of the lowest bit.
fn lowest_sign(vector: u128) -> &'static str
    ensures { result.now ≡ (48 + vector % 2) ∷ [] }
{
    if vector % 2 == 1 { "1" } else { "0" }
}

/// The signs of a vector, the lowest bit first.
fn put_signs(out: &mut String, rows: u8, vector: u128) -> Result<(), AllocError>
    ensures { OnOk result (string_bytes out.new ≡ string_bytes out.old ++ signs_of rows vector) }
{
    let mut rest = vector;
    for _row in 0..rows {
        out.push_str(lowest_sign(rest))?;
        rest /= 2;
    }
    Ok(())
}

/// A line of a key and a vector.
fn put_vector(out: &mut String, key: Key, rows: u8, vector: u128) -> Result<(), AllocError>
    ensures { OnOk result
        (string_bytes out.new
        ≡ string_bytes out.old ++ spelled (worded key (signs_of rows vector))) }
{
    let name = key.name();
    write!(out, "{name} ")?;
    put_signs(out, rows, vector)?;
    out.push_str("\n")?;
    Ok(())
}

/// The vectors of a game.
fn put_vectors(out: &mut String, rows: u8, vectors: &[u128]) -> Result<(), AllocError>
    ensures { OnOk result
        (string_bytes out.new
        ≡ string_bytes out.old ++ flat_map (λ v. spelled (vector_words rows v)) vectors.now) }
{
    for vector in vectors {
        put_vector(out, Key::Vector, rows, *vector)?;
    }
    Ok(())
}

/// The text of a connectivity game: reading it gives the game back.
///
/// The marks of each side stand in ascending order, and a side without marks has no line.
#[tactic(auto, unfolding(crate::specs::Print::printed_span))]
pub fn print_span(alloc: Global, g: &SpanGame) -> Result<Vec<u8>, Memory>
    ensures { IfOk result (λ text. text.items ≡ printed_span g.now) }
{
    let mut out = String::new(alloc);
    put_header(&mut out, Family::Connectivity)?;
    put_numbers(&mut out, Key::Vertices.name(), &[g.graph.vertices])?;
    put_edges(&mut out, g.graph.ends.as_slice())?;
    put_last(alloc, &mut out, &g.x, &g.y, g.turn)?;
    Ok(out.into_bytes())
}

/// The text of a game on vectors: reading it gives the game back.
///
/// The first sign of a vector is row 0, which is the lowest bit. The marks of each side stand in
/// ascending order, and a side without marks has no line.
#[tactic(auto, unfolding(crate::specs::Print::printed_vectors))]
pub fn print_vectors(alloc: Global, g: &VecGame) -> Result<Vec<u8>, Memory>
    ensures { IfOk result (λ text. text.items ≡ printed_vectors g.now) }
{
    let mut out = String::new(alloc);
    put_header(&mut out, Family::Vectors)?;
    put_numbers(&mut out, Key::Rows.name(), &[u16::from(g.rows)])?;
    put_vector(&mut out, Key::Target, g.rows, g.target)?;
    put_vectors(&mut out, g.rows, g.vectors.as_slice())?;
    put_last(alloc, &mut out, &g.x, &g.y, g.turn)?;
    Ok(out.into_bytes())
}
