//! What the crates tell of a small game of the further families: it is written as a file, read and
//! solved, and what shows the class of a connectivity game is checked.
use crate::families::{Family, ends_of};
use pg_base::Memory;
use pg_family_files::{read_span, read_vectors};
use pg_gf2::vec_classify;
use pg_plain::Class;
use pg_span::{SpanClass, span_check, span_solve};
use std::alloc::{AllocError, Global};
use std::fmt::Write;

/// Adds three signs, of which the first is the lowest digit, after a key.
fn push_vector(text: &mut String, key: &str, vector: u32) -> Result<(), AllocError> {
    let (first, second, third) = (vector & 1, vector >> 1 & 1, vector >> 2 & 1);
    write!(text, "{key} {first}{second}{third}\n")
}

/// Adds the line of a side's marks, which are the binary digits of a number.
fn push_marks(text: &mut String, key: &str, marks: u32) -> Result<(), AllocError> {
    if marks == 0 {
        return Ok(());
    }
    text.push_str(key)?;
    for v in 0..16u32 {
        if marks >> v & 1 == 1 {
            write!(text, " {v}")?;
        }
    }
    text.push('\n')
}

/// The text of a game's file.
pub(crate) fn text_of(
    alloc: Global,
    family: Family,
    list: &[u32],
    x: u32,
    y: u32,
) -> Result<String, AllocError> {
    let mut text = String::new(alloc);
    match family {
        Family::Vectors { target } => {
            text.push_str("posgame-vectors 1\nrows 3\n")?;
            push_vector(&mut text, "target", target)?;
        }
        Family::Switching { vertices } | Family::Connectivity { vertices } => {
            write!(text, "posgame-span 1\nvertices {vertices}\n")?;
        }
    }
    for number in list {
        if let Family::Vectors { .. } = family {
            push_vector(&mut text, "vector", *number)?;
        } else {
            let (u, v) = ends_of(*number);
            write!(text, "edge {u} {v}\n")?;
        }
    }
    push_marks(&mut text, "x", x)?;
    push_marks(&mut text, "y", y)?;
    text.push_str("turn x\n")?;
    Ok(text)
}

/// The class of the connectivity game, and None where it isn't read, or its certificate isn't
/// accepted.
pub(crate) fn span_told(alloc: Global, text: &str) -> Result<Option<Class>, Memory> {
    let Ok(g) = read_span(alloc, text.as_bytes()) else {
        return Ok(None);
    };
    let (class, certificate) = span_solve(alloc, &g)?;
    if certificate.claims.as_slice().len() > 8 || span_check(alloc, &g, &certificate).is_err() {
        return Ok(None);
    }
    Ok(Some(match class {
        SpanClass::Maker => Class::Short,
        SpanClass::Breaker => Class::Cut,
        SpanClass::First => Class::First,
    }))
}

/// The class of the game on vectors, and None where it isn't read.
pub(crate) fn vectors_told(alloc: Global, text: &str) -> Result<Option<Class>, Memory> {
    let Ok(g) = read_vectors(alloc, text.as_bytes()) else {
        return Ok(None);
    };
    Ok(Some(match vec_classify(alloc, &g)? {
        pg_lehman::Class::Short { .. } => Class::Short,
        pg_lehman::Class::Cut { .. } => Class::Cut,
        pg_lehman::Class::First { .. } => Class::First,
    }))
}
