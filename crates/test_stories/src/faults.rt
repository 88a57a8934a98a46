//! Faults of form: of whole files, and of a line at the places where it may stand, alone and before
//! another fault.
use crate::runs::ran;
use pg_plain::{Named, cut, lines_of, written_out};
use std::alloc::{AllocError, Global};

/// Noughts and crosses, with Breaker in the centre.
const SQUARE: &str = "posgame 1;kind maker-breaker;points 9;line 0 1 2;line 3 4 5;line 6 7 8;\
line 0 3 6;line 1 4 7;line 2 5 8;line 0 4 8;line 2 4 6;y 4;turn x;";

/// A triangle, on which Maker wants to join all vertices.
const TRIANGLE: &str = "posgame-span 1;vertices 3;edge 0 1;edge 1 2;edge 0 2;turn x;";

/// What a text is to be.
#[derive(Clone, Copy)]
enum Kind {
    Game,
    Certificate,
    SpanCertificate,
}

/// Whether a check of a text tells this fault at the line with this number; `none`: it has no fault
/// of form. A game has a faulty certificate after it.
fn is_told(
    alloc: Global,
    kind: Kind,
    fault: &str,
    number: &str,
    text: &str,
) -> Result<bool, AllocError> {
    let (words, game, certificate) = match kind {
        Kind::Game => ("check G C", text, "posgame-cert 9"),
        Kind::Certificate => ("check G C", SQUARE, text),
        Kind::SpanCertificate => ("span check G C", TRIANGLE, text),
    };
    let said = ran(alloc, words, game, certificate)?;
    let said = said.as_str();
    if fault == "none" {
        return Ok(match kind {
            Kind::Game => said == "status 4\nsays certificate C2 line 1;\n",
            _ => {
                said.starts_with("status 0\nsays accepted")
                    || said.starts_with("status 4\nsays rejected")
            }
        });
    }
    let due = match kind {
        Kind::Game => format!(in alloc; "status 3\nsays game {fault} line {number};\n")?,
        _ => format!(in alloc; "status 4\nsays certificate {fault} line {number};\n")?,
    };
    Ok(said == due.as_str())
}

/// Whether a file, or a certificate of a connectivity game, is as is told: `FAULT LINE=TEXT`, or
/// `none=TEXT` where it has no fault of form.
pub(crate) fn is_form_so(
    alloc: Global,
    texts: &[Named],
    told: &str,
    is_span: bool,
) -> Result<bool, AllocError> {
    let (head, text) = told.split_once('=').unwrap_or((told, ""));
    let (fault, number) = cut(head);
    let text = written_out(alloc, texts, text)?;
    let text = text.as_str();
    let is_game = fault.starts_with('G') || fault == "none" && !text.starts_with("posgame-cert");
    let kind = if is_span {
        Kind::SpanCertificate
    } else if is_game {
        Kind::Game
    } else {
        Kind::Certificate
    };
    is_told(alloc, kind, fault, number, text)
}

/// The lines of a text from one number up to another, from 1, each with its line feed.
fn lines(alloc: Global, text: &str, from: u32, to: u32) -> Result<String, AllocError> {
    let mut lines = String::new(alloc);
    let mut number = 0u32;
    for line in text.split('\n') {
        number = number.saturating_add(1);
        if from <= number && number < to {
            lines.push_str(line)?;
            lines.push('\n')?;
        }
    }
    Ok(lines)
}

/// A line with a fault, which may stand before lines of a file.
#[derive(Clone, Copy)]
struct Faulty<'a> {
    kind: Kind,
    fault: &'a str,
    file: &'a str,
    line: &'a str,
}

/// Whether the fault is told at this place, where this stands after the line.
fn is_told_before(
    alloc: Global,
    faulty: Faulty,
    place: &str,
    behind: &str,
) -> Result<bool, AllocError> {
    let before = lines(alloc, faulty.file, 1, place.parse::<u32>().unwrap_or(0))?;
    let line = faulty.line;
    let text = format!(in alloc; "{before}{line}{behind}")?;
    is_told(alloc, faulty.kind, faulty.fault, place, text.as_str())
}

/// Whether the fault is told at each of these places before the other lines of the file, and where
/// the file ends with the line.
fn is_told_at_all(alloc: Global, faulty: Faulty, places: &str) -> Result<bool, AllocError> {
    for place in places.split(' ') {
        let from = place.parse::<u32>().unwrap_or(0);
        let rest = lines(alloc, faulty.file, from, u32::MAX)?;
        let behind = format!(in alloc; "\n{rest}")?;
        let alone = is_told_before(alloc, faulty, place, "")?;
        if !alone || !is_told_before(alloc, faulty, place, behind.as_str())? {
            return Ok(false);
        }
    }
    Ok(true)
}

/// Whether the fault is told at this place before each of these lines.
fn is_told_first(
    alloc: Global,
    faulty: Faulty,
    place: &str,
    others: &str,
) -> Result<bool, AllocError> {
    for line in others.split('\n') {
        let behind = format!(in alloc; "\n{line}")?;
        if !is_told_before(alloc, faulty, place, behind.as_str())? {
            return Ok(false);
        }
    }
    Ok(true)
}

/// Whether a line with a fault is as is told, `FAULT FILE PLACES=LINE`: at each of the places, and
/// at the first of them before each line that stands after in the text of other lines.
pub(crate) fn is_fault_so(alloc: Global, texts: &[Named], told: &str) -> Result<bool, AllocError> {
    let (head, line) = told.split_once('=').unwrap_or((told, ""));
    let (fault, rest) = cut(head);
    let (file, places) = cut(rest);
    let (first, _) = cut(places);
    let (kind, others) = if fault.starts_with('G') {
        (Kind::Game, "other-game-lines")
    } else {
        (Kind::Certificate, "other-certificate-lines")
    };
    let line = written_out(alloc, texts, line)?;
    let faulty = Faulty {
        kind,
        fault,
        file: lines_of(texts, file),
        line: line.as_str(),
    };
    Ok(
        is_told_at_all(alloc, faulty, places)?
            && is_told_first(alloc, faulty, first, lines_of(texts, others))?,
    )
}
