//! Files that come in small pieces.
use crate::held::holding;
use crate::runs::logged;
use std::alloc::{AllocError, Global};

/// A run on these words, with its files, and what is due from it.
#[derive(Clone, Copy)]
struct Row<'a> {
    words: &'a str,
    game: &'a str,
    certificate: &'a str,
    due: &'a str,
}

/// Whether the run leaves what is due where the first read of a file gives at most `first` bytes
/// and each other at most `others`.
fn leaves(alloc: Global, row: Row, first: usize, others: usize) -> Result<bool, AllocError> {
    let mut files = holding(alloc, row.game, row.certificate)?;
    files.first = first;
    files.others = others;
    let log = logged(alloc, row.words, &mut files, "")?;
    Ok(log.as_str() == row.due)
}

/// Whether the row holds where both files are cut into two pieces, at any byte, and where they come
/// in pieces of 1 to 64 bytes.
fn holds(alloc: Global, row: Row) -> Result<bool, AllocError> {
    let longest = row.game.len().max(row.certificate.len());
    for size in 1..longest.max(65) {
        let is_so = (size >= longest || leaves(alloc, row, size, 65_536)?)
            && (size >= 65 || leaves(alloc, row, size, size)?);
        if !is_so {
            return Ok(false);
        }
    }
    Ok(true)
}

/// Whether a run is as is told, `WORDS=GAME=CERTIFICATE=STATUS;LINE;`, in whichever pieces its
/// files come.
pub(crate) fn are_pieces_so(alloc: Global, told: &str) -> Result<bool, AllocError> {
    let mut parts = told.split('=');
    let words = parts.next().unwrap_or("");
    let game = parts.next().unwrap_or("");
    let certificate = parts.next().unwrap_or("");
    let (status, line) = parts
        .next()
        .unwrap_or("")
        .split_once(';')
        .unwrap_or(("", ""));
    let due = format!(in alloc; "status {status}\nsays {line}\n")?;
    let row = Row {
        words,
        game,
        certificate,
        due: due.as_str(),
    };
    holds(alloc, row)
}
