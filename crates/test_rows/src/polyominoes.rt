//! Placements of polyominoes.
use pg_base::{Grid, Lines, Memory};
use pg_plain::{part, word};
use pg_poly::{Shape, placements};
use std::alloc::Global;

/// The boards of the table, by width and height.
const BOARDS: [(u16, u16); 9] = [
    (4, 4),
    (4, 5),
    (4, 6),
    (5, 4),
    (5, 5),
    (5, 6),
    (6, 4),
    (6, 5),
    (6, 6),
];

/// The placements of a word in a grid of at most 256 cells.
fn placed_in(alloc: Global, width: u16, height: u16, word: &str) -> Option<Lines> {
    if u32::from(width) * u32::from(height) > 256 {
        return None;
    }
    let shape = Shape::read(alloc, word.as_bytes()).ok()?;
    placements(alloc, Grid { width, height }, &shape).ok()
}

/// How many placements a word has in a grid.
fn count(alloc: Global, width: u16, height: u16, word: &str) -> Option<usize> {
    Some(placed_in(alloc, width, height, word)?.as_slice().len())
}

/// The counts of a word on all boards, with commas between them.
fn counted(alloc: Global, word: &str) -> Result<String, Memory> {
    let mut text = String::new(alloc);
    for (width, height) in BOARDS {
        if !text.is_empty() {
            text.push(',')?;
        }
        match count(alloc, width, height, word) {
            Some(n) => text.push_str(&format!(in alloc; "{n}")?)?,
            None => text.push('?')?,
        }
    }
    Ok(text)
}

/// The placements of a word in a grid, one after the other.
fn listed(alloc: Global, width: u16, height: u16, word: &str) -> Result<String, Memory> {
    let Some(lines) = placed_in(alloc, width, height, word) else {
        return Ok(String::from_str(alloc, "none")?);
    };
    let mut text = String::new(alloc);
    for line in lines.as_slice() {
        text.push_str(&format!(in alloc; "{:?}", line.as_slice())?)?;
    }
    Ok(text)
}

/// Whether the word of the row has as many placements on each board as the row tells.
fn has_counts(alloc: Global, row: &str) -> Option<bool> {
    Some(counted(alloc, part(row, 0)).ok()?.as_str() == part(row, 1))
}

/// Whether the word of the row has the placements that the row tells, or as many as it tells.
fn has_placements(alloc: Global, row: &str) -> Option<bool> {
    let head = part(row, 0);
    let width = word(head, 0).parse::<u16>().ok()?;
    let height = word(head, 1).parse::<u16>().ok()?;
    match part(row, 1).parse::<usize>() {
        Ok(due) => Some(count(alloc, width, height, word(head, 2)) == Some(due)),
        Err(_) => {
            let listed = listed(alloc, width, height, word(head, 2)).ok()?;
            Some(listed.as_str() == part(row, 1))
        }
    }
}

/// Whether the row is as it tells, of the question that the word names; None where it names none,
/// the row can't be read, or no memory is found.
pub(crate) fn is_so(alloc: Global, question: &str, row: &str) -> Option<bool> {
    match question {
        // how many placements a polyomino has on small boards.
        "counts" => has_counts(alloc, row),
        // which placements it has on a board, or how many.
        "placements" => has_placements(alloc, row),
        _ => None,
    }
}
