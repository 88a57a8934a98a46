//! Two positions on the same lines, of which the first rests on the second by `weaker`.
use crate::held::{Held, holding};
use crate::runs::logged;
use crate::values::is_won;
use pg_base::Side;
use pg_plain::cut;
use std::alloc::{AllocError, Global};

/// A certificate with this claim, whose root stands after the nodes of a certificate of one claim
/// and rests on the last of them, and the root's number.
fn resting(alloc: Global, solved: &[u8], claim: &str, root: &str) -> Option<(String, u32)> {
    let solved = str::from_utf8(solved).ok()?;
    let (_first, lines) = solved.split_once('\n')?;
    let (_claim, lines) = lines.split_once('\n')?;
    let (count, nodes) = lines.split_once('\n')?;
    let count = count.strip_prefix("nodes ")?.parse::<u32>().ok()?;
    let (last, next) = (count.checked_sub(1)?, count.checked_add(1)?);
    let text = format!(in alloc;
        "posgame-cert 2\nclaim {claim}\nnodes {next}\n{nodes}{root}weaker {last}\n"
    ).ok()?;
    Some((text, count))
}

/// The certificate whose root rests on the last node of what is stored where the other game is
/// solved, and the root's number.
fn rested(
    alloc: Global,
    other: &str,
    claim: &str,
    root: &str,
) -> Result<Option<(String, u32)>, AllocError> {
    let mut files = holding(alloc, other, "")?;
    let _ = logged(alloc, "solve G C", &mut files, "")?;
    let solved = files.files.bytes_of("C").unwrap_or(&[]);
    Ok(resting(alloc, solved, claim, root))
}

/// Whether the certificate is accepted and the side plays to this result, where there is a word for
/// it; or its node is rejected.
fn is_so(
    alloc: Global,
    word: &str,
    claim: &str,
    number: u32,
    files: &mut Held,
) -> Result<bool, AllocError> {
    let checked = logged(alloc, "check G C", files, "")?;
    let due = if word == "rejected" {
        format!(in alloc; "status 4\nsays rejected J13 claim 0 node {number};\n")?
    } else {
        format!(in alloc; "status 0\nsays accepted {claim};\n")?
    };
    if checked.as_str() != due.as_str() {
        return Ok(false);
    }
    match word {
        "maker" => is_won(alloc, Side::X, word, files),
        "breaker" => is_won(alloc, Side::Y, word, files),
        _ => Ok(true),
    }
}

/// Whether two positions are as is told, `WORD CLAIM=FIELD=GAME=OTHER=ROOT`: the root of the claim,
/// which rests on the other position, is rejected, or is accepted and leads to the result. Both
/// games have the lines of the field.
pub(crate) fn is_pair_so(alloc: Global, told: &str) -> Result<bool, AllocError> {
    let mut parts = told.split('=');
    let (word, claim) = cut(parts.next().unwrap_or(""));
    let field = parts.next().unwrap_or("");
    let game = parts.next().unwrap_or("");
    let other = parts.next().unwrap_or("");
    let root = parts.next().unwrap_or("");
    let game = format!(in alloc; "posgame 1;kind maker-breaker;{field};{game};")?;
    let other = format!(in alloc; "posgame 1;kind maker-breaker;{field};{other};")?;
    let Some((text, number)) = rested(alloc, other.as_str(), claim, root)? else {
        return Ok(false);
    };
    let mut files = holding(alloc, game.as_str(), text.as_str())?;
    is_so(alloc, word, claim, number, &mut files)
}
