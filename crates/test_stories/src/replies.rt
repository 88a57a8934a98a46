//! Plays against every list of replies.
use crate::came::{Fails, came};
use pg_plain::{Named, cut};
use std::alloc::{AllocError, Global};
use std::fmt::Write;

/// How far a play with certain replies comes.
#[derive(Drop)]
enum Ending {
    /// One of them was refused.
    Refused,
    /// It goes on.
    Open,
    /// It came to its end with the result that is due.
    Won,
    /// It came to another end.
    Lost(String),
}

/// The play of the row's run with these replies, which is to end with this winner.
fn play(
    alloc: Global,
    texts: &[Named],
    row: &str,
    replies: &[u16],
    winner: &str,
) -> Result<Ending, AllocError> {
    let mut told = format!(in alloc; "{row}\ninput ")?;
    for reply in replies {
        write!(told, "{reply};")?;
    }
    let none = Fails {
        files: &[],
        console: &[],
    };
    let came = came(alloc, texts, told.as_str(), "", none)?;
    let due = format!(in alloc; "says result {winner};")?;
    if came.as_str().contains("says refused") {
        Ok(Ending::Refused)
    } else if came.as_str().starts_with("status 8\n") {
        Ok(Ending::Open)
    } else if came.as_str().starts_with("status 0\n") && came.as_str().contains(due.as_str()) {
        Ok(Ending::Won)
    } else {
        Ok(Ending::Lost(came))
    }
}

/// Goes on to the next list of replies after all that begin so; false where there is none.
fn raise(replies: &mut Vec<u16>, points: u16) -> Result<bool, AllocError> {
    for _reply in 0..replies.len() {
        let Some(last) = replies.pop() else {
            return Ok(false);
        };
        let next = last.saturating_add(1);
        if next < points {
            replies.push(next)?;
            return Ok(true);
        }
    }
    Ok(false)
}

/// What comes of the first play of the row's run that isn't as due, of the plays against every list
/// of replies, or that no play ends at all. The entry says how many points there are and who is to
/// win.
pub(crate) fn first_wrong_play(
    alloc: Global,
    texts: &[Named],
    row: &str,
    told: &str,
) -> Result<Option<String>, AllocError> {
    let (points, winner) = cut(told);
    let Ok(points) = points.parse::<u16>() else {
        return Ok(Some(String::from_str(alloc, "replies below what number?")?));
    };
    let mut replies = Vec::new(alloc);
    let mut won = false;
    for _play in 0..u32::MAX {
        let goes_on = match play(alloc, texts, row, &replies, winner)? {
            Ending::Lost(came) => return Ok(Some(came)),
            Ending::Open => {
                replies.push(0)?;
                true
            }
            Ending::Won => {
                won = true;
                raise(&mut replies, points)?
            }
            Ending::Refused => raise(&mut replies, points)?,
        };
        if !goes_on {
            break;
        }
    }
    if won {
        return Ok(None);
    }
    Ok(Some(String::from_str(alloc, "no play ends")?))
}
