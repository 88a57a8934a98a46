//! What is due from the runs of a row, in the words of its entries.
use crate::entries::{is_logged, is_of_a_file, of_file, push_shown};
use pg_plain::{Named, cut, written_out};
use std::alloc::{AllocError, Global};
use std::fmt::Write;

/// How far a run comes: its status where a call fails, how many entries its log has at most, and
/// how many of the files of which the row tells are stored.
#[derive(Clone, Copy)]
pub(crate) struct Reach {
    pub(crate) status: Option<u8>,
    pub(crate) entries: u64,
    pub(crate) stored: u64,
}

/// To the end.
pub(crate) const WHOLE: Reach = Reach {
    status: None,
    entries: u64::MAX,
    stored: u64::MAX,
};

/// Adds a line: a word, and a text that is told, with a line feed of its own where it is said
/// whole.
fn push_told(
    alloc: Global,
    texts: &[Named],
    word: &str,
    told: &str,
    text: &mut String,
) -> Result<(), AllocError> {
    let value = written_out(alloc, texts, told)?;
    text.push_str(word)?;
    text.push(' ')?;
    push_shown(text, value.as_bytes())?;
    text.push_str(if word == "says" { ";\n" } else { "\n" })
}

/// Adds two entries of a log once more, as often as is told.
fn push_again(
    alloc: Global,
    texts: &[Named],
    entries: (&str, &str),
    count: &str,
    text: &mut String,
) -> Result<(), AllocError> {
    for _ in 0..count.parse::<u32>().unwrap_or(0) {
        let (word, rest) = cut(entries.0);
        push_told(alloc, texts, word, rest, text)?;
        let (word, rest) = cut(entries.1);
        push_told(alloc, texts, word, rest, text)?;
    }
    Ok(())
}

/// Adds the status and the log that are due from a run.
fn push_run(
    alloc: Global,
    texts: &[Named],
    told: &str,
    reach: Reach,
    text: &mut String,
) -> Result<(), AllocError> {
    let mut left = reach.entries;
    let mut latest = ("", "");
    for line in told.lines().skip(1) {
        let (word, rest) = cut(line);
        if word == "status" {
            match reach.status {
                Some(status) => write!(text, "status {status}\n")?,
                None => write!(text, "status {rest}\n")?,
            }
        } else if word == "repeat" {
            push_again(alloc, texts, latest, rest, text)?;
        } else if is_logged(word) && left > 0 {
            left -= 1;
            latest = (latest.1, line);
            push_told(alloc, texts, word, rest, text)?;
        }
    }
    Ok(())
}

/// Whether the line gives a file of which no other entry of the row tells.
fn is_kept(row: &str, word: &str, name: &str) -> bool {
    word == "file"
        && of_file(row, "holds", name).is_none()
        && of_file(row, "starts", name).is_none()
        && of_file(row, "lacks", name).is_none()
}

/// Adds what is to be left of each file of which the row tells: what is stored where the run comes
/// so far, or else what the row gives.
fn push_files(
    alloc: Global,
    texts: &[Named],
    row: &str,
    reach: Reach,
    text: &mut String,
) -> Result<(), AllocError> {
    let mut left = reach.stored;
    for line in row.lines().skip(1) {
        let (word, rest) = cut(line);
        let (name, told) = cut(rest);
        let is_stored = is_of_a_file(word) && left > 0;
        if is_of_a_file(word) || is_kept(row, word, name) {
            let (word, told) = if is_stored {
                (word, told)
            } else if let Some(given) = of_file(row, "file", name) {
                ("holds", given)
            } else {
                ("lacks", "")
            };
            left = left.saturating_sub(u64::from(is_stored));
            write!(text, "{word} {name}")?;
            push_told(alloc, texts, "", told, text)?;
        }
    }
    Ok(())
}

/// What is due from a row of which the runs come so far.
pub(crate) fn due(
    alloc: Global,
    texts: &[Named],
    row: &str,
    reach: Reach,
) -> Result<String, AllocError> {
    let mut text = String::new(alloc);
    for told in row.split("\nrun ").skip(1) {
        push_run(alloc, texts, told, reach, &mut text)?;
    }
    push_files(alloc, texts, row, reach, &mut text)?;
    Ok(text)
}

/// Whether what came is as due, line by line. Of a line that is due as `begins` or `starts` the
/// beginning is told alone.
pub(crate) fn is_so(due: &str, came: &str) -> bool {
    let mut lines = came.lines();
    for line in due.lines() {
        let Some(came) = lines.next() else {
            return false;
        };
        let (word, text) = cut(line);
        let (came_word, came_text) = cut(came);
        let is_line_so = match word {
            "begins" => came_word == "says" && came_text.starts_with(text),
            "starts" => came_word == "holds" && came_text.starts_with(text),
            _ => line == came,
        };
        if !is_line_so {
            return false;
        }
    }
    lines.next().is_none()
}
