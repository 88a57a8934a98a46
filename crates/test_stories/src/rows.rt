//! What is said of a row.
use crate::came::{Fails, came};
use crate::due::{Reach, WHOLE, due, is_so};
use crate::entries::{entry, stray};
use crate::replies::first_wrong_play;
use pg_plain::Named;
use std::alloc::{AllocError, Global};

/// What comes of the row where these calls fail, unless it is as due.
fn wrong(
    alloc: Global,
    texts: &[Named],
    row: &str,
    fails: Fails,
    reach: Reach,
) -> Result<Option<String>, AllocError> {
    let due = due(alloc, texts, row, reach)?;
    let came = came(alloc, texts, row, due.as_str(), fails)?;
    Ok(if is_so(due.as_str(), came.as_str()) {
        None
    } else {
        Some(came)
    })
}

/// What comes of the row, the first time that it isn't as due, where each of its calls fails in
/// turn, and where the next call fails that no run makes.
///
/// With each call fails the one that the run would make next of the same kind. So whoever calls a
/// second time where one call has failed, or makes more calls or fewer, is told by `called`.
fn first_wrong_call(
    alloc: Global,
    texts: &[Named],
    row: &str,
    calls: &str,
) -> Result<Option<String>, AllocError> {
    let mut files = 0u64;
    let mut console = 0u64;
    let mut stored = 0u64;
    for call in calls.split_whitespace() {
        let is_of_console = matches!(call, "say" | "hear");
        let reads = matches!(call, "open" | "read" | "hear");
        let reach = Reach {
            status: Some(if reads { 5 } else { 6 }),
            entries: console,
            stored,
        };
        let next_files = files.saturating_add(u64::from(!is_of_console));
        let next_console = console.saturating_add(u64::from(is_of_console));
        let fails = Fails {
            files: &[files, next_files],
            console: &[console, next_console],
        };
        let wrong = wrong(alloc, texts, row, fails, reach)?;
        if wrong.is_some() {
            return Ok(wrong);
        }
        files = next_files;
        console = next_console;
        stored = stored.saturating_add(u64::from(call == "finish"));
    }
    let fails = Fails {
        files: &[files],
        console: &[console],
    };
    wrong(alloc, texts, row, fails, WHOLE)
}

/// What comes of the row, the first time that it isn't as due. A row with replies is played against
/// every list of them.
fn first_wrong(alloc: Global, texts: &[Named], row: &str) -> Result<Option<String>, AllocError> {
    if let Some(told) = entry(row, "replies") {
        return first_wrong_play(alloc, texts, row, told);
    }
    let none = Fails {
        files: &[],
        console: &[],
    };
    let wrong = wrong(alloc, texts, row, none, WHOLE)?;
    if wrong.is_some() {
        return Ok(wrong);
    }
    match entry(row, "calls") {
        Some(calls) => first_wrong_call(alloc, texts, row, calls),
        None => Ok(None),
    }
}

/// `ok` and the name of the row; or `differs`, the name and what came.
pub(crate) fn answer(alloc: Global, texts: &[Named], row: &str) -> Result<String, AllocError> {
    let name = row.lines().next().unwrap_or("");
    if let Some(line) = stray(row) {
        return format!(in alloc; "differs {name}: {line}");
    }
    match first_wrong(alloc, texts, row)? {
        None => format!(in alloc; "ok {name}"),
        Some(came) => format!(in alloc; "differs {name}\n{came}"),
    }
}
