//! What comes of the runs of a row, in the words of its entries.
use crate::entries::{entry, is_of_a_file, push_shown};
use crate::held::{Held, file, held_files};
use crate::runs::push_run;
use pg_io::Files;
use pg_plain::{Named, cut, written_out};
use std::alloc::{AllocError, Global};
use std::fmt::Write;

/// The calls that fail, by their numbers.
#[derive(Clone, Copy)]
pub(crate) struct Fails<'a> {
    pub(crate) files: &'a [u64],
    pub(crate) console: &'a [u64],
}

/// The files that the row gives, of whose calls these fail.
fn files_of(alloc: Global, texts: &[Named], row: &str, fails: &[u64]) -> Result<Held, AllocError> {
    let mut files = Vec::new(alloc);
    for line in row.lines().skip(1) {
        if let Some(rest) = line.strip_prefix("file ") {
            let (name, told) = cut(rest);
            let text = written_out(alloc, texts, told)?;
            files.push(file(alloc, name, text.as_str())?)?;
        }
    }
    held_files(alloc, files, fails)
}

/// Adds what is left of each file of which something is due.
fn push_files(text: &mut String, due: &str, files: &Held) -> Result<(), AllocError> {
    for line in due.lines() {
        let (word, rest) = cut(line);
        if is_of_a_file(word) {
            let (name, _) = cut(rest);
            let (word, bytes): (&str, &[u8]) = match files.files.bytes_of(name) {
                Some(bytes) => ("holds", bytes),
                None => ("lacks", b""),
            };
            write!(text, "{word} {name} ")?;
            push_shown(text, bytes)?;
            text.push('\n')?;
        }
    }
    Ok(())
}

/// What comes of the runs of a row on these files.
fn came_on(
    alloc: Global,
    texts: &[Named],
    row: &str,
    due: &str,
    files: &mut Held,
    fails: Fails,
) -> Result<String, AllocError> {
    let mut text = String::new(alloc);
    for told in row.split("\nrun ").skip(1) {
        let words = told.lines().next().unwrap_or("");
        let input = written_out(alloc, texts, entry(told, "input").unwrap_or(""))?;
        push_run(
            alloc,
            words,
            files,
            input.as_str(),
            fails.console,
            &mut text,
        )?;
    }
    push_files(&mut text, due, files)?;
    if !fails.files.is_empty() && files.create("more").is_ok() {
        text.push_str("called\n")?;
    }
    Ok(text)
}

/// What comes of the runs of a row where these calls fail: of each its status and its log, and then
/// what is left of the files of which something is due. It says `called` for files or console of
/// which calls were to fail and a further call doesn't.
pub(crate) fn came(
    alloc: Global,
    texts: &[Named],
    row: &str,
    due: &str,
    fails: Fails,
) -> Result<String, AllocError> {
    let mut files = files_of(alloc, texts, row, fails.files)?;
    came_on(alloc, texts, row, due, &mut files, fails)
}
