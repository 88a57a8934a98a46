//! Single runs.
use crate::entries::push_shown;
use crate::held::holding;
use pg_cli::run;
use pg_io::{Console, Entry, Files, MemConsole, Text};
use pg_pns::Work;
use std::alloc::{AllocError, Global};
use std::fmt::Write;

/// The words, which are split at spaces; `<>` is the empty word.
fn words_of(alloc: Global, words: &str) -> Result<Vec<String>, AllocError> {
    let mut list = Vec::new(alloc);
    for word in words.split_whitespace() {
        let word = if word == "<>" { "" } else { word };
        list.push(String::from_str(alloc, word)?)?;
    }
    Ok(list)
}

/// The status of a run on these words.
pub(crate) fn status_of<F: Files, C: Console>(
    alloc: Global,
    words: &str,
    files: &mut F,
    console: &mut C,
) -> Result<u8, AllocError> {
    let words = words_of(alloc, words)?;
    let mut work = Work::new(alloc);
    Ok(run(alloc, &words, files, console, &mut work))
}

/// Adds the status of a run, and what it says and hears; and `called` where calls of the console
/// were to fail and a further call doesn't.
fn push_run_on<F: Files>(
    alloc: Global,
    words: &str,
    files: &mut F,
    console: &mut MemConsole,
    is_failing: bool,
    text: &mut String,
) -> Result<(), AllocError> {
    let status = status_of(alloc, words, files, console)?;
    write!(text, "status {status}\n")?;
    for entry in console.entries() {
        let (word, bytes): (&str, &[u8]) = match entry {
            Entry::Said(said) => ("says ", said.as_slice()),
            Entry::Heard(heard) => ("hears ", heard.as_slice()),
            Entry::Skipped(skipped) => ("skips ", skipped.as_slice()),
            Entry::Ended => ("ended ", b""),
        };
        text.push_str(word)?;
        push_shown(text, bytes)?;
        text.push('\n')?;
    }
    if is_failing && console.say(b"more").is_ok() {
        text.push_str("called\n")?;
    }
    Ok(())
}

/// Adds the status and the log of a run on these words, where the console has this input, and its
/// calls with these numbers fail.
pub(crate) fn push_run<F: Files>(
    alloc: Global,
    words: &str,
    files: &mut F,
    input: &str,
    fails: &[u64],
    text: &mut String,
) -> Result<(), AllocError> {
    let input = Text::from_vec(input.as_bytes().to_vec(alloc)?);
    let mut console = MemConsole::new(alloc, input, fails.to_vec(alloc)?);
    push_run_on(alloc, words, files, &mut console, !fails.is_empty(), text)
}

/// The status and the log of a run on these words, where no call fails.
pub(crate) fn logged<F: Files>(
    alloc: Global,
    words: &str,
    files: &mut F,
    input: &str,
) -> Result<String, AllocError> {
    let mut log = String::new(alloc);
    push_run(alloc, words, files, input, &[], &mut log)?;
    Ok(log)
}

/// The status and the log of a run on these words, where G is the game and C the certificate.
pub(crate) fn ran(
    alloc: Global,
    words: &str,
    game: &str,
    certificate: &str,
) -> Result<String, AllocError> {
    let mut files = holding(alloc, game, certificate)?;
    logged(alloc, words, &mut files, "")
}
