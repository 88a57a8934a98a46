//! The entries of a row, a line each: a word, and what stands after it. The first line of a row is
//! its name.
use pg_plain::cut;
use std::alloc::AllocError;

/// What stands after the word in the first of the entries that begins with it.
pub(crate) fn entry<'a>(entries: &'a str, word: &str) -> Option<&'a str> {
    for line in entries.lines().skip(1) {
        let (first, rest) = cut(line);
        if first == word {
            return Some(rest);
        }
    }
    None
}

/// The text in the first entry of the row that begins with the word and the name of the file.
pub(crate) fn of_file<'a>(row: &'a str, word: &str, name: &str) -> Option<&'a str> {
    for line in row.lines().skip(1) {
        let (first, rest) = cut(line);
        let (file, told) = cut(rest);
        if first == word && file == name {
            return Some(told);
        }
    }
    None
}

/// Whether the word begins an entry of the log.
pub(crate) fn is_logged(word: &str) -> bool {
    matches!(word, "says" | "begins" | "hears" | "skips" | "ended")
}

/// Whether the word begins an entry that says what is left of a file.
pub(crate) fn is_of_a_file(word: &str) -> bool {
    matches!(word, "holds" | "starts" | "lacks")
}

/// The first entry of the row that begins with no word which it may have.
pub(crate) fn stray(row: &str) -> Option<&str> {
    for line in row.lines().skip(1) {
        let (word, _) = cut(line);
        let is_known = is_logged(word)
            || is_of_a_file(word)
            || matches!(
                word,
                "file" | "run" | "input" | "status" | "calls" | "repeat" | "replies" | "text"
            );
        if !is_known {
            return Some(line);
        }
    }
    None
}

/// Adds the bytes as signs, with `;` for each line feed.
pub(crate) fn push_shown(text: &mut String, bytes: &[u8]) -> Result<(), AllocError> {
    for byte in bytes {
        match *byte {
            b'\n' => text.push(';')?,
            b';' => text.push_str("\\;")?,
            byte => text.push(char::from(byte))?,
        }
    }
    Ok(())
}
