//! Words for answers.

/// Whether the word says whether something holds.
pub(crate) fn is_said(holds: bool, due: &str) -> bool {
    due == if holds { "yes" } else { "no" }
}

/// Whether the number that was found, if there is one, is that of the word.
pub(crate) fn is_found(found: Option<u16>, due: &str) -> bool {
    match found {
        Some(k) => due.parse::<u16>() == Ok(k),
        None => due == "none",
    }
}
