//! What is known of a position by itself, and what is needed.

use crate::span::Span;

/// Why the certificate of a position doesn't count.
#[derive(Clone, Copy, Debug, PartialEq, Eq, PartialOrd, Ord, Hash)]
pub enum Lack {
    /// There is none, or it can't be read.
    Missing,
    /// It isn't a certificate.
    Faulty,
    /// It isn't valid for the position.
    Foreign,
    /// It leaves the value open.
    Open,
}

/// What is known of a position by itself.
#[derive(Clone, Copy, Debug, PartialEq, Eq)]
pub enum Own {
    /// Nothing: no file says it, or no way leads to it.
    Nothing,
    /// Nothing, since its certificate doesn't count.
    Lacks(Lack),
    /// So much of its value.
    Says(Span),
}

/// A position that can still matter, and whose value isn't known.
#[derive(Clone, Copy, Debug, PartialEq, Eq, PartialOrd, Ord, Hash)]
pub struct Need {
    /// How many alternatives that can matter come before those on the best way to it.
    pub lag: u32,
    /// The number of its game file.
    pub file: u32,
    /// Why its certificate doesn't count.
    pub lack: Lack,
}
