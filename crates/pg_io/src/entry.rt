//! The log of a console, and the answer of a hear.
use crate::text::Text;

/// What was said to a console, or heard from it.
#[derive(Debug, Drop, PartialEq, Eq)]
pub enum Entry {
    /// These bytes were said.
    Said(Text),
    /// A line was heard. Its line feed was taken and isn't among these bytes.
    Heard(Text),
    /// The beginning of a line was taken that is too long for the buffer.
    Skipped(Text),
    /// The input had ended.
    Ended,
}

/// The answer of a hear.
#[derive(Clone, Copy, Debug, PartialEq, Eq)]
pub enum Heard {
    /// A line stands at the front of the buffer. The number is its length, below that of the
    /// buffer.
    Line(usize),
    /// As many bytes were taken as the buffer is long, and no line feed was among them. They are
    /// not to be read from the buffer.
    Long,
    /// No input is left.
    End,
}
