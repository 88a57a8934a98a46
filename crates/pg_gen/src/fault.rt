//! Why a game can't be made.

/// Why a game can't be made from numbers.
#[derive(Clone, Copy, Debug, PartialEq, Eq)]
pub enum GenFault {
    /// A number is outside its range.
    Range,
    /// No memory is left.
    Memory,
}
