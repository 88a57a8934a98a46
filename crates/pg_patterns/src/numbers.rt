//! Proof and disproof numbers.

/// How hard it seems that a side wins: the greater a number, the harder. The number is 0 for a side
/// that wins.
#[derive(Clone, Copy, Debug, PartialEq, Eq)]
pub struct Numbers {
    /// For the side to move.
    pub mover: u32,
    /// For the other side.
    pub waiter: u32,
}
