//! The codes of faults.

/// The code of a fault, as a report says it: a letter that tells whose fault it is, and the number
/// that its table gives it.
#[derive(Clone, Copy, Debug, PartialEq, Eq)]
pub enum Code {
    /// A fault that the checker finds at a node, such as `J6`.
    Node(u8),
    /// A fault of a turned or reflected node, or of a claim that has too many nodes once such nodes
    /// are unfolded, such as `I3`.
    Image(u8),
}
