//! What is asked for.
use crate::budget::Budget;

/// Which game is to be settled, and how.
#[derive(Clone, Copy, Debug)]
pub struct Order<'a> {
    /// The name of the game's file.
    pub game: &'a str,
    /// The name under which the certificate is to be stored.
    pub certificate: &'a str,
    /// How much the finder may use.
    pub budget: Budget,
    /// Whether the certificate is to be folded: a node that is turned or reflected is said as the
    /// image of another.
    pub images: bool,
    /// Whether the result is printed as one line of JSON.
    pub json: bool,
}
