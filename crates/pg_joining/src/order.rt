//! What is asked for.
use pg_settle::Budget;

/// Which certificates are to be joined, and how.
#[derive(Clone, Copy, Debug)]
pub struct JoinOrder<'a> {
    /// The name of the file of the game that was split.
    pub game: &'a str,
    /// The name of the folder with the plan and the certificates.
    pub folder: &'a str,
    /// The name under which the joined certificate is to be stored.
    pub certificate: &'a str,
    /// How many nodes the certificate may have; the other numbers don't count.
    pub budget: Budget,
    /// Whether the certificate is to be folded: a node that is turned or reflected is said as the
    /// image of another.
    pub images: bool,
}
