//! The signs that stand between the two numbers of a word, as bytes.

/// The hyphen, which stands between the points of a pair.
pub const HYPHEN: u8 = b'-';

/// The colon, which stands between a reply's point and its child.
pub(crate) const COLON: u8 = b':';
