//! The signs that part the texts of all formats, as bytes.

/// The line feed, which ends a line.
pub const LINE_FEED: u8 = b'\n';

/// The space, which stands between words.
pub const SPACE: u8 = b' ';

/// The bar, which stands between fields.
pub const BAR: u8 = b'|';
