//! The version of the program.

/// The version that `--version` and lines of JSON print.
pub const VERSION: &str = "1.1.0";
