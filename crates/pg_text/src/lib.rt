//! What text formats share: lines and words, numbers, the faults of a line in order, and the errors
//! of their readers.
#![tactic(auto)]

mod ascending;
mod by_line;
mod by_word;
mod error;
mod numbers;
mod parts;

pub use ascending::ascend;
pub use by_line::Lines;
pub use by_word::{Words, word_list};
pub use error::{FileError, LineError, Numbered};
pub use numbers::{MAX_DIGITS, is_digits, number, number_list};
pub use parts::{cut_at, first_word, four_parts, has_sign, two_parts};
