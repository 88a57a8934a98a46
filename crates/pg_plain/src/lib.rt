//! What tests stand on, and nothing of the product calls: a plain slow program whose contracts are
//! the definitions of games (the value, the class, threat lines, private pairs, what is decided,
//! and what a list of positions settles, each computed as it is defined), and readers of small
//! games and of scripts that tests tell as text.
//!
//! A game is written as `KIND COUNT TURN BIAS:LINES:X:Y`, with commas between lines and spaces
//! between points; a text that goes on after a further `:` says what else the test needs. On a
//! graph COUNT is the number of vertices, the terminals are 0 and 1, and the edges stand in place
//! of the lines.
#![tactic(auto)]

mod best_play;
mod classes;
mod criteria;
mod games;
mod leaves;
mod private_pairs;
mod settling;
mod texts;
mod threat_search;
mod threats;
mod words;

pub use best_play::value;
pub use classes::{Class, class_of};
pub use criteria::{decided, pairs_exist};
pub use games::{field, game, kind, side};
pub use private_pairs::have_private_pairs;
pub use settling::settled;
pub use texts::{Named, folded, lines_of, texts_of, written_out};
pub use threat_search::{attack_wins, has_threat_line};
pub use threats::is_threat_line;
pub use words::{cut, numbers, pairs, part, set, word};
