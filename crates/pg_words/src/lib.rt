//! What the words of the command line mean.
#![tactic(auto)]

mod command;
mod family;
mod key;
mod matching;
mod number;
mod order;
mod reading;
mod source;
mod table;

pub use command::Command;
pub use family::{Family, FamilyTask};
pub use reading::meaning;
pub use source::Source;
