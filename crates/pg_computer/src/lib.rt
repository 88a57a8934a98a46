//! A game of a person against the program at one terminal: the program plays one side by a search
//! within a budget, and says of each of its points whether it is proved to keep the value.
#![tactic(auto)]

mod choice;
mod choosing;
mod copying;
mod moving;
mod playing;
mod points;
mod words;

pub use choice::Choice;
pub use playing::{VersusOrder, versus};
