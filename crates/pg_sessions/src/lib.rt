//! Recorded games: the command that records a session over a console, and the one that finds which
//! moves of a record lost value.
#![tactic(auto)]

mod command;
mod deciding;
mod dialogue;
mod known;
pub mod laws;
mod losses;
mod opening;
mod playing;
mod recording;
mod request;
mod reviewing;

pub use command::review;
pub use deciding::decide;
pub use known::Known;
pub use laws::losses_are_told;
pub use losses::is_worse;
pub use opening::SEVERAL_A_TURN;
pub use playing::stand_at;
pub use recording::record;
pub use request::Request;
