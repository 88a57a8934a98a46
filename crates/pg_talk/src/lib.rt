//! What commands are made of: what ends them early, what they read under names, store and say, and
//! dialogues over a console.
#![tactic(auto)]

mod contestant;
mod delivery;
mod dialogue;
mod halt;
mod laws;
mod opening;
mod reading;
mod reply;
mod saying;

pub use contestant::Contestant;
pub use delivery::deliver;
pub use dialogue::{MAX_REFUSALS, MAX_REPLY, Turn, play_claim, play_to_the_end};
pub use halt::Halt;
pub use laws::{dialogues_are_legal_plays, dialogues_end, little_is_heard, own_moves_come_first};
pub use opening::open_game;
pub use reading::open_certificate;
pub use reply::{said_number, trimmed};
pub use saying::{say, say_both, say_text};
