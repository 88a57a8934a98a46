//! What the program says, each message with its text, and the statuses with which it ends.
#![tactic(auto)]

mod line;
mod message;
mod refusal;
mod statuses;

pub use line::{Line, ROOM};
pub use message::{Message, ReplyFault};
pub use refusal::Refusal;
pub use statuses::{
    DONE, FAULTY_GAME, FAULTY_RECORD, INPUT_ENDED, NO_MEANING, NO_MEMORY, NO_WORDS, OUT_OF_REPLIES,
    READ_FAILED, REFUSED, UNKNOWN, WRITE_FAILED,
};
