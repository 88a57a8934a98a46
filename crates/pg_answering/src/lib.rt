//! Runs of the programs on files and a console in memory, as answers in bytes to requests in bytes.
#![tactic(auto)]

mod answering;
mod drawing;
mod machine;
mod program;
mod responding;
mod settling;
mod solving;
mod tasks;

pub use answering::answer_to;
pub use drawing::run_draw;
pub use machine::Machine;
pub use program::{Program, program_named};
pub use responding::{NO_PROGRAM, OUT_OF_MEMORY, respond};
pub use settling::run_settle;
pub use solving::run_posgame;
pub use tasks::{DASH, Wishes, wishes_of};
