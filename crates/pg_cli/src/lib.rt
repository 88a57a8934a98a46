//! The top call: what each command says, and the status; and the reports, in JSON.
#![tactic(auto)]

mod checking;
mod code;
mod generating;
mod json_report;
mod judging;
mod laws;
mod playing;
mod reading;
mod reporting;
mod running;
mod solving;

pub use code::Code;
pub use json_report::{rejection, report};
pub use laws::{announced_claims_are_forced, solutions_differ_in_position};
pub use running::run;
pub use solving::DEFAULT_POSITIONS;
