//! Plans: the tree of moves above the positions into which a game is split, so that each is settled
//! by a run of its own; their text, and a plan from the bytes of its file, with the first fault.
#![tactic(auto)]

mod fault;
mod laws;
mod line;
mod names;
mod place;
mod printing;
mod reading;

pub use fault::{Fault, MAX_PLAN_BYTES};
pub use laws::{first_plan_fault_is_told, printed_plan_is_read, what_is_read_is_a_plan};
pub use names::{cert_name, game_name, plan_name};
pub use pg_text::FileError as PlanFault;
pub use place::{MAX_GAME_FILES, MAX_MAPS, MAX_PLACES, Place, Plan, Step, Steps};
pub use printing::print_plan;
pub use reading::read_plan;
