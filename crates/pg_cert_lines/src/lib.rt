//! Lines of certificate files: what a first line, a claim line, a `nodes` line and a node line say.
#![tactic(auto)]

mod fault;
mod form;
mod head;
mod line;
mod numerals;
mod signs;
mod turn;
mod values;

pub use fault::Fault;
pub use form::{Form, Outline};
pub use head::Head;
pub use line::{count_of, has_bar, head_of, node_line, read_node, version_of};
pub use signs::HYPHEN;
pub use turn::{Turn, turn_of};
pub use values::first_pair;
