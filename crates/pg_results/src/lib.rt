//! Results: the file of a certificate that shows one, what is said of it, and how a run ends.
#![tactic(auto)]

mod classes;
mod counting;
mod ending;
mod filing;

pub use classes::class_message;
pub use counting::node_count;
pub use ending::end_early;
pub use filing::print_solution;
