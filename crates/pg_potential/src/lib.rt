//! Potentials, by which a side that is far enough ahead on all lines together wins or draws:
//! Breaker's, of Erdős and Selfridge, and Avoider's. For each the weights of lines, the test, what
//! it forces, and the answer. And what a checker that tries many positions of one game keeps in few
//! words: the lines of the game as sets, with potentials by these, and positions.
#![tactic(auto)]

mod answers;
pub mod avoider;
mod condition;
pub mod laws;
mod marks;
mod masks;
mod totals;

pub use answers::answer;
pub use condition::{holds, limit, total, weight};
pub use marks::Marks;
pub use masks::{Mask, line_result, masks_of};
pub use totals::holds_by_masks;
