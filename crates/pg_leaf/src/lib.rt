//! What a search makes certificates of: the leaf of the first criterion that decides the position
//! of a board, the order of its moves, and a claim's nodes without those that its root doesn't
//! reach.
#![tactic(auto)]

mod ahead;
mod criteria;
mod kept;
mod key;
mod marks;
mod order;
mod pruning;
mod small_set;

pub use ahead::{Ahead, Next, Told};
pub use criteria::{attack_leaf, leaf, leaf_with};
pub use kept::KeptNode;
pub use key::Key;
pub use order::order_of;
pub use pruning::prune;
