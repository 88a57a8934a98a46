//! The switching game on vectors over two elements: its ground, its classes with their
//! certificates, and the checking of certificates.
#![tactic(auto)]

mod checked;
mod classify;
mod condition;
mod elimination;
mod flaw;
mod game;
mod ground;
pub mod laws;
mod node;
mod plan;
mod reduce;
mod room;
mod row;
mod solving;
mod sums;

pub use checked::{VecChecked, vec_check};
pub use classify::vec_classify;
pub use flaw::{VecFault, VecFlaw};
pub use game::{MAX_ROWS, MAX_VECTORS, VecGame, Vectors};
pub use ground::VecGround;
pub use node::with_e_named;
pub use plan::VecPlan;
pub use room::{lowest_needed, lowest_unspanned, spans};
pub use row::Row;
pub use solving::vec_solve;
pub use sums::spanned;
