//! What is known of the values of a plan's positions: by leaves and by certificates, and backed up
//! along the moves; and which positions can still matter.
#![tactic(auto)]

mod backing;
mod board;
mod laws;
mod leaves;
mod needs;
mod report;
mod span;
mod standing;

pub use backing::{View, spans_of};
pub use board::{copy_of, is_position, may_take};
pub use laws::spans_hold_values;
pub use leaves::{body_for, decided};
pub use needs::needs_of;
pub use report::{Lack, Need, Own};
pub use span::Span;
pub use standing::positions_of;
