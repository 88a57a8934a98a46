//! Drawing recorded games, as their files say them.
#![tactic(auto)]

mod drawing;
mod moves;
mod opening;
mod order;
mod running;

pub use drawing::NO_MOVE;
pub use order::RecordOrder;
pub use running::draw_record;
