//! Points, sides, scores and sets of points: what every crate of posgame speaks of.
#![tactic(auto)]

mod goal;
mod grid;
mod kind;
mod limits;
mod line;
mod members;
mod memory;
mod pair;
mod point_set;
mod points;
mod score;
mod side;
mod signs;

pub use goal::Goal;
pub use grid::Grid;
pub use kind::Kind;
pub use limits::{MAX_EDGES, MAX_MEMBERS};
pub use line::{Line, LineFault, Lines};
pub use members::Members;
pub use memory::Memory;
pub use pair::{Pair, Pairs};
pub use point_set::PointSet;
pub use points::Points;
pub use score::Score;
pub use side::Side;
pub use signs::{BAR, LINE_FEED, SPACE};
