//! What is to be seen of a game, of a node of a certificate, of a connectivity game, of a claim of
//! its certificate, or of a game on vectors.
#![tactic(auto)]

mod board;
mod bodies;
mod bridge;
mod item;
mod laws;
mod lines;
mod numbers;
mod points;
mod recorded;
mod scene;
mod shown;
mod span_bodies;
mod span_shown;
mod vector_shown;
mod weights;

pub use board::Board;
pub use bodies::put_fault;
pub use bridge::joining_board;
pub use item::{Item, Items, Set};
pub use laws::{
    edges_are_drawn_once, overlapping_lines_are_in_different_lanes, pairs_are_drawn_once,
    points_are_drawn_once, replies_are_drawn_once, scenes_can_be_laid_out,
    span_scenes_can_be_laid_out, vector_scenes_can_be_laid_out,
};
pub use points::{put_members, put_points};
pub use recorded::scene_of_moves;
pub use scene::Scene;
pub use shown::{scene_of_game, scene_of_node};
pub use span_shown::{scene_of_span_claim, scene_of_span_game};
pub use vector_shown::{scene_of_vector_game, scene_of_vector_node};
