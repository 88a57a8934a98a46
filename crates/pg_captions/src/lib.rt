//! What is said of a picture: titles and legends of games, of nodes and claims of certificates, and
//! of recorded games.
#![tactic(auto)]

mod body_words;
mod legend;
mod lines;
mod look;
mod marks;
mod names;
mod recorded;
mod signs;
mod span_legend;
mod text;
mod vector_legend;
mod weights;
mod words;

pub use legend::{game_legend, node_legend};
pub use lines::{MAX_DRAWN_LINES, MAX_LEGEND_LINES, are_drawn};
pub use look::{Legend, Look, seen_at};
pub use names::side_name;
pub use recorded::{moves_legend, moves_title};
pub use signs::signs_text;
pub use span_legend::{marks_at, span_claim_legend, span_game_legend, span_title};
pub use text::{Text, Texts};
pub use vector_legend::{
    vector_count, vector_game_legend, vector_marks_at, vector_node_legend, vector_title,
};
pub use weights::{base_of, most_free, own_of};
pub use words::{decimal_text, game_title, node_title, text_of};
