//! What is to be seen, whole.
use crate::board::Board;
use crate::item::Items;
use pg_captions::{Text, Texts};

/// What is to be seen of a game or of a node.
#[derive(Debug, Drop)]
pub struct Scene {
    /// What it is.
    pub title: Text,
    /// What its items stand on.
    pub board: Board,
    /// What is to be seen on the board.
    pub items: Items,
    /// What else there is to be said, a line each.
    pub legend: Texts,
}
