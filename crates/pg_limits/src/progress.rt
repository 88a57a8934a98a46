//! How far a search is.

/// How far a search is.
#[derive(Clone, Copy, Debug, PartialEq, Eq)]
pub enum Progress {
    /// The answer isn't known.
    Searching {
        /// How many positions are expanded.
        expanded: u32,
        /// How many entries are kept.
        entries: usize,
        /// How hard it seems at the game's own position that X reaches the score: its proof number.
        proof: u32,
        /// How hard it seems that X doesn't: its disproof number.
        disproof: u32,
    },
    /// The answer is known, and the nodes of its claim are written.
    Writing {
        /// How many nodes the claim has so far.
        nodes: usize,
    },
}

/// The nodes from one note to the next.
const NODES_A_NOTE: usize = 1_024;

/// Who is told how far a search is. What a search finds doesn't depend on it.
pub trait Watch {
    /// Takes note of how far the search is.
    fn note(&mut self, progress: Progress);
}

/// Nobody watches.
#[derive(Clone, Copy, Debug)]
pub struct Unwatched;

impl Watch for Unwatched {
    fn note(&mut self, _progress: Progress) {}
}

/// Notes how many nodes a claim has so far, if it is time for that.
pub fn note_nodes<W: Watch>(nodes: usize, watch: &mut W) {
    if nodes % NODES_A_NOTE == 0 {
        watch.note(Progress::Writing { nodes });
    }
}
