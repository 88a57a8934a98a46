//! What the shapes of a picture are there for.

/// What a shape is there for, which says how it is painted: each is one class of the picture's
/// style sheet.
#[derive(Clone, Copy, Debug, PartialEq, Eq)]
pub enum Paint {
    /// A free point.
    Free,
    /// A point of X.
    OfX,
    /// A point of Y.
    OfY,
    /// A terminal of a graph.
    Terminal,
    /// Another vertex of a graph.
    Vertex,
    /// A line of a game.
    Line,
    /// A free edge.
    Edge,
    /// An edge of X.
    EdgeOfX,
    /// An edge of Y.
    EdgeOfY,
    /// One of the pairs of a pairing: the number of its hue and dash, 0 to 7. A greater number is
    /// painted as its remainder by 8.
    Pair(u8),
    /// An edge of the first tree or cut.
    First,
    /// An edge of the second tree or cut.
    Second,
    /// The extra edge, which a tree or cut has beside the graph's own.
    Extra,
    /// An attack of a sequence of threats.
    Step,
    /// A forced reply of a sequence of threats.
    Answer,
    /// The move of a node.
    Move,
    /// A reply that a node answers.
    Reply,
    /// What a fault was found in.
    Fault,
    /// The number of a cell, at its upper border.
    Corner,
    /// Another number: of a disc, an edge, a vertex or a step.
    Number,
    /// The ground of words that would lie over something else.
    Plate,
    /// The mark of a side.
    Mark,
    /// The weight of a point.
    Weight,
    /// A row of the legend.
    Legend,
    /// The heading.
    Heading,
}
