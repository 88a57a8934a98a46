//! Games that are made from numbers.

/// A game that is made from numbers.
#[derive(Clone, Copy, Debug, PartialEq, Eq)]
pub enum Source {
    /// The rows, columns and two diagonals of a square.
    Rows {
        /// The length of a side, 2 to 16.
        length: u32,
    },
    /// Bridg-It as a switching game.
    Bridge {
        /// The number of rows, 1 to 22.
        rows: u32,
    },
    /// Lines that are drawn by a seed.
    Scatter {
        /// The seed, below 2^31.
        seed: u32,
        /// The number of points, 1 to 256.
        points: u32,
        /// The number of lines, at most 20,000.
        lines: u32,
        /// The number of points of a line, 1 to the lesser of 100 and the number of points. All
        /// lines have at most 400,000 points together.
        size: u32,
    },
}
