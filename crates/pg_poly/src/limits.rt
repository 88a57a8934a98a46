//! Limits of shapes and of grids.

/// The most cells of a shape.
pub const MAX_CELLS: usize = 100;

/// The most cells of a grid in which shapes are placed.
pub const MAX_GRID_CELLS: usize = 256;
