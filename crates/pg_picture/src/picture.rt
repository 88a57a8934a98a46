//! Pictures.
use crate::shape::{Places, Shapes};
use crate::text::Text;

/// A picture.
#[derive(Debug, Drop)]
pub struct Picture {
    /// How wide it is, in units.
    pub width: u32,
    /// How high it is, in units.
    pub height: u32,
    /// The width in pixels at which it is shown; none if the viewer chooses.
    pub size: Option<u32>,
    /// What it shows, in one line.
    pub title: Text,
    /// Its shapes, the lowest first: a later one lies over an earlier one.
    pub shapes: Shapes,
    /// How far to the right and down each copy of the shapes is, which is drawn after them.
    pub copies: Places,
}
