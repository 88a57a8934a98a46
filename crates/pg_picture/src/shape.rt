//! Shapes of pictures.
ghost use Rattle.std.specs.Prelude.{◌≡◌};

use crate::paint::Paint;
use crate::text::Text;
use std::marker::Model;

/// A place in a picture, in units.
#[derive(Clone, Copy, Debug, PartialEq, Eq)]
pub struct Place {
    /// How far from the left.
    pub across: u32,
    /// How far from the top.
    pub down: u32,
}

/// A list of places.
#[derive(Debug, Drop)]
pub struct Places {
    members: Vec<Place>,
}

/// The places in order.
impl Model for Places {
    ghost use Rattle.std.specs.Prelude.{List};
    ghost use Rattle.pg_picture.specs.declared.shape.Place.{Place};

    ghost Value = { List Place };

    ghost view = { λ a. a.members.items };
}

impl Places {
    /// The list of these places.
    pub fn from_vec(members: Vec<Place>) -> Places
        ensures { result ≡ members.items }
    {
        Places { members }
    }

    /// The places in order.
    pub fn as_slice(&self) -> &[Place]
        ensures { result.now ≡ self.now }
    {
        self.members.as_slice()
    }
}

/// A shape of a picture.
#[derive(Debug, Drop)]
pub enum Shape {
    /// A square.
    Square {
        /// Its upper left corner.
        corner: Place,
        /// How long its sides are.
        side: u32,
        /// What it is there for.
        paint: Paint,
    },
    /// A disc.
    Disc {
        /// Its centre.
        centre: Place,
        /// Its radius.
        radius: u32,
        /// What it is there for.
        paint: Paint,
    },
    /// A straight stroke.
    Stroke {
        /// Where it begins.
        from: Place,
        /// Where it ends.
        to: Place,
        /// What it is there for.
        paint: Paint,
    },
    /// A stroke that is bent towards a place.
    Bow {
        /// Where it begins.
        from: Place,
        /// The place towards which it is bent, the control point of a quadratic curve.
        bend: Place,
        /// Where it ends.
        to: Place,
        /// What it is there for.
        paint: Paint,
    },
    /// Words.
    Words {
        /// The place on which they are centred, or at which they begin: those of the legend and of
        /// the heading.
        at: Place,
        /// The words.
        words: Text,
        /// What they are there for.
        paint: Paint,
    },
}

/// A list of shapes.
#[derive(Debug, Drop)]
pub struct Shapes {
    members: Vec<Shape>,
}

/// The shapes in order.
impl Model for Shapes {
    ghost use Rattle.std.specs.Prelude.{List};
    ghost use Rattle.pg_picture.specs.declared.shape.Shape.{Shape};

    ghost Value = { List Shape };

    ghost view = { λ a. a.members.items };
}

impl Shapes {
    /// The list of these shapes.
    pub fn from_vec(members: Vec<Shape>) -> Shapes
        ensures { result ≡ members.items }
    {
        Shapes { members }
    }

    /// The shapes in order.
    pub fn as_slice(&self) -> &[Shape]
        ensures { result.now ≡ self.now }
    {
        self.members.as_slice()
    }
}
