//! Why the file of a layout can't be read.
ghost use Rattle.pg_layout.specs.Views.{number_of};

use pg_text::Numbered;

/// The greatest number of bytes of a layout's file.
pub const MAX_LAYOUT_BYTES: usize = 1_048_576;

/// What is wrong with a layout, in the order of the faults' numbers.
#[derive(Clone, Copy, Debug, PartialEq, Eq)]
pub enum Fault {
    /// L1: the file has more than `MAX_LAYOUT_BYTES` bytes.
    Size,
    /// L2: the line isn't `at` with three numbers.
    Form,
    /// L3: the board has no such point.
    Point,
    /// L4: an earlier line places the point.
    Twice,
    /// L5: the column or the line is above `crate::MAX_STEPS`.
    Range,
    /// L6: the place is too near that of an earlier point.
    Near,
    /// L7: a point has no place.
    Missing,
}

/// The numbers of the faults.
impl Numbered for Fault {
    ghost number_of = { number_of };

    fn number(self) -> u8 {
        match self {
            Fault::Size => 1,
            Fault::Form => 2,
            Fault::Point => 3,
            Fault::Twice => 4,
            Fault::Range => 5,
            Fault::Near => 6,
            Fault::Missing => 7,
        }
    }
}
