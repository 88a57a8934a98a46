//! Why the file of a plan can't be read.
ghost use Rattle.pg_plan.specs.Views.{number_of};

use pg_text::Numbered;

/// The greatest number of bytes of a plan's file.
pub const MAX_PLAN_BYTES: usize = 16_777_216;

/// What is wrong with a line, in the order of the faults' numbers.
#[derive(Clone, Copy, Debug, PartialEq, Eq)]
pub enum Fault {
    /// P1: the file has more than `MAX_PLAN_BYTES` bytes.
    Size,
    /// P2: the first line isn't `posgame-plan 1`, or there is none.
    Header,
    /// P3: the line is of none of the four forms.
    Form,
    /// P4: a word isn't a number of the range that must be there, or not the two numbers of a move.
    Number,
    /// P5: a position is named that doesn't come before.
    Order,
    /// P6: `crate::MAX_PLACES` positions stand before the line.
    Limit,
}

/// The numbers of the faults.
impl Numbered for Fault {
    ghost number_of = { number_of };

    fn number(self) -> u8 {
        match self {
            Fault::Size => 1,
            Fault::Header => 2,
            Fault::Form => 3,
            Fault::Number => 4,
            Fault::Order => 5,
            Fault::Limit => 6,
        }
    }
}
