//! Why a game file could not be read.
ghost use Rattle.pg_files.specs.Views.{number_of};

use pg_text::Numbered;

/// What is wrong with a line or a file. Of several faults of a line the first one here is given.
#[derive(Clone, Copy, Debug, PartialEq, Eq)]
pub enum Fault {
    /// G1: the file is too large.
    Size,
    /// G2: a byte isn't printable.
    Bytes,
    /// G3: the first significant line isn't the header, or there is none.
    Header,
    /// G4: the key, or the word of a kind or a side, isn't known.
    Key,
    /// G5: the key may not stand here.
    Order,
    /// G6: the arguments are too few or too many, or one is no number.
    Arguments,
    /// G7: a point or a vertex isn't one of the game's.
    Range,
    /// G8: a point stands twice.
    Repeated,
    /// G9: a line has no point or too many.
    Length,
    /// G10: a count is out of its limits.
    Limit,
    /// G11: the two terminals are one vertex.
    Terminals,
    /// G12: the file ends before its last line.
    Ends,
    /// G13: the argument isn't a shape.
    Shape,
}

/// The numbers of the faults: 1 to 13.
impl Numbered for Fault {
    ghost number_of = { number_of };

    fn number(self) -> u8 {
        match self {
            Fault::Size => 1,
            Fault::Bytes => 2,
            Fault::Header => 3,
            Fault::Key => 4,
            Fault::Order => 5,
            Fault::Arguments => 6,
            Fault::Range => 7,
            Fault::Repeated => 8,
            Fault::Length => 9,
            Fault::Limit => 10,
            Fault::Terminals => 11,
            Fault::Ends => 12,
            Fault::Shape => 13,
        }
    }
}
