//! Why a record file can't be read.
ghost use Rattle.pg_record.specs.Views.{number_of};

use pg_text::Numbered;

/// The greatest number of bytes of a record file.
pub const MAX_RECORD_BYTES: usize = 1_048_576;

/// What is wrong with a line, in the order of the faults' numbers.
#[derive(Clone, Copy, Debug, PartialEq, Eq)]
pub enum Fault {
    /// F1: the file is too large.
    Size,
    /// F2: the first line isn't the header, or there is none.
    Header,
    /// F3: the line is neither `move` with one word nor `back`.
    Form,
    /// F4: the word after `move` is no number.
    Number,
    /// F5: the move can't be played there.
    Move,
    /// F6: no move stands that `back` could take back.
    Nothing,
    /// F7: there are too many events.
    Limit,
}

/// The numbers of the faults.
impl Numbered for Fault {
    ghost number_of = { number_of };

    fn number(self) -> u8 {
        match self {
            Fault::Size => 1,
            Fault::Header => 2,
            Fault::Form => 3,
            Fault::Number => 4,
            Fault::Move => 5,
            Fault::Nothing => 6,
            Fault::Limit => 7,
        }
    }
}
