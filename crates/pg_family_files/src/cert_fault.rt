//! Why a connectivity game's certificate can't be read.
ghost use Rattle.pg_family_files.specs.SpanCertViews.{number_of};

use pg_text::Numbered;

/// What is wrong with a line, in the order of the faults' numbers.
#[derive(Clone, Copy, Debug, PartialEq, Eq)]
pub(crate) enum Fault {
    /// C1: the file is too large.
    Size,
    /// C2: the first line isn't the header.
    Header,
    /// C3: the line isn't of the form that is due, or the file ends where a line is due.
    Form,
    /// C4: a number's place holds none, or one that may not stand there.
    Number,
    /// C6: there are too many claims.
    Limit,
}

/// The numbers of the faults.
impl Numbered for Fault {
    ghost number_of = { number_of };

    fn number(self) -> u8 {
        match self {
            Fault::Size => 1,
            Fault::Header => 2,
            Fault::Form => 3,
            Fault::Number => 4,
            Fault::Limit => 6,
        }
    }
}
