//! Why a certificate can't be read.

ghost use Rattle.pg_cert_lines.specs.Views.{number_of};

use pg_text::Numbered;

/// What is wrong with a line, in the order of the faults' numbers.
#[derive(Clone, Copy, Debug, PartialEq, Eq)]
pub enum Fault {
    /// C1: the file is too large.
    Size,
    /// C2: the first line isn't the header.
    Header,
    /// C3: the line isn't of the form that is due.
    Form,
    /// C4: a number's place holds none, or one that may not stand there.
    Number,
    /// C5: a node stands where none is due, or lacks where one is due.
    Place,
    /// C6: there are too many claims or nodes.
    Limit,
}

/// The numbers of the faults: 1 to 6.
impl Numbered for Fault {
    ghost number_of = { number_of };

    fn number(self) -> u8 {
        match self {
            Fault::Size => 1,
            Fault::Header => 2,
            Fault::Form => 3,
            Fault::Number => 4,
            Fault::Place => 5,
            Fault::Limit => 6,
        }
    }
}
