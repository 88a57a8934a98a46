//! The programs that a request can name.
ghost use Rattle.std.specs.Prelude.{◌≡◌};
ghost use Rattle.pg_answering.specs.Programs.{program_named};

/// A program.
#[derive(Clone, Copy, Debug, PartialEq, Eq)]
pub enum Program {
    /// `posgame`.
    Posgame,
    /// `posgame-settle`.
    Settle,
    /// `posgame-draw`.
    Draw,
}

/// Returns the program of this name.
pub fn program_named(name: &[u8]) -> Option<Program>
    ensures { result ≡ program_named name.now }
{
    if "posgame".as_bytes() == name {
        Some(Program::Posgame)
    } else if "posgame-settle".as_bytes() == name {
        Some(Program::Settle)
    } else if "posgame-draw".as_bytes() == name {
        Some(Program::Draw)
    } else {
        None
    }
}
