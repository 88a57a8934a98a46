//! Why a text isn't of its format.
ghost use Rattle.std.specs.Prelude.{◌≡◌, ℕ};
ghost use Rattle.pg_text.specs.Faults.{at_line, at};
ghost use Rattle.pg_text.specs.declared.error.LineError.TheVariants.{Memory as NoMemory};
ghost use Rattle.pg_text.specs.declared.error.FileError.TheVariants.{Memory as NoMemoryForFile};

use pg_base::Memory as OutOfMemory;
use std::alloc::{AllocError, AllocFailed};

/// What can be wrong with the lines of a format. The variants stand in the order of their numbers.
pub trait Numbered: Copy {
    ghost number_of: { Self → ℕ };

    /// The number of the fault.
    fn number(self) -> u8
        ensures { result ≡ number_of self };
}

/// Why a line could not be read.
#[derive(Clone, Copy, Debug, PartialEq, Eq, Drop)]
pub enum LineError<F> {
    /// No memory is left.
    Memory,
    /// The line has this fault.
    Fault(F),
}

/// Why a text isn't of its format.
#[derive(Clone, Copy, Debug, PartialEq, Eq)]
pub enum FileError {
    /// The text has a fault.
    Bad {
        /// The number of the fault.
        number: u8,
        /// The number of its line from 1, or 0 for the whole text.
        line: u32,
    },
    /// No memory is left.
    Memory,
}

impl FileError {
    /// The error of a fault in the line of that number.
    pub fn at_line<F: Numbered>(fault: F, line: u32) -> FileError
        ensures { result ≡ at_line F.number_of fault line }
    {
        FileError::Bad {
            number: fault.number(),
            line,
        }
    }
}

impl<F: Numbered> LineError<F> {
    /// The error of the text whose line of that number couldn't be read.
    pub fn at(self, line: u32) -> FileError
        ensures { result ≡ at F.number_of self line }
    {
        match self {
            LineError::Memory => FileError::Memory,
            LineError::Fault(fault) => FileError::at_line(fault, line),
        }
    }
}

impl<F> From<AllocError> for LineError<F> {
    ghost from_gives = { λ _ error. error ≡ NoMemory };

    fn from(_: AllocError) -> LineError<F> {
        LineError::Memory
    }
}

impl<F, T: Drop> From<AllocFailed<T>> for LineError<F> {
    ghost from_gives = { λ _ error. error ≡ NoMemory };

    fn from(_: AllocFailed<T>) -> LineError<F> {
        LineError::Memory
    }
}

impl<F> From<OutOfMemory> for LineError<F> {
    ghost from_gives = { λ _ error. error ≡ NoMemory };

    fn from(_: OutOfMemory) -> LineError<F> {
        LineError::Memory
    }
}

impl From<AllocError> for FileError {
    ghost from_gives = { λ _ error. error ≡ NoMemoryForFile };

    fn from(_: AllocError) -> FileError {
        FileError::Memory
    }
}

impl<T: Drop> From<AllocFailed<T>> for FileError {
    ghost from_gives = { λ _ error. error ≡ NoMemoryForFile };

    fn from(_: AllocFailed<T>) -> FileError {
        FileError::Memory
    }
}

impl From<OutOfMemory> for FileError {
    ghost from_gives = { λ _ error. error ≡ NoMemoryForFile };

    fn from(_: OutOfMemory) -> FileError {
        FileError::Memory
    }
}
