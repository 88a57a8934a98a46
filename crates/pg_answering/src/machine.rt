//! What a program runs on.
ghost use Rattle.std.specs.Prelude.{◌≡◌};
ghost use Rattle.pg_answering.specs.Machine.{fresh, told_by};

use pg_io::{MemConsole, MemFiles, Text};
use std::alloc::Global;

/// Files and a console in memory, of which no call is made to fail.
#[derive(Drop)]
pub struct Machine {
    /// The files.
    pub files: MemFiles,
    /// The console.
    pub console: MemConsole,
}

impl Machine {
    /// Returns a machine with these files, names and bytes, of which none is open and none is being
    /// written; on its console this input is unread, and nothing is printed.
    pub fn new(alloc: Global, files: Vec<(Text, Text)>, input: Text) -> Machine
        ensures { told_by result ≡ fresh files.items input }
    {
        Machine {
            files: MemFiles::new(alloc, files, Vec::new(alloc)),
            console: MemConsole::new(alloc, input, Vec::new(alloc)),
        }
    }
}
