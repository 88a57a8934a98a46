//! Reading a line of a game file.
ghost use Rattle.std.specs.Prelude.{map};
ghost use Rattle.pg_files.specs.Prelude.{Becomes};
ghost use Rattle.pg_files.specs.GameFile.{keyed, significant, after};
ghost use Rattle.pg_files.specs.Views.{view};

use crate::draft::Draft;
use crate::fault::Fault;
use crate::key::Key;
use crate::parts::{begins_comment, is_header, is_printable};
use pg_text::{LineError, word_list};
use std::alloc::Global;

impl Draft {
    fn add(&mut self, alloc: Global, key: Key, arguments: &[&[u8]]) -> Result<(), LineError<Fault>>
        ensures { Becomes result (view self.new)
            (keyed (view self.old) key (map (λ w. w.now) arguments.now)) }
    {
        match key {
            Key::Kind => self.add_kind(arguments),
            Key::Points => self.add_points(arguments),
            Key::Grid => self.add_grid(arguments),
            Key::Vertices => self.add_vertices(arguments),
            Key::Terminals => self.add_terminals(arguments),
            Key::Bias => self.add_bias(arguments),
            Key::Line => self.add_line(alloc, arguments),
            Key::Shape => self.add_shape(alloc, arguments),
            Key::Edge => self.add_edge(arguments),
            Key::X => self.add_x(alloc, arguments),
            Key::Y => self.add_y(alloc, arguments),
            Key::Turn => self.add_turn(arguments),
        }
    }

    #[tactic(auto, unfolding(crate::specs::GameFile::significant))]
    fn read_words(&mut self, alloc: Global, words: &[&[u8]]) -> Result<(), LineError<Fault>>
        ensures { Becomes result (view self.new)
            (significant (view self.old) (map (λ w. w.now) words.now)) }
    {
        if !self.begun {
            if !is_header(words) {
                return Err(LineError::Fault(Fault::Header));
            }
            self.begun = true;
            return Ok(());
        }
        let [name, arguments @ ..] = words else {
            return Err(LineError::Fault(Fault::Key));
        };
        match Key::read(name) {
            None => Err(LineError::Fault(Fault::Key)),
            Some(key) => self.add(alloc, key, arguments),
        }
    }

    /// Reads the next line of the file.
    #[tactic(auto, unfolding(crate::specs::GameFile::after))]
    pub fn read(&mut self, alloc: Global, line: &[u8]) -> Result<(), LineError<Fault>>
        ensures { Becomes result (view self.new) (after (view self.old) line.now) }
    {
        if !is_printable(line) {
            return Err(LineError::Fault(Fault::Bytes));
        }
        if begins_comment(line) {
            return Ok(());
        }
        let words = word_list(alloc, line)?;
        if words.is_empty() {
            return Ok(());
        }
        self.read_words(alloc, &words)
    }
}
