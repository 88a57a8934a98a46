//! Lines that say how a game stands: the marks of both sides, and the side to move.
ghost use Rattle.std.specs.Prelude.{◌≡◌, map, IfNone, IsTrue, nat_lt};
ghost use Rattle.pg_files.specs.Prelude.{Becomes, MAX_MEMBERS, least, list_all};
ghost use Rattle.pg_files.specs.declared.key.Key.TheVariants as keys;
ghost use Rattle.pg_files.specs.GameFile.{keyed, numbers_faults, IsMarks};
ghost use Rattle.pg_files.specs.Views.{view};

use crate::draft::Draft;
use crate::fault::Fault;
use crate::key::Key;
use crate::sets::{are_below, repeats, set_of};
use pg_base::{PointSet, Side};
use pg_text::{LineError, number_list};
use std::alloc::Global;

impl Draft {
    /// The fault of a line of marks with these numbers.
    fn marks_fault(&self, key: Key, numbers: &[u32]) -> Option<Fault>
        requires { IsMarks key }
        ensures fault { result ≡ least (numbers_faults (view self.now) key numbers.now) }
        ensures below { IfNone result (IsTrue (list_all (λ n. nat_lt n MAX_MEMBERS) numbers.now)) }
    {
        if !are_below(numbers, self.points_so_far()) {
            return Some(Fault::Range);
        }
        let apart = if key == Key::Y {
            self.x
        } else {
            PointSet::empty()
        };
        if repeats(numbers, apart) {
            return Some(Fault::Repeated);
        }
        None
    }

    /// Reads the arguments of a line with X's marks.
    #[tactic(auto, unfolding(crate::specs::GameFile::keyed))]
    pub fn add_x(&mut self, alloc: Global, arguments: &[&[u8]]) -> Result<(), LineError<Fault>>
        ensures { Becomes result (view self.new)
            (keyed (view self.old) keys.X (map (λ w. w.now) arguments.now)) }
    {
        if self.is_out_of_place(Key::X) {
            return Err(LineError::Fault(Fault::Order));
        }
        let Some(numbers) = number_list(alloc, arguments)? else {
            return Err(LineError::Fault(Fault::Arguments));
        };
        if let Some(fault) = self.marks_fault(Key::X, &numbers) {
            return Err(LineError::Fault(fault));
        }
        let marks = set_of(&numbers);
        self.x = marks;
        self.rank = 5;
        Ok(())
    }

    /// Reads the arguments of a line with Y's marks.
    #[tactic(auto, unfolding(crate::specs::GameFile::keyed))]
    pub fn add_y(&mut self, alloc: Global, arguments: &[&[u8]]) -> Result<(), LineError<Fault>>
        ensures { Becomes result (view self.new)
            (keyed (view self.old) keys.Y (map (λ w. w.now) arguments.now)) }
    {
        if self.is_out_of_place(Key::Y) {
            return Err(LineError::Fault(Fault::Order));
        }
        let Some(numbers) = number_list(alloc, arguments)? else {
            return Err(LineError::Fault(Fault::Arguments));
        };
        if let Some(fault) = self.marks_fault(Key::Y, &numbers) {
            return Err(LineError::Fault(fault));
        }
        let marks = set_of(&numbers);
        self.y = marks;
        self.rank = 6;
        Ok(())
    }

    /// Reads the arguments of a line with the side to move.
    #[tactic(auto, unfolding(crate::specs::GameFile::keyed))]
    pub fn add_turn(&mut self, arguments: &[&[u8]]) -> Result<(), LineError<Fault>>
        ensures { Becomes result (view self.new)
            (keyed (view self.old) keys.Turn (map (λ w. w.now) arguments.now)) }
    {
        let Some(word) = arguments.first() else {
            if self.is_out_of_place(Key::Turn) {
                return Err(LineError::Fault(Fault::Order));
            }
            return Err(LineError::Fault(Fault::Arguments));
        };
        let Some(turn) = Side::from_word(word) else {
            return Err(LineError::Fault(Fault::Key));
        };
        if self.is_out_of_place(Key::Turn) {
            return Err(LineError::Fault(Fault::Order));
        }
        if arguments.len() != 1 {
            return Err(LineError::Fault(Fault::Arguments));
        }
        self.turn = Some(turn);
        self.rank = 7;
        Ok(())
    }
}
