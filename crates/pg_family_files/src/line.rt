//! Reading a line of a file.
ghost use Rattle.std.specs.Prelude.{◌≡◌, ◌≤◌, ◌==◌, ◌||◌, not, true, map, [], ◌∷◌, IfNone, Some};
ghost use Rattle.std.specs.Prelude.{IsTrue, nat_lt};
ghost use Rattle.pg_family_files.specs.Prelude.{list_all, MAX_EDGES, MAX_MEMBERS, numbers, least};
ghost use Rattle.pg_family_files.specs.Prelude.{Becomes, repeats};
ghost use Rattle.pg_files.specs.declared.fault.Fault.TheVariants as faults;
ghost use Rattle.pg_family_files.specs.FamilyFile.{nothing, points_so_far, is_out_of_place, keyed};
ghost use Rattle.pg_family_files.specs.FamilyFile.{significant, after, is_header};
ghost use Rattle.pg_family_files.specs.Views.{view};
ghost use Rattle.pg_family_files.specs.declared.family.Key.TheVariants as keys;

use crate::draft::Draft;
use crate::family::{Family, Key};
use crate::signs::vector_of;
use pg_base::{MAX_EDGES, PointSet, Side};
use pg_files::{Fault, are_below, begins_comment, is_printable, repeats, set_of, two_numbers};
use pg_game::MAX_VERTICES;
use pg_gf2::{MAX_ROWS, MAX_VECTORS};
use pg_text::{LineError, number, number_list, word_list};
use std::alloc::Global;

impl Draft {
    /// The draft before the first line.
    pub fn new(alloc: Global) -> Draft
        ensures { view result ≡ nothing }
    {
        Draft {
            begun: false,
            rank: 0,
            vertices: 0,
            ends: Vec::new(alloc),
            rows: 0,
            target: 0,
            vectors: Vec::new(alloc),
            x: PointSet::empty(),
            y: PointSet::empty(),
            turn: None,
        }
    }

    /// How many points there are so far: edges or vectors.
    fn points_so_far(&self, family: Family) -> u32
        ensures count { result ≡ points_so_far family (view self.now) }
        ensures few { result ≤ MAX_EDGES }
    {
        match family {
            Family::Connectivity => self.ends.len() as u32,
            Family::Vectors => self.vectors.len() as u32,
        }
    }

    /// Whether the key may not stand here.
    fn is_out_of_place(&self, family: Family, key: Key) -> bool
        ensures { result ≡ is_out_of_place family (view self.now) key }
    {
        let rank = key.rank();
        rank < self.rank || (rank == self.rank && rank != 4) || self.rank < key.needed_rank(family)
    }

    #[tactic(auto, unfolding(crate::specs::FamilyFile::keyed, pg_text::specs::Text::numbers))]
    fn add_vertices(&mut self, family: Family, arguments: &[&[u8]]) -> Result<(), LineError<Fault>>
        ensures { Becomes result (view self.new)
            (keyed family (view self.old) keys.Vertices (map (λ w. w.now) arguments.now)) }
    {
        if self.is_out_of_place(family, Key::Vertices) {
            return Err(LineError::Fault(Fault::Order));
        }
        let [word] = arguments else {
            return Err(LineError::Fault(Fault::Arguments));
        };
        let Some(vertices) = number(word) else {
            return Err(LineError::Fault(Fault::Arguments));
        };
        if vertices < 2 || vertices > u32::from(MAX_VERTICES) {
            return Err(LineError::Fault(Fault::Limit));
        }
        self.vertices = vertices as u16;
        self.rank = Key::Vertices.rank();
        Ok(())
    }

    #[tactic(auto, unfolding(crate::specs::FamilyFile::keyed, pg_text::specs::Text::numbers))]
    fn add_rows(&mut self, family: Family, arguments: &[&[u8]]) -> Result<(), LineError<Fault>>
        ensures { Becomes result (view self.new)
            (keyed family (view self.old) keys.Rows (map (λ w. w.now) arguments.now)) }
    {
        if self.is_out_of_place(family, Key::Rows) {
            return Err(LineError::Fault(Fault::Order));
        }
        let [word] = arguments else {
            return Err(LineError::Fault(Fault::Arguments));
        };
        let Some(rows) = number(word) else {
            return Err(LineError::Fault(Fault::Arguments));
        };
        if rows < 1 || rows > u32::from(MAX_ROWS) {
            return Err(LineError::Fault(Fault::Limit));
        }
        self.rows = rows as u8;
        self.rank = Key::Rows.rank();
        Ok(())
    }

    #[tactic(auto, unfolding(crate::specs::FamilyFile::keyed))]
    fn add_target(&mut self, family: Family, arguments: &[&[u8]]) -> Result<(), LineError<Fault>>
        ensures { Becomes result (view self.new)
            (keyed family (view self.old) keys.Target (map (λ w. w.now) arguments.now)) }
    {
        if self.is_out_of_place(family, Key::Target) {
            return Err(LineError::Fault(Fault::Order));
        }
        let [word] = arguments else {
            return Err(LineError::Fault(Fault::Arguments));
        };
        let Some(target) = vector_of(self.rows, word) else {
            return Err(LineError::Fault(Fault::Shape));
        };
        self.target = target;
        self.rank = Key::Target.rank();
        Ok(())
    }

    #[tactic(auto, unfolding(crate::specs::FamilyFile::keyed, pg_text::specs::Text::numbers))]
    fn add_edge(&mut self, family: Family, arguments: &[&[u8]]) -> Result<(), LineError<Fault>>
        ensures { Becomes result (view self.new)
            (keyed family (view self.old) keys.Edge (map (λ w. w.now) arguments.now)) }
    {
        if self.is_out_of_place(family, Key::Edge) {
            return Err(LineError::Fault(Fault::Order));
        }
        let Some((a, b)) = two_numbers(arguments) else {
            return Err(LineError::Fault(Fault::Arguments));
        };
        let vertices = u32::from(self.vertices);
        if a >= vertices || b >= vertices {
            return Err(LineError::Fault(Fault::Range));
        }
        if self.ends.len() >= usize::from(MAX_EDGES) {
            return Err(LineError::Fault(Fault::Limit));
        }
        self.ends.push((a as u16, b as u16))?;
        self.rank = Key::Edge.rank();
        Ok(())
    }

    #[tactic(auto, unfolding(crate::specs::FamilyFile::keyed))]
    fn add_vector(&mut self, family: Family, arguments: &[&[u8]]) -> Result<(), LineError<Fault>>
        ensures { Becomes result (view self.new)
            (keyed family (view self.old) keys.Vector (map (λ w. w.now) arguments.now)) }
    {
        if self.is_out_of_place(family, Key::Vector) {
            return Err(LineError::Fault(Fault::Order));
        }
        let [word] = arguments else {
            return Err(LineError::Fault(Fault::Arguments));
        };
        if self.vectors.len() >= MAX_VECTORS {
            return Err(LineError::Fault(Fault::Limit));
        }
        let Some(vector) = vector_of(self.rows, word) else {
            return Err(LineError::Fault(Fault::Shape));
        };
        self.vectors.push(vector)?;
        self.rank = Key::Vector.rank();
        Ok(())
    }

    /// The fault of marks with these numbers, none of which may be in the set.
    fn marks_fault(&self, family: Family, numbers: &[u32], apart: PointSet) -> Option<Fault>
        ensures fault { result ≡ least ((
          faults.Range,
          not (list_all (λ n. nat_lt n (points_so_far family (view self.now))) numbers.now),
        ) ∷ (faults.Repeated, repeats apart numbers.now) ∷ []) }
        ensures below { IfNone result (IsTrue (list_all (λ n. nat_lt n MAX_MEMBERS) numbers.now)) }
    {
        if !are_below(numbers, self.points_so_far(family)) {
            return Some(Fault::Range);
        }
        if repeats(numbers, apart) {
            return Some(Fault::Repeated);
        }
        None
    }

    #[tactic(auto, unfolding(crate::specs::FamilyFile::keyed))]
    fn add_x(
        &mut self,
        alloc: Global,
        family: Family,
        arguments: &[&[u8]],
    ) -> Result<(), LineError<Fault>>
        ensures { Becomes result (view self.new)
            (keyed family (view self.old) keys.X (map (λ w. w.now) arguments.now)) }
    {
        if self.is_out_of_place(family, Key::X) {
            return Err(LineError::Fault(Fault::Order));
        }
        let Some(numbers) = number_list(alloc, arguments)? else {
            return Err(LineError::Fault(Fault::Arguments));
        };
        if let Some(fault) = self.marks_fault(family, &numbers, PointSet::empty()) {
            return Err(LineError::Fault(fault));
        }
        let marks = set_of(&numbers);
        self.x = marks;
        self.rank = Key::X.rank();
        Ok(())
    }

    #[tactic(auto, unfolding(crate::specs::FamilyFile::keyed))]
    fn add_y(
        &mut self,
        alloc: Global,
        family: Family,
        arguments: &[&[u8]],
    ) -> Result<(), LineError<Fault>>
        ensures { Becomes result (view self.new)
            (keyed family (view self.old) keys.Y (map (λ w. w.now) arguments.now)) }
    {
        if self.is_out_of_place(family, Key::Y) {
            return Err(LineError::Fault(Fault::Order));
        }
        let Some(numbers) = number_list(alloc, arguments)? else {
            return Err(LineError::Fault(Fault::Arguments));
        };
        if let Some(fault) = self.marks_fault(family, &numbers, self.x) {
            return Err(LineError::Fault(fault));
        }
        let marks = set_of(&numbers);
        self.y = marks;
        self.rank = Key::Y.rank();
        Ok(())
    }

    #[tactic(auto, unfolding(crate::specs::FamilyFile::keyed))]
    fn add_turn(&mut self, family: Family, arguments: &[&[u8]]) -> Result<(), LineError<Fault>>
        ensures { Becomes result (view self.new)
            (keyed family (view self.old) keys.Turn (map (λ w. w.now) arguments.now)) }
    {
        let Some(word) = arguments.first() else {
            if self.is_out_of_place(family, Key::Turn) {
                return Err(LineError::Fault(Fault::Order));
            }
            return Err(LineError::Fault(Fault::Arguments));
        };
        let Some(turn) = Side::from_word(word) else {
            return Err(LineError::Fault(Fault::Key));
        };
        if self.is_out_of_place(family, Key::Turn) {
            return Err(LineError::Fault(Fault::Order));
        }
        if arguments.len() != 1 {
            return Err(LineError::Fault(Fault::Arguments));
        }
        self.turn = Some(turn);
        self.rank = Key::Turn.rank();
        Ok(())
    }

    fn add(
        &mut self,
        alloc: Global,
        family: Family,
        key: Key,
        arguments: &[&[u8]],
    ) -> Result<(), LineError<Fault>>
        ensures { Becomes result (view self.new)
            (keyed family (view self.old) key (map (λ w. w.now) arguments.now)) }
    {
        match key {
            Key::Vertices => self.add_vertices(family, arguments),
            Key::Edge => self.add_edge(family, arguments),
            Key::Rows => self.add_rows(family, arguments),
            Key::Target => self.add_target(family, arguments),
            Key::Vector => self.add_vector(family, arguments),
            Key::X => self.add_x(alloc, family, arguments),
            Key::Y => self.add_y(alloc, family, arguments),
            Key::Turn => self.add_turn(family, arguments),
        }
    }

    #[tactic(auto, unfolding(crate::specs::FamilyFile::significant))]
    fn read_words(
        &mut self,
        alloc: Global,
        family: Family,
        words: &[&[u8]],
    ) -> Result<(), LineError<Fault>>
        ensures { Becomes result (view self.new)
            (significant family (view self.old) (map (λ w. w.now) words.now)) }
    {
        if !self.begun {
            if !is_header(family, words) {
                return Err(LineError::Fault(Fault::Header));
            }
            self.begun = true;
            return Ok(());
        }
        let [name, arguments @ ..] = words else {
            return Err(LineError::Fault(Fault::Key));
        };
        match Key::read(family, name) {
            None => Err(LineError::Fault(Fault::Key)),
            Some(key) => self.add(alloc, family, key, arguments),
        }
    }

    /// Reads the next line of a file of the family.
    #[tactic(auto, unfolding(crate::specs::FamilyFile::after))]
    pub fn read(
        &mut self,
        alloc: Global,
        family: Family,
        line: &[u8],
    ) -> Result<(), LineError<Fault>>
        ensures { Becomes result (view self.new) (after family (view self.old) line.now) }
    {
        if !is_printable(line) {
            return Err(LineError::Fault(Fault::Bytes));
        }
        if begins_comment(line) {
            return Ok(());
        }
        let words = word_list(alloc, line)?;
        if words.is_empty() {
            return Ok(());
        }
        self.read_words(alloc, family, &words)
    }
}

fn is_header(family: Family, words: &[&[u8]]) -> bool
    ensures { result ≡ is_header family (map (λ w. w.now) words.now) }
{
    match words {
        [word, version] => *word == family.header().as_bytes() && *version == b"1".as_slice(),
        _ => false,
    }
}
