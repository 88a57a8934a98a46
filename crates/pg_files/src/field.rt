//! Lines that say what a game's field has: lines of points, shapes and edges.
ghost use Rattle.std.specs.Prelude.{◌≡◌, ◌+◌, ◌*◌, ◌≤◌, ◌||◌, map, length, IfNone, IsTrue, false};
ghost use Rattle.std.specs.Prelude.{nat_lt};
ghost use Rattle.pg_files.specs.Prelude.{Becomes, MAX_MEMBERS, empty, least, list_all};
ghost use Rattle.pg_files.specs.Sets.{repeats};
ghost use Rattle.pg_files.specs.declared.key.Key.TheVariants as keys;
ghost use Rattle.pg_files.specs.GameFile.{keyed, numbers_faults};
ghost use Rattle.pg_files.specs.Views.{view};

use crate::draft::Draft;
use crate::fault::Fault;
use crate::key::Key;
use crate::parts::{ones, two_numbers};
use crate::sets::{are_below, line_of, repeats};
use pg_base::{MAX_EDGES, PointSet};
use pg_game::{MAX_LINE_POINTS, MAX_LINES, MAX_SUMMED_POINTS};
use pg_poly::{Shape, ShapeFault, placed};
use pg_text::{LineError, number_list};
use std::alloc::Global;

impl Draft {
    /// The fault of a line with these numbers.
    fn line_fault(&self, numbers: &[u32]) -> Option<Fault>
        ensures fault { result ≡ least (numbers_faults (view self.now) keys.Line numbers.now) }
        ensures fits { IfNone result (self.now.total + length numbers.now ≤ MAX_SUMMED_POINTS) }
        ensures below { IfNone result (IsTrue (list_all (λ n. nat_lt n MAX_MEMBERS) numbers.now)) }
        ensures different { IfNone result (repeats empty numbers.now ≡ false) }
    {
        if !are_below(numbers, self.points_so_far()) {
            return Some(Fault::Range);
        }
        if repeats(numbers, PointSet::empty()) {
            return Some(Fault::Repeated);
        }
        if numbers.is_empty() || numbers.len() > self.longest() {
            return Some(Fault::Length);
        }
        if self.lines.len() >= MAX_LINES || self.total + numbers.len() > MAX_SUMMED_POINTS {
            return Some(Fault::Limit);
        }
        None
    }

    /// Reads the arguments of a line with the points of one line.
    #[tactic(auto, unfolding(crate::specs::GameFile::keyed))]
    pub fn add_line(&mut self, alloc: Global, arguments: &[&[u8]]) -> Result<(), LineError<Fault>>
        ensures { Becomes result (view self.new)
            (keyed (view self.old) keys.Line (map (λ w. w.now) arguments.now)) }
    {
        if self.is_out_of_place(Key::Line) {
            return Err(LineError::Fault(Fault::Order));
        }
        let Some(numbers) = number_list(alloc, arguments)? else {
            return Err(LineError::Fault(Fault::Arguments));
        };
        if let Some(fault) = self.line_fault(&numbers) {
            return Err(LineError::Fault(fault));
        }
        let total = self.total + numbers.len();
        let line = line_of(alloc, &numbers)?;
        self.lines.push(line)?;
        self.total = total;
        self.rank = 4;
        Ok(())
    }

    /// Whether as many further lines, with as many points each, are too many.
    fn exceeds_with(&self, lines: usize, points: usize) -> bool
        requires { points ≤ MAX_LINE_POINTS }
        ensures limit { result ≡ (nat_lt MAX_LINES (length self.now.lines.items + lines)
            || nat_lt MAX_SUMMED_POINTS (self.now.total + lines * points)) }
    {
        lines > MAX_LINES
            || self.lines.len() + lines > MAX_LINES
            || self.total + lines * points > MAX_SUMMED_POINTS
    }

    /// Reads the arguments of a line with a shape, all of whose placements are lines.
    #[tactic(auto, unfolding(crate::specs::GameFile::keyed))]
    pub fn add_shape(&mut self, alloc: Global, arguments: &[&[u8]]) -> Result<(), LineError<Fault>>
        ensures { Becomes result (view self.new)
            (keyed (view self.old) keys.Shape (map (λ w. w.now) arguments.now)) }
    {
        if self.is_out_of_place(Key::Shape) {
            return Err(LineError::Fault(Fault::Order));
        }
        let [word] = arguments else {
            return Err(LineError::Fault(Fault::Arguments));
        };
        if ones(word) > self.longest() {
            return Err(LineError::Fault(Fault::Length));
        }
        let shape = match Shape::read(alloc, word) {
            Ok(shape) => shape,
            Err(ShapeFault::Large) => unreachable!(),
            Err(ShapeFault::Form) => return Err(LineError::Fault(Fault::Shape)),
            Err(ShapeFault::Memory) => return Err(LineError::Memory),
        };
        let Some(grid) = self.grid else {
            unreachable!()
        };
        let mut lines = placed(alloc, grid, &shape)?;
        let points = shape.as_slice().len();
        if self.exceeds_with(lines.len(), points) {
            return Err(LineError::Fault(Fault::Limit));
        }
        let total = self.total + lines.len() * points;
        self.lines.append(&mut lines)?;
        self.total = total;
        self.rank = 4;
        Ok(())
    }

    /// Reads the arguments of a line with the ends of an edge.
    #[tactic(auto, unfolding(crate::specs::GameFile::keyed, pg_text::specs::Text::numbers))]
    pub fn add_edge(&mut self, arguments: &[&[u8]]) -> Result<(), LineError<Fault>>
        ensures { Becomes result (view self.new)
            (keyed (view self.old) keys.Edge (map (λ w. w.now) arguments.now)) }
    {
        if self.is_out_of_place(Key::Edge) {
            return Err(LineError::Fault(Fault::Order));
        }
        let Some((a, b)) = two_numbers(arguments) else {
            return Err(LineError::Fault(Fault::Arguments));
        };
        let vertices = u32::from(self.vertices);
        if a >= vertices || b >= vertices {
            return Err(LineError::Fault(Fault::Range));
        }
        if self.ends.len() >= usize::from(MAX_EDGES) {
            return Err(LineError::Fault(Fault::Limit));
        }
        self.ends.push((a as u16, b as u16))?;
        self.rank = 4;
        Ok(())
    }
}
