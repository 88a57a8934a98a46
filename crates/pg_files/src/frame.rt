//! Lines that say what a game is played on, and how: its kind, its points or vertices, and its
//! bias.
ghost use Rattle.std.specs.Prelude.{◌≡◌, ◌*◌, ◌≤◌, IfSome, map};
ghost use Rattle.pg_files.specs.declared.key.Key.TheVariants as keys;
ghost use Rattle.pg_files.specs.Prelude.{Becomes};
ghost use Rattle.pg_files.specs.GameFile.{keyed, grid_of};
ghost use Rattle.pg_files.specs.Views.{view};

use crate::draft::Draft;
use crate::fault::Fault;
use crate::key::Key;
use crate::parts::two_numbers;
use pg_base::{Grid, Kind};
use pg_game::{MAX_BIAS, MAX_POINTS, MAX_VERTICES};
use pg_text::{LineError, number};

impl Draft {
    /// Reads the arguments of a line with the kind of the game.
    #[tactic(auto, unfolding(crate::specs::GameFile::keyed))]
    pub fn add_kind(&mut self, arguments: &[&[u8]]) -> Result<(), LineError<Fault>>
        ensures { Becomes result (view self.new)
            (keyed (view self.old) keys.Kind (map (λ w. w.now) arguments.now)) }
    {
        let Some(word) = arguments.first() else {
            if self.is_out_of_place(Key::Kind) {
                return Err(LineError::Fault(Fault::Order));
            }
            return Err(LineError::Fault(Fault::Arguments));
        };
        let Some(kind) = Kind::from_word(word) else {
            return Err(LineError::Fault(Fault::Key));
        };
        if self.is_out_of_place(Key::Kind) {
            return Err(LineError::Fault(Fault::Order));
        }
        if arguments.len() != 1 {
            return Err(LineError::Fault(Fault::Arguments));
        }
        self.kind = Some(kind);
        self.rank = 1;
        Ok(())
    }

    /// Reads the arguments of a line with the number of points.
    #[tactic(auto, unfolding(crate::specs::GameFile::keyed, pg_text::specs::Text::numbers))]
    pub fn add_points(&mut self, arguments: &[&[u8]]) -> Result<(), LineError<Fault>>
        ensures { Becomes result (view self.new)
            (keyed (view self.old) keys.Points (map (λ w. w.now) arguments.now)) }
    {
        if self.is_out_of_place(Key::Points) {
            return Err(LineError::Fault(Fault::Order));
        }
        let [word] = arguments else {
            return Err(LineError::Fault(Fault::Arguments));
        };
        let Some(points) = number(word) else {
            return Err(LineError::Fault(Fault::Arguments));
        };
        if points < 1 || points > MAX_POINTS as u32 {
            return Err(LineError::Fault(Fault::Limit));
        }
        self.points = points as u16;
        self.rank = 2;
        Ok(())
    }

    /// Reads the arguments of a line with the width and the height of the grid.
    #[tactic(auto, unfolding(crate::specs::GameFile::keyed, pg_text::specs::Text::numbers))]
    pub fn add_grid(&mut self, arguments: &[&[u8]]) -> Result<(), LineError<Fault>>
        ensures { Becomes result (view self.new)
            (keyed (view self.old) keys.Grid (map (λ w. w.now) arguments.now)) }
    {
        if self.is_out_of_place(Key::Grid) {
            return Err(LineError::Fault(Fault::Order));
        }
        let Some((width, height)) = two_numbers(arguments) else {
            return Err(LineError::Fault(Fault::Arguments));
        };
        let Some(grid) = grid_of(width, height) else {
            return Err(LineError::Fault(Fault::Limit));
        };
        self.points = grid.width * grid.height;
        self.grid = Some(grid);
        self.rank = 2;
        Ok(())
    }

    /// Reads the arguments of a line with the number of vertices.
    #[tactic(auto, unfolding(crate::specs::GameFile::keyed, pg_text::specs::Text::numbers))]
    pub fn add_vertices(&mut self, arguments: &[&[u8]]) -> Result<(), LineError<Fault>>
        ensures { Becomes result (view self.new)
            (keyed (view self.old) keys.Vertices (map (λ w. w.now) arguments.now)) }
    {
        if self.is_out_of_place(Key::Vertices) {
            return Err(LineError::Fault(Fault::Order));
        }
        let [word] = arguments else {
            return Err(LineError::Fault(Fault::Arguments));
        };
        let Some(vertices) = number(word) else {
            return Err(LineError::Fault(Fault::Arguments));
        };
        if vertices < 2 || vertices > u32::from(MAX_VERTICES) {
            return Err(LineError::Fault(Fault::Limit));
        }
        self.vertices = vertices as u16;
        self.rank = 2;
        Ok(())
    }

    /// Reads the arguments of a line with the two terminals.
    #[tactic(auto, unfolding(crate::specs::GameFile::keyed, pg_text::specs::Text::numbers))]
    pub fn add_terminals(&mut self, arguments: &[&[u8]]) -> Result<(), LineError<Fault>>
        ensures { Becomes result (view self.new)
            (keyed (view self.old) keys.Terminals (map (λ w. w.now) arguments.now)) }
    {
        if self.is_out_of_place(Key::Terminals) {
            return Err(LineError::Fault(Fault::Order));
        }
        let Some((s, t)) = two_numbers(arguments) else {
            return Err(LineError::Fault(Fault::Arguments));
        };
        let vertices = u32::from(self.vertices);
        if s >= vertices || t >= vertices {
            return Err(LineError::Fault(Fault::Range));
        }
        if s == t {
            return Err(LineError::Fault(Fault::Terminals));
        }
        self.s = s as u16;
        self.t = t as u16;
        self.rank = 3;
        Ok(())
    }

    /// Reads the arguments of a line with the bias.
    #[tactic(auto, unfolding(crate::specs::GameFile::keyed, pg_text::specs::Text::numbers))]
    pub fn add_bias(&mut self, arguments: &[&[u8]]) -> Result<(), LineError<Fault>>
        ensures { Becomes result (view self.new)
            (keyed (view self.old) keys.Bias (map (λ w. w.now) arguments.now)) }
    {
        if self.is_out_of_place(Key::Bias) {
            return Err(LineError::Fault(Fault::Order));
        }
        let [word] = arguments else {
            return Err(LineError::Fault(Fault::Arguments));
        };
        let Some(bias) = number(word) else {
            return Err(LineError::Fault(Fault::Arguments));
        };
        if bias < 1 || bias > u32::from(MAX_BIAS) {
            return Err(LineError::Fault(Fault::Limit));
        }
        self.bias = bias as u8;
        self.rank = 3;
        Ok(())
    }
}

/// The grid with these sides, where it has 1 to 256 cells.
fn grid_of(width: u32, height: u32) -> Option<Grid>
    ensures grid { result ≡ grid_of width height }
    ensures few { IfSome result (λ g. g.width * g.height ≤ MAX_POINTS) }
{
    let cells = u64::from(width) * u64::from(height);
    if cells < 1 || cells > MAX_POINTS as u64 {
        return None;
    }
    Some(Grid {
        width: width as u16,
        height: height as u16,
    })
}
