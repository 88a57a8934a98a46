//! Boards.
ghost use Rattle.std.specs.Prelude.{◌≡◌, ◌≢◌, ◌<◌, ◌≤◌, ◌+◌, ◌*◌, ◌^◌, ◌++◌, ◌∷◌, [], true, length};
ghost use Rattle.std.specs.Prelude.{get_or, nat_lt, ℕ, false, IfOk, IfSome, IfNone};
ghost use Rattle.pg_board.specs.Prelude.{Contains, find, slice_get, ShareNone, other, Switching};
ghost use Rattle.pg_board.specs.Prelude.{is_free, point_count, lines_of, free_points, after};
ghost use Rattle.pg_board.specs.Prelude.{IsPosition, is_over, outcome, is_near, total, weight};
ghost use Rattle.pg_board.specs.Prelude.{greatest_weight, potential_holds, avoider_total};
ghost use Rattle.pg_board.specs.Prelude.{avoider_weight, avoider_holds};
ghost use Rattle.pg_game.specs.Decided.{by_end, defends};
ghost use Rattle.pg_board.specs.Board.{line_at, degree, count_of, live_lines, live_with};
ghost use Rattle.pg_board.specs.Near.{IsNearest, NoneNear};
ghost use Rattle.pg_board.specs.Passing.{IsPassed};
ghost use Rattle.pg_board.specs.Shape.{lines_holding};

use crate::decided::{self, has_filled};
use crate::layout::Layout;
use crate::opening::{blank_trail, open_marks, turn_code};
use crate::plays::{Played, play_point, undo_play};
use crate::points::{free_point, hand_over, is_unmarked, left, marked, turn};
use crate::rings::{Rings, whole_rings};
use crate::totals;
use pg_base::{Kind, Memory, Score, Side};
use pg_game::{Game, MAX_POINTS, Position, at_least, defender, is_over_by, outcome_by};
use pg_undo::Trail;
use std::alloc::Global;
use std::marker::Model;

/// A board of a game on lines, on which moves are played and taken back.
#[derive(Debug, Drop)]
pub struct Board<'a> {
    game: &'a Game,
    layout: Layout,
    trail: Trail,
    rings: Rings,
    /// The plays that stand, the last at the end.
    plays: Vec<Played>,
}

/// The game, how the board stands, and how it stood before each play that was not taken back.
impl<'a> Model for Board<'a> {
    ghost use Rattle.std.specs.Prelude.{reverse};
    ghost use Rattle.std.specs.Vec.{vec_capacity};
    ghost use Rattle.pg_board.specs.Board.{View};
    ghost use Rattle.pg_board.specs.Fits.{stand_of, earlier_of, IsBoard};
    ghost use Rattle.pg_board.specs.ViewCode.{view_code};

    ghost Value = { View };

    ghost coded = { view_code };

    ghost view = { λ a. record {
      game = a.game.now;
      stand = stand_of a.layout a.trail;
      earlier = earlier_of a.layout a.trail (reverse a.plays.items);
    } };

    ghost invariant = { λ a. IsBoard a.game.now a.layout a.trail a.rings.live_x
        a.rings.live_y a.rings.free (reverse a.plays.items) (vec_capacity a.plays) };
}

impl<'a> Board<'a> {
    /// The board of a game on lines at a position. It reserves room for the whole game.
    ///
    /// # Errors
    ///
    /// `Memory` where no memory is found.
    pub fn open(alloc: Global, g: &'a Game, p: &Position) -> Result<Board<'a>, Memory>
        requires lines { g.now.kind ≢ Switching }
        requires position { IsPosition g.now p.now }
        ensures game { IfOk result (λ b. b.game ≡ g.now) }
        ensures position { IfOk result (λ b. b.stand.position ≡ p.now) }
        ensures entries { IfOk result (λ b. b.stand.trail.entries ≡ []) }
        ensures earlier { IfOk result (λ b. b.earlier ≡ []) }
    {
        let layout = Layout::of_game(alloc, g)?;
        let mut trail = blank_trail(alloc, &layout)?;
        let plays = Vec::with_capacity(alloc, usize::from(layout.points()))?;
        let mut rings = whole_rings(alloc, &layout)?;
        open_marks(&layout, g.bias, &mut trail, &mut rings, p);
        trail.set(0, turn_code(p.turn, p.left));
        trail.settle();
        Ok(Board {
            game: g,
            layout,
            trail,
            rings,
            plays,
        })
    }

    /// Plays the point for the side to move. It takes no memory.
    pub fn play(&mut self, v: u16)
        requires range { v < point_count self.old.game }
        requires free { is_free self.old.stand.position v ≡ true }
        ensures game { self.new.game ≡ self.old.game }
        ensures position { self.new.stand.position ≡ after self.old.game self.old.stand.position v }
        ensures earlier { self.new.earlier ≡ self.old.earlier ++ self.old.stand ∷ [] }
        ensures entries { length self.new.stand.trail.entries
            ≤ length self.old.stand.trail.entries + (2 + 4 * degree self.old.game v) }
    {
        let level = self.trail.level();
        play_point(
            &self.layout,
            self.game.bias,
            &mut self.trail,
            &mut self.rings,
            v,
        );
        let Ok(()) = self.plays.push(Played { point: v, level }) else {
            unreachable!()
        };
    }

    /// Takes back the last play that stands. It takes no memory.
    pub fn undo(&mut self)
        requires { 1 ≤ length self.old.earlier }
        ensures game { self.new.game ≡ self.old.game }
        ensures earlier { self.old.earlier ≡ self.new.earlier ++ self.new.stand ∷ [] }
    {
        let Some(play) = self.plays.pop() else {
            unreachable!()
        };
        undo_play(
            &self.layout,
            self.game.bias,
            &mut self.trail,
            &mut self.rings,
            play,
        );
    }

    /// Passes the turn: the other side is to move, where each claims one point a turn, and nothing
    /// else changes. Passed once more, the board stands as before. It takes no memory.
    pub fn pass(&mut self)
        requires { self.old.game.bias ≡ 1 }
        ensures { IsPassed self.old self.new }
    {
        hand_over(&mut self.trail);
    }

    /// How many plays stand.
    pub fn plays(&self) -> usize
        ensures { result ≡ length self.now.earlier }
    {
        self.plays.len()
    }

    /// The number of entries of the trail.
    pub fn trail_len(&self) -> usize
        ensures { result ≡ length self.now.stand.trail.entries }
    {
        self.trail.level()
    }

    /// The position.
    pub fn position(&self) -> Position
        ensures exact { result ≡ self.now.stand.position }
        ensures fits { IsPosition self.now.game result }
    {
        let left = left(&self.trail);
        Position {
            x: marked(&self.layout, &self.trail, Side::X),
            y: marked(&self.layout, &self.trail, Side::Y),
            turn: turn(&self.trail),
            left,
        }
    }

    /// The side to move, in a few steps.
    pub fn turn(&self) -> Side
        ensures { result ≡ self.now.stand.position.turn }
    {
        turn(&self.trail)
    }

    /// Whether the point is free, in a few steps.
    pub fn is_free(&self, v: u16) -> bool
        requires { v < point_count self.now.game }
        ensures { result ≡ is_free self.now.stand.position v }
    {
        is_unmarked(&self.layout, &self.trail, v)
    }

    /// The kind of the game.
    pub fn kind(&self) -> Kind
        ensures exact { result ≡ self.now.game.kind }
        ensures lines { result ≢ Switching }
    {
        self.game.kind
    }

    /// The game.
    pub fn game(&self) -> &'a Game
        ensures { result.now ≡ self.now.game }
    {
        self.game
    }

    /// How many lines there are.
    pub fn lines(&self) -> u32
        ensures { result ≡ length (lines_of self.now.game) }
    {
        self.layout.lines()
    }

    /// How many points the line has.
    pub fn line_len(&self, line: u32) -> u16
        requires { line < length (lines_of self.now.game) }
        ensures { result ≡ length (line_at self.now.game line) }
    {
        self.layout.line_len(line) as u16
    }

    /// The point of the line at a place, ascending.
    pub fn line_point(&self, line: u32, i: u16) -> u16
        requires range { line < length (lines_of self.now.game) }
        requires place { i < length (line_at self.now.game line) }
        ensures exact { result ≡ get_or (line_at self.now.game line) i 0 }
        ensures few { result < MAX_POINTS }
    {
        let points = self.layout.line(line);
        points[usize::from(i)] as u16
    }

    /// The lines through the point, ascending.
    pub fn through(&self, v: u16) -> &[u32]
        requires { v < point_count self.now.game }
        ensures { result.now ≡ lines_holding (lines_of self.now.game) v }
    {
        self.layout.through(v)
    }

    /// How many points of the line the side has.
    pub fn count(&self, line: u32, side: Side) -> u16
        requires { line < length (lines_of self.now.game) }
        ensures { result ≡ count_of self.now.game self.now.stand.position side line }
    {
        self.trail.get(self.layout.count_cell(side, line)) as u16
    }

    /// The first line without a point of the side, and None where there is none.
    pub fn first_live(&self, side: Side) -> Option<u32>
        ensures line { result
            ≡ slice_get (live_lines self.now.game self.now.stand.position side) 0 }
        ensures disjoint { ShareNone self.now.stand.position.x self.now.stand.position.y }
        ensures fits { IsPosition self.now.game self.now.stand.position }
    {
        match side {
            Side::X => self.rings.live_x.first(),
            Side::Y => self.rings.live_y.first(),
        }
    }

    /// The next line without a point of the side after such a line, and None at the last one.
    pub fn next_live(&self, side: Side, line: u32) -> Option<u32>
        requires { Contains (live_lines self.now.game self.now.stand.position side) line }
        ensures { result
            ≡ find (nat_lt line) (live_lines self.now.game self.now.stand.position side) }
    {
        match side {
            Side::X => self.rings.live_x.next(line),
            Side::Y => self.rings.live_y.next(line),
        }
    }

    /// The first free point, and None where there is none.
    pub fn first_free(&self) -> Option<u16>
        ensures { result ≡ slice_get (free_points self.now.game self.now.stand.position) 0 }
    {
        point_of(self.rings.free.first())
    }

    /// The next free point after a free point, and None at the last one.
    pub fn next_free(&self, v: u16) -> Option<u16>
        requires { Contains (free_points self.now.game self.now.stand.position) v }
        ensures { result ≡ find (nat_lt v) (free_points self.now.game self.now.stand.position) }
    {
        point_of(self.rings.free.next(u32::from(v)))
    }

    /// How many points are free, in a few steps.
    pub fn free_count(&self) -> u16
        ensures { result ≡ length (free_points self.now.game self.now.stand.position) }
    {
        self.rings.free.len() as u16
    }

    /// How many lines without a point of the side have so many free points, in a few steps.
    pub fn live_with(&self, side: Side, free: u16) -> u32
        ensures { result ≡ live_with self.now.game self.now.stand.position side free }
    {
        if free > self.layout.longest() {
            return 0;
        }
        totals::live_with(&self.layout, &self.trail, side, free)
    }

    /// How many lines have no point of the side, in a few steps.
    pub fn live_count(&self, side: Side) -> u32
        ensures { result ≡ length (live_lines self.now.game self.now.stand.position side) }
    {
        match side {
            Side::X => self.rings.live_x.len(),
            Side::Y => self.rings.live_y.len(),
        }
    }

    /// The sum of the weights of the lines without a point of the side, in time of the longest
    /// line.
    ///
    /// A line weighs `1 + q` to the power of the greatest length of a line less its free points,
    /// where Y claims q points a turn.
    pub fn total(&self, side: Side) -> u128
        ensures { result ≡ total self.now.game self.now.stand.position side }
    {
        let base = 1 + u128::from(self.game.bias);
        totals::total(&self.layout, &self.trail, side, base)
    }

    /// The sum of the weights of those lines through a point.
    pub fn weight(&self, side: Side, v: u16) -> u128
        requires { v < point_count self.now.game }
        ensures { result ≡ weight self.now.game self.now.stand.position side v }
    {
        let base = 1 + u128::from(self.game.bias);
        totals::weight(&self.layout, &self.trail, side, base, v)
    }

    /// The greatest weight of a free point, and 0 where none is free.
    pub fn greatest_weight(&self, side: Side) -> u128
        ensures { result ≡ greatest_weight self.now.game self.now.stand.position side }
    {
        let base = 1 + u128::from(self.game.bias);
        totals::greatest_weight(&self.layout, &self.trail, side, base)
    }

    /// Avoider's total: the lines without a point of Y weigh 2 to the power of the greatest length
    /// of a line less their free points.
    pub fn avoider_total(&self) -> u128
        ensures { result ≡ avoider_total self.now.game self.now.stand.position }
    {
        totals::total(&self.layout, &self.trail, Side::Y, 2)
    }

    /// The sum of Avoider's weights of the lines through a point.
    pub fn avoider_weight(&self, v: u16) -> u128
        requires { v < point_count self.now.game }
        ensures { result ≡ avoider_weight self.now.game self.now.stand.position v }
    {
        totals::weight(&self.layout, &self.trail, Side::Y, 2, v)
    }

    /// Whether the potential is low enough for the side.
    pub fn potential_holds(&self, side: Side) -> bool
        ensures { result ≡ potential_holds self.now.game self.now.stand.position side }
    {
        decided::potential_holds(&self.layout, &self.trail, self.game.bias, side)
    }

    /// Whether Avoider's potential is low enough.
    pub fn avoider_holds(&self) -> bool
        ensures { result ≡ avoider_holds self.now.game self.now.stand.position }
    {
        decided::avoider_holds(&self.layout, &self.trail, self.game.bias, self.free_count())
    }

    /// Whether the potential of the kind holds for the side that defends where it is asked whether
    /// X reaches the score.
    pub fn defends(&self, wanted: Score) -> bool
        ensures { result ≡ defends self.now.game.kind self.now.game wanted self.now.stand.position }
    {
        match self.game.kind {
            Kind::MakerBreaker => self.potential_holds(Side::Y),
            Kind::MakerMaker => self.potential_holds(defender(Kind::MakerMaker, wanted)),
            Kind::AvoiderEnforcer => self.avoider_holds(),
            Kind::Switching => false,
        }
    }

    /// Whether the game is over. It takes a few steps, however many lines there are.
    pub fn is_over(&self) -> bool
        ensures { result ≡ is_over self.now.game self.now.stand.position }
    {
        is_over_by(
            self.game.kind,
            has_filled(&self.layout, &self.trail, Side::X),
            has_filled(&self.layout, &self.trail, Side::Y),
            self.first_live(Side::Y).is_none(),
            self.first_free().is_none(),
        )
    }

    /// The outcome of a game that is over.
    pub fn outcome(&self) -> Score
        ensures { result ≡ outcome self.now.game self.now.stand.position }
    {
        outcome_by(
            self.game.kind,
            has_filled(&self.layout, &self.trail, Side::X),
            has_filled(&self.layout, &self.trail, Side::Y),
        )
    }

    /// Where the game is over, whether its outcome is at least the score.
    pub fn by_end(&self, wanted: Score) -> Option<bool>
        ensures { result ≡ by_end self.now.game wanted self.now.stand.position }
    {
        if self.is_over() {
            Some(at_least(wanted, self.outcome()))
        } else {
            None
        }
    }

    /// The lowest line whose points are all the side's but one free one, with that point, and None
    /// exactly where there is none. It walks the lines without a point of the other side.
    pub fn near(&self, side: Side) -> Option<(u32, u16)>
        ensures found { IfSome result
            (λ n. IsNearest self.now.game self.now.stand.position side n.0 n.1) }
        ensures none { IfNone result
            (NoneNear self.now.game self.now.stand.position side
            (length (lines_of self.now.game))) }
    {
        let enemy = side.other();
        let mut next = self.first_live(enemy);
        while let Some(line) = next {
            if let Some(v) = self.last_point(line, side) {
                return Some((line, v));
            }
            next = self.next_live(enemy, line);
        }
        None
    }

    /// The free point of a line without a point of the other side, where all its other points are
    /// the side's.
    fn last_point(&self, line: u32, side: Side) -> Option<u16>
        requires range { line < length (lines_of self.now.game) }
        requires live { Contains (live_lines self.now.game self.now.stand.position (other side))
            line }
        ensures found { IfSome result
            (λ v. is_near self.now.stand.position side (line_at self.now.game line) v ≡ true) }
        ensures none { IfNone result
            ((u : ℕ)
            → is_near self.now.stand.position side (line_at self.now.game line) u ≡ false) }
    {
        let len = self.layout.line(line).len();
        if usize::from(self.count(line, side)) + 1 != len {
            return None;
        }
        free_point(&self.layout, &self.trail, line)
    }
}

/// The same number as a point.
fn point_of(v: Option<u32>) -> Option<u16>
    requires { IfSome v (λ x. x < 2 ^ 16) }
    ensures { result ≡ v }
{
    match v {
        Some(x) => Some(x as u16),
        None => None,
    }
}
