//! Values backed up along a plan.
ghost use Rattle.std.specs.Prelude.{◌≡◌, ℕ, IfOk, None, get_or};
ghost use Rattle.std.specs.FinSet.{contains};
ghost use Rattle.pg_backing.specs.Backed.{AreSpansOf, best_from, by_moves, chosen, has_all_moves};
ghost use Rattle.pg_backing.specs.Backed.{is_moved, known_of, own_span, span_at, span_by};
ghost use Rattle.pg_backing.specs.Backed.{with_next};
ghost use Rattle.pg_backing.specs.declared.report.Own.TheVariants.{Nothing};

use crate::board::may_take;
use crate::report::Own;
use crate::span::{Span, greater, lesser};
use pg_base::{Memory, PointSet, Score, Side};
use pg_game::{Game, Position};
use pg_plan::{Place, Step};
use std::alloc::Global;

/// A plan, the position of each of its numbers, and what is known of it.
#[derive(Clone, Copy, Debug)]
pub struct View<'a> {
    /// The game that was split.
    pub game: &'a Game,
    /// The positions of the plan.
    pub plan: &'a [Place],
    /// Where they are in the game.
    pub positions: &'a [Option<Position>],
    /// What is known of each by itself.
    pub own: &'a [Own],
    /// What is known of each value, for the first numbers.
    pub spans: &'a [Span],
}

/// The span of all values, where the side to move chooses among positions.
#[derive(Clone, Copy, Debug)]
struct Best {
    turn: Side,
    span: Option<Span>,
}

impl Best {
    /// Adds a position to those among which the side chooses.
    fn add(&mut self, next: Span)
        ensures turn { self.new.turn ≡ self.old.turn }
        ensures span { self.new.span ≡ with_next self.old.turn self.old.span next }
    {
        self.span = match (self.span, self.turn) {
            (None, _) => Some(next),
            (Some(span), Side::X) => Some(Span {
                low: greater(span.low, next.low),
                high: greater(span.high, next.high),
            }),
            (Some(span), Side::Y) => Some(Span {
                low: lesser(span.low, next.low),
                high: lesser(span.high, next.high),
            }),
        };
    }

    /// Returns what is known of the value, where all moves were added or some weren't.
    fn end(self, all: bool) -> Span
        ensures { result ≡ chosen self.turn self.span all }
    {
        match (self.span, self.turn) {
            (None, _) => Span::open(),
            (Some(span), _) if all => span,
            (Some(span), Side::X) => Span {
                low: span.low,
                high: Score::XWins,
            },
            (Some(span), Side::Y) => Span {
                low: Score::YWins,
                high: span.high,
            },
        }
    }
}

/// Returns the points of the moves that may be taken.
fn points_of(game: &Game, position: &Position, steps: &[Step]) -> PointSet
    ensures { (v : ℕ) → contains result v ≡ is_moved game.now position.now steps.now v }
{
    let mut points = PointSet::empty();
    for step in steps {
        if may_take(game, position, step.point) {
            points.put(step.point);
        }
    }
    points
}

/// Returns whether each free point is that of a move.
fn has_all_moves(game: &Game, position: &Position, steps: &[Step]) -> bool
    ensures { result ≡ has_all_moves game.now position.now steps.now }
{
    let free = game.free_points(position);
    free.is_subset(&points_of(game, position, steps))
}

/// Returns what is known of a value by itself.
fn own_span(own: Own) -> Span
    ensures { result ≡ own_span own }
{
    match own {
        Own::Says(span) => span,
        Own::Nothing | Own::Lacks(_) => Span::open(),
    }
}

impl<'a> View<'a> {
    /// Returns what is known of the value of the position of this number.
    pub fn span(&self, i: usize) -> Span
        ensures { result ≡ known_of self.now.spans.now i }
    {
        if i < self.spans.len() {
            self.spans[i]
        } else {
            Span::open()
        }
    }

    /// Returns the position of this number, if a way leads to it.
    pub fn position(&self, i: usize) -> Option<Position>
        ensures { result ≡ get_or self.now.positions.now i None }
    {
        if i < self.positions.len() {
            self.positions[i]
        } else {
            None
        }
    }

    /// Returns what is known by itself of the position of this number.
    pub fn own(&self, i: usize) -> Own
        ensures { result ≡ get_or self.now.own.now i Nothing }
    {
        if i < self.own.len() {
            self.own[i]
        } else {
            Own::Nothing
        }
    }

    /// Returns the span of the best value after the moves that may be taken.
    fn best_of(&self, position: &Position, steps: &[Step]) -> Best
        ensures turn { result.turn ≡ position.now.turn }
        ensures span { result.span
            ≡ best_from self.now.game.now position.now self.now.spans.now None steps.now }
    {
        let mut best = Best {
            turn: position.turn,
            span: None,
        };
        for step in steps {
            if may_take(self.game, position, step.point) {
                best.add(self.span(step.place as usize));
            }
        }
        best
    }

    /// Returns what the moves make known of the value of a position. If one isn't in the plan, the
    /// side to move may do better.
    fn by_steps(&self, position: &Position, steps: &[Step]) -> Span
        ensures { result ≡ by_moves self.now.game.now position.now self.now.spans.now steps.now }
    {
        let best = self.best_of(position, steps);
        best.end(has_all_moves(self.game, position, steps))
    }

    /// Returns what is known of the value of a position of this place, by itself and by those of
    /// lower numbers.
    fn span_by(&self, own: Own, place: &Place, position: &Position) -> Span
        ensures { result
            ≡ span_by self.now.game.now self.now.spans.now own place.now position.now }
    {
        match place {
            Place::Decided => own_span(own),
            Place::Image { place, .. } => self.span(*place as usize),
            Place::Game { steps, .. } => {
                own_span(own).meet(self.by_steps(position, steps.as_slice()))
            }
            Place::Moves(steps) => self.by_steps(position, steps.as_slice()),
        }
    }

    /// Returns what is known of the value of the position of number `i`, by itself and by those of
    /// lower numbers.
    fn span_at(&self, i: usize, place: &Place) -> Span
        ensures { result ≡ span_at self.now.game.now self.now.spans.now
            (get_or self.now.own.now i Nothing) place.now (get_or self.now.positions.now i None) }
    {
        match self.position(i) {
            Some(position) => self.span_by(self.own(i), place, &position),
            None => own_span(self.own(i)),
        }
    }
}

/// Returns what is known of the value of each position of a plan.
pub fn spans_of(
    alloc: Global,
    game: &Game,
    plan: &[Place],
    positions: &[Option<Position>],
    own: &[Own],
) -> Result<Vec<Span>, Memory>
    ensures { IfOk result
        (λ spans. AreSpansOf game.now plan.now positions.now own.now spans.items) }
{
    let mut spans = Vec::with_capacity(alloc, plan.len())?;
    for i in 0..plan.len() {
        let view = View {
            game,
            plan,
            positions,
            own,
            spans: spans.as_slice(),
        };
        let next = view.span_at(i, &plan[i]);
        spans.push(next)?;
    }
    Ok(spans)
}
