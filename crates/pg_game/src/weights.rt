//! The weights of lines and points.
ghost use Rattle.std.specs.Prelude.{◌≡◌, ◌≢◌, ℕ, ◌+◌, ◌^◌, ◌<◌, ◌≤◌, ◌==◌, ◌&&◌, length, get_or};
ghost use Rattle.std.specs.Prelude.{unwrap_or, if◌then◌else◌, ◌||◌};
ghost use Rattle.pg_game.specs.Prelude.{All, contains, find, IsStrictlyIncreasing, Switching};
ghost use Rattle.pg_game.specs.Position.{is_free};
ghost use Rattle.pg_game.specs.Game.{free_points};
ghost use Rattle.pg_game.specs.Potential.{greatest_length, is_on, line_weight, total_weight};
ghost use Rattle.pg_game.specs.Potential.{full_weight, IsBaseOf};
ghost use Rattle.pg_game.specs.Weights.{AreWeights};

use crate::bounds::{MAX_LINE_POINTS, MAX_POINTS};
use crate::game::Game;
use crate::position::Position;
use pg_base::{Line, PointSet};

/// The weights at a position: of all lines together, and for each point of those through it.
#[derive(Debug, Drop)]
pub struct Weights {
    /// The sum of the weights of all lines.
    pub total: u128,
    /// For each point the sum of the weights of the lines through it, and 0 beyond the points of
    /// the game.
    pub points: [u128; MAX_POINTS],
}

/// The greatest length of a line, and 0 where there is none.
pub fn greatest_length(lines: &[Line]) -> usize
    ensures { result ≡ greatest_length lines.now }
{
    let mut longest = 0;
    for line in lines {
        let len = line.len();
        if len > longest {
            longest = len;
        }
    }
    longest
}

/// The base to the power of the exponent; at once where the base is 2.
fn power(base: u128, exponent: usize) -> u128
    requires some { 1 ≤ base }
    requires few { exponent ≤ MAX_LINE_POINTS }
    requires fits { base ^ exponent ≤ 2 ^ MAX_LINE_POINTS }
    ensures { result ≡ base ^ exponent }
{
    if base == 2 {
        1 << exponent
    } else {
        base.pow(exponent as u32)
    }
}

/// The points that a side has, and those of the set.
fn marked_with(p: &Position, own: &PointSet) -> PointSet
    ensures { (v : ℕ)
        → contains result v ≡ ((contains p.now.x v || contains p.now.y v) || contains own.now v) }
{
    p.x.union(&p.y).union(own)
}

/// The weight of a line: 0 where it has one of the points, else the base to the power of `longest`
/// less its free points. It takes one walk over the line, up to the first of the points. A point
/// that isn't `marked` is free with one look.
fn line_weight(
    base: u128,
    longest: usize,
    own: &PointSet,
    p: &Position,
    marked: &PointSet,
    line: &Line,
) -> u128
    requires range { All (λ v. v < MAX_POINTS) line.now }
    requires some { 1 ≤ base }
    requires few { longest ≤ MAX_LINE_POINTS }
    requires short { length line.now ≤ longest }
    requires fits { base ^ longest ≤ 2 ^ MAX_LINE_POINTS }
    requires marks { (v : ℕ)
        → contains marked.now v
        ≡ ((contains p.now.x v || contains p.now.y v) || contains own.now v) }
    ensures { result ≡ line_weight base longest own.now p.now line.now }
{
    let mut free = 0;
    for v in line.as_slice() {
        if !marked.has(*v) {
            free += 1;
        } else if own.has(*v) {
            return 0;
        }
    }
    power(base, longest - free)
}

/// Adds the weight to that of each point of the line.
fn add_weight(points: &mut [u128; MAX_POINTS], line: &Line, weight: u128)
    requires range { All (λ v. v < MAX_POINTS) line.now }
    requires ascending { IsStrictlyIncreasing line.now }
    requires count { length points.old ≡ MAX_POINTS }
    requires fits { (v : ℕ) → v < MAX_POINTS → get_or points.old v 0 + weight < 2 ^ 128 }
    ensures count { length points.new ≡ MAX_POINTS }
    ensures added { (v : ℕ) → v < MAX_POINTS
        → get_or points.new v 0 ≡ get_or points.old v 0 + (if is_on v line.now then weight else 0) }
{
    for v in line.as_slice() {
        points[usize::from(*v)] += weight;
    }
}

/// The weights at a position to the given base, where a line with one of the points weighs nothing.
///
/// One walk over the lines: the time is linear in the points of all lines. It takes no memory.
pub fn weigh(g: &Game, base: u128, own: &PointSet, p: &Position) -> Weights
    requires { IsBaseOf base g.now }
    ensures { AreWeights base g.now own.now p.now result }
{
    let lines = g.lines();
    let longest = greatest_length(lines);
    let marked = marked_with(p, own);
    let mut total = 0;
    let mut points = [0; MAX_POINTS];
    for line in lines {
        let weight = line_weight(base, longest, own, p, &marked, line);
        total += weight;
        add_weight(&mut points, line, weight);
    }
    Weights { total, points }
}

/// The sum of the weights of all lines at a position to the given base, where a line with one of
/// the points weighs nothing.
///
/// One walk over the lines: the time is linear in the points of all lines. It takes no memory.
pub fn total_weight(g: &Game, base: u128, own: &PointSet, p: &Position) -> u128
    requires { IsBaseOf base g.now }
    ensures total { result ≡ total_weight base g.now own.now p.now }
    ensures few { result ≤ 2 ^ 115 }
{
    let lines = g.lines();
    let longest = greatest_length(lines);
    let marked = marked_with(p, own);
    let mut total = 0;
    for line in lines {
        total += line_weight(base, longest, own, p, &marked, line);
    }
    total
}

/// What a line without free points weighs.
pub fn full_weight(g: &Game, base: u128) -> u128
    requires { IsBaseOf base g.now }
    ensures { result ≡ full_weight base g.now }
{
    power(base, greatest_length(g.lines()))
}

/// Whether the point is free and has this weight.
fn has_weight(p: &Position, points: &[u128; MAX_POINTS], weight: u128, v: u16) -> bool
    requires count { length points.now ≡ MAX_POINTS }
    requires small { v < MAX_POINTS }
    ensures { result ≡ (is_free p.now v && get_or points.now v 0 == weight) }
{
    p.is_free(v) && points[usize::from(v)] == weight
}

/// The lowest free point of this weight, and 0 where there is none.
pub fn lowest_with(g: &Game, p: &Position, points: &[u128; MAX_POINTS], weight: u128) -> u16
    requires lines { g.now.kind ≢ Switching }
    requires count { length points.now ≡ MAX_POINTS }
    ensures { result
        ≡ unwrap_or (find (λ v. get_or points.now v 0 == weight) (free_points g.now p.now)) 0 }
{
    for v in 0..g.points() {
        if has_weight(p, points, weight, v) {
            return v;
        }
    }
    0
}
