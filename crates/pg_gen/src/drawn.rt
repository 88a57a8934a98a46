//! Lines that are drawn by a seed.
ghost use Rattle.std.specs.Prelude.{◌≡◌, ◌↔◌, ◌≤◌, ◌<◌, ◌*◌, ◌^◌, ◌&&◌, IfOk, Err, false, length};
ghost use Rattle.std.specs.Prelude.{fold};
ghost use Rattle.pg_gen.specs.Prelude.{IsPermutation, StandsTwice, IsLineOfRow};
ghost use Rattle.pg_gen.specs.Rows.{below};
ghost use Rattle.pg_gen.specs.Scatter.{AreDrawn, IsDrawn, IsScatterGame, has_scatter, mixed};
ghost use Rattle.pg_gen.specs.Scatter.{next_state};

use crate::fault::GenFault;
use crate::limits::MAX_SEED;
use pg_base::{Kind, Line, LineFault, Lines, Memory, PointSet, Side};
use pg_game::{Field, Game, LineField, MAX_LINE_POINTS, MAX_LINES, MAX_POINTS, MAX_SUMMED_POINTS};
use std::alloc::Global;

/// What a state is divided by for the number that is drawn: its lower bits recur soon.
pub const DRAW_DIVISOR: u32 = 65_536;

/// The state after a draw.
#[tactic(auto, unfolding(crate::specs::Scatter::next_state))]
pub(crate) fn next_state(state: u32) -> u32
    requires { state < 2 ^ 31 }
    ensures value { result ≡ next_state state }
    ensures small { result < 2 ^ 31 }
{
    ((u64::from(state) * 1_103_515_245 + 12_345) % 2_147_483_648) as u32
}

/// The numbers below n.
fn first_points(alloc: Global, n: u16) -> Result<Vec<u16>, Memory>
    ensures { IfOk result (λ points. points.items ≡ below n) }
{
    let mut points = Vec::new(alloc);
    for i in 0..n {
        points.push(i)?;
    }
    Ok(points)
}

/// Mixes the first k places, and gives the state after it.
fn mix(points: &mut [u16], k: usize, state: u32) -> u32
    requires few { k ≤ length points.old }
    requires small { state < 2 ^ 31 }
    ensures mixed { fold (mixed (length points.old)) (record {
      points = points.old;
      state = state;
    }) (below k) ≡ record { points = points.new; state = result } }
    ensures moved { IsPermutation points.old points.new }
    ensures small { result < 2 ^ 31 }
{
    let n = points.len();
    let mut state = state;
    for i in 0..k {
        state = next_state(state);
        points.swap(i, i + (state / DRAW_DIVISOR) as usize % (n - i));
    }
    state
}

/// The line of these points, which are different.
fn line_of(alloc: Global, row: &[u16]) -> Result<Line, Memory>
    requires { ¬ StandsTwice row.now }
    ensures { IfOk result (λ line. IsLineOfRow row.now line) }
{
    match Line::new(alloc, row) {
        Ok(line) => Ok(line),
        Err(LineFault::Memory) => Err(Memory),
        Err(LineFault::Repeated) => unreachable!(),
    }
}

/// A line of k points, of n in all, and the state after it.
fn draw(alloc: Global, n: u16, k: usize, state: u32) -> Result<(Line, u32), Memory>
    requires small { state < 2 ^ 31 }
    requires some { 1 ≤ k }
    requires few { k ≤ n }
    requires short { k ≤ MAX_LINE_POINTS }
    ensures { IfOk result (λ drawn. IsDrawn n k state drawn.0 drawn.1) }
{
    let mut points = first_points(alloc, n)?;
    let after = mix(&mut points, k, state);
    let line = line_of(alloc, &points[..k])?;
    Ok((line, after))
}

/// Lines of k points each, of n in all.
fn drawn_lines(alloc: Global, seed: u32, n: u16, m: u32, k: usize) -> Result<Vec<Line>, Memory>
    requires small { seed < 2 ^ 31 }
    requires some { 1 ≤ k }
    requires few { k ≤ n }
    requires short { k ≤ MAX_LINE_POINTS }
    ensures { IfOk result (λ lines. AreDrawn seed n m k lines.items) }
{
    let mut state = seed;
    let mut lines = Vec::new(alloc);
    for _ in 0..m {
        let (line, after) = draw(alloc, n, k, state)?;
        lines.push(line)?;
        state = after;
    }
    Ok(lines)
}

/// Whether the numbers are within their ranges.
fn has_scatter(seed: u32, n: u32, m: u32, k: u32) -> bool
    ensures { result ≡ has_scatter seed n m k }
{
    seed <= MAX_SEED
        && (1..=MAX_POINTS as u32).contains(&n)
        && m <= MAX_LINES as u32
        && (1..=n.min(MAX_LINE_POINTS as u32)).contains(&k)
        && m * k <= MAX_SUMMED_POINTS as u32
}

/// Maker-Breaker on n points and m lines of k points each, which are drawn by the seed, with X to
/// move.
///
/// # Errors
///
/// `Range` exactly where the seed isn't below 2^31, n isn't 1 to 256, m isn't 0 to 20,000, k isn't
/// 1 to the lesser of n and 100, or the lines have more than 400,000 points together; and `Memory`
/// where no memory is found.
pub fn scatter(alloc: Global, seed: u32, n: u32, m: u32, k: u32) -> Result<Game, GenFault>
    ensures game { IfOk result (λ g. IsScatterGame seed n m k g) }
    ensures range { (result ≡ Err GenFault.Range) ↔ (has_scatter seed n m k ≡ false) }
{
    if !has_scatter(seed, n, m, k) {
        return Err(GenFault::Range);
    }
    let n = n as u16;
    let Ok(lines) = drawn_lines(alloc, seed, n, m, k as usize) else {
        return Err(GenFault::Memory);
    };
    let field = LineField {
        points: n,
        grid: None,
        lines: Lines::from_vec(lines),
    };
    let made = Game::new(
        Kind::MakerBreaker,
        Field::Lines(field),
        PointSet::empty(),
        PointSet::empty(),
        Side::X,
        1,
    );
    match made {
        Ok(game) => Ok(game),
        Err(_) => unreachable!(),
    }
}
