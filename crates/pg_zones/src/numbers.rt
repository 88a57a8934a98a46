//! Proof and disproof numbers.
ghost use Rattle.std.specs.Prelude.{◌≤◌};

use pg_base::Side;
use pg_patterns::Numbers;

/// The number of a side that has lost.
pub(crate) const INFINITE: u32 = 1 << 30;

/// The greatest first number.
const MOST_FIRST: u32 = 4_000;

/// Returns the numbers of yes, that X wins, and of no, if the side is to move.
pub(crate) fn of_answers(numbers: Numbers, turn: Side) -> (u32, u32) {
    match turn {
        Side::X => (numbers.mover, numbers.waiter),
        Side::Y => (numbers.waiter, numbers.mover),
    }
}

/// Returns the logarithm of a number to the base 2, rounded down; 0 for 0.
fn logarithm(n: u128) -> u32
    ensures { result ≤ 127 }
{
    127u32.saturating_sub(n.leading_zeros())
}

/// Returns the square of a number, at most the greatest number of the type.
fn square(n: u128) -> u128 {
    n.saturating_mul(n)
}

/// Returns four times the logarithm of a number to the base 2, rounded to the nearest.
pub(crate) fn quarters(n: u32) -> u32
    ensures { result ≤ 64 }
{
    let eighth = square(square(square(u128::from(n))));
    (logarithm(eighth) + 1) / 2
}

/// Returns six times the logarithm of a number to the base 2, rounded down.
pub(crate) fn sixths(n: u32) -> u32
    ensures { result ≤ 127 }
{
    let n = u128::from(n);
    logarithm(square(n.saturating_mul(square(n))))
}

/// Returns eight times a ratio, rounded to the nearest: 1 to the greatest first number.
fn eightfold(above: u128, below: u128) -> u32
    ensures { result ≤ MOST_FIRST }
{
    if below == 0 {
        return MOST_FIRST;
    }
    let ratio = above.saturating_mul(8).saturating_add(below / 2) / below;
    ratio.max(1).min(u128::from(MOST_FIRST)) as u32
}

/// Returns the first numbers of a position whose lines weigh `total`; they weigh `first_total` at
/// the game's own position. The number of the side that must answer each move is greater by `more`.
pub(crate) fn first_numbers(total: u128, first_total: u128, turn: Side, more: u32) -> Numbers {
    let maker = eightfold(first_total, total);
    let breaker = eightfold(total, first_total);
    match turn {
        Side::X => Numbers {
            mover: maker,
            waiter: breaker.saturating_add(more),
        },
        Side::Y => Numbers {
            mover: breaker,
            waiter: maker.saturating_add(more),
        },
    }
}
