//! Proof and disproof numbers.
ghost use Rattle.std.specs.Prelude.{◌≡◌, ◌≤◌};

use pg_base::Side;

/// The number of a side that has lost.
pub(crate) const INFINITE: u32 = 1 << 30;

/// The greatest first number.
const MOST_FIRST: u32 = 4_000;

/// What is known of a position.
#[derive(Clone, Copy, Debug, PartialEq, Eq)]
pub enum State {
    /// It was met, and no leaf decides it.
    Met,
    /// A leaf decides it.
    Leaf,
    /// It was expanded.
    Expanded,
    /// It was expanded, and the claimer's other moves were searched there and below.
    Widened,
}

/// How hard it seems to show that the answer is yes, and that it is no: 0 if it is so, and 2^30 if
/// it isn't.
#[derive(Clone, Copy, Debug, PartialEq, Eq)]
pub struct Numbers {
    /// For yes.
    pub proof: u32,
    /// For no.
    pub disproof: u32,
    /// How many nodes the tree has that shows the answer, if it is known, or else 0.
    pub size: u32,
    /// What is known of it.
    pub state: State,
}

impl Numbers {
    /// Returns those of a position that a leaf decides.
    pub fn leaf(answer: bool) -> Numbers
        ensures state { result.state ≡ State.Leaf }
        ensures size { result.size ≡ 1 }
    {
        let (proof, disproof) = if answer { (0, INFINITE) } else { (INFINITE, 0) };
        Numbers {
            proof,
            disproof,
            size: 1,
            state: State::Leaf,
        }
    }

    /// Returns the number that the side makes least.
    pub fn of(&self, side: Side) -> u32 {
        match side {
            Side::X => self.proof,
            Side::Y => self.disproof,
        }
    }

    /// Tests whether the position was expanded.
    pub fn is_expanded(&self) -> bool {
        match self.state {
            State::Met | State::Leaf => false,
            State::Expanded | State::Widened => true,
        }
    }

    /// Returns the answer if it is known.
    pub fn answer(&self) -> Option<bool> {
        if self.proof == 0 {
            return Some(true);
        }
        if self.disproof == 0 {
            return Some(false);
        }
        None
    }
}

/// Four times the logarithm of a number to the base 2, rounded down; 0 for 0.
pub(crate) fn quarters(n: u32) -> u32
    ensures { result ≤ 63 }
{
    let square = u64::from(n).saturating_mul(u64::from(n));
    let fourth = square.saturating_mul(square);
    63u32.saturating_sub(fourth.leading_zeros())
}

/// Eight times a ratio, rounded down: 1 to the greatest first number.
fn eightfold(above: u128, below: u128) -> u32
    ensures least { 1 ≤ result }
    ensures most { result ≤ MOST_FIRST }
{
    if below == 0 {
        return MOST_FIRST;
    }
    let ratio = above.saturating_mul(8) / below;
    ratio.max(1).min(u128::from(MOST_FIRST)) as u32
}

/// Returns the first numbers of a position with `free` free points whose lines weigh `total`, if
/// those of the game's own position weigh `first_total`. In Avoider-Enforcer weight is for no, else
/// for yes. The side that must answer each move has more.
pub fn first_numbers(
    is_avoider: bool,
    total: u128,
    first_total: u128,
    turn: Side,
    free: u32,
) -> Numbers
    ensures { result.state ≡ State.Met }
{
    let light = eightfold(first_total, total);
    let heavy = eightfold(total, first_total);
    let (proof, disproof) = if is_avoider {
        (heavy, light)
    } else {
        (light, heavy)
    };
    let more = quarters(free);
    let (proof, disproof) = match turn {
        Side::X => (proof, disproof + more),
        Side::Y => (proof + more, disproof),
    };
    Numbers {
        proof,
        disproof,
        size: 0,
        state: State::Met,
    }
}
