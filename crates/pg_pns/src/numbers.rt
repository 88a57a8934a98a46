//! Proof and disproof numbers (Allis, van der Meulen and van den Herik, Proof-Number Search, 1994).
use pg_base::Side;
use pg_met::Answered;

/// How many positions at least have to be settled before the answer is yes, and before it is no.
#[derive(Clone, Copy, Debug, PartialEq, Eq)]
pub(crate) struct Numbers {
    /// Before it is yes.
    pub(crate) proof: u32,
    /// Before it is no.
    pub(crate) disproof: u32,
}

impl Numbers {
    /// Those of a position without an answer that isn't expanded.
    pub(crate) fn unknown() -> Numbers {
        Numbers {
            proof: 1,
            disproof: 1,
        }
    }

    /// Those of a position with an answer.
    pub(crate) fn settled(answer: bool) -> Numbers {
        if answer {
            Numbers {
                proof: 0,
                disproof: u32::MAX,
            }
        } else {
            Numbers {
                proof: u32::MAX,
                disproof: 0,
            }
        }
    }

    /// The number that the side to move makes least.
    pub(crate) fn of(&self, side: Side) -> u32 {
        match side {
            Side::X => self.proof,
            Side::Y => self.disproof,
        }
    }
}

/// The sum, which stops at a limit.
fn sum(a: u32, b: u32) -> u32 {
    a.saturating_add(b).min(1_000_000_000)
}

/// The numbers at a place, and those of an unknown position where none are kept yet.
pub(crate) fn numbers_at(numbers: &[Numbers], place: u32) -> Numbers {
    match numbers.get(place as usize) {
        Some(known) => *known,
        None => Numbers::unknown(),
    }
}

/// The numbers that the moves give: of the side's own number the least, of the other's the sum.
fn by_moves(turn: Side, moves: &[(u16, u32)], numbers: &[Numbers]) -> Numbers {
    let mut least = u32::MAX;
    let mut total = 0;
    for m in moves {
        let after = numbers_at(numbers, m.1);
        least = least.min(after.of(turn));
        total = sum(total, after.of(turn.other()));
    }
    match turn {
        Side::X => Numbers {
            proof: least,
            disproof: total,
        },
        Side::Y => Numbers {
            proof: total,
            disproof: least,
        },
    }
}

/// The numbers of a position, from its answer or from its moves, of which it has none before it is
/// expanded.
pub(crate) fn fresh_numbers(
    answer: Option<Answered>,
    turn: Side,
    moves: &[(u16, u32)],
    numbers: &[Numbers],
) -> Numbers {
    if let Some(known) = answer {
        return Numbers::settled(known.answer);
    }
    if moves.is_empty() {
        return Numbers::unknown();
    }
    by_moves(turn, moves, numbers)
}
