//! The other point of each pair, found at once.
ghost use Rattle.std.specs.Prelude.{◌≢◌, ◌<◌, List, IsTrue, ◌↔◌};
ghost use Rattle.pg_pairing.specs.Prelude.{All, AllPairs, Pair, SharesNone, IsSafe};
ghost use Rattle.pg_pairing.specs.Partners.{ArePartners, AreSmall};

use pg_base::{Line, MAX_MEMBERS, Pair, PointSet};

/// No game has this point, so that one more than any point of a game is a number that a set can
/// hold.
const NO_POINT: u16 = MAX_MEMBERS - 1;

/// For each point that a set can hold one more than the other point of its pair, or 0 where it is
/// in none. A table of zeros is made in far fewer steps than one of any other number.
pub(crate) fn partners_of(pairs: &[Pair]) -> [u16; MAX_MEMBERS as usize]
    requires range { All (λ s. (s.a < NO_POINT) × (s.b < NO_POINT)) pairs.now }
    requires different { All (λ s. s.a ≢ s.b) pairs.now }
    requires disjoint { AllPairs SharesNone pairs.now }
    ensures small { AreSmall result }
    ensures partners { ArePartners result pairs.now }
{
    let mut partners = [0; MAX_MEMBERS as usize];
    for s in pairs {
        partners[usize::from(s.a)] = s.b + 1;
        partners[usize::from(s.b)] = s.a + 1;
    }
    partners
}

/// Whether the line has one of the points, or holds both points of some pair. Where it holds a
/// pair, the second of its points is reached when the first has been seen. Points that have been
/// seen are kept as one more, as in the table.
pub(crate) fn is_safe(own: &PointSet, line: &Line, partners: &[u16; MAX_MEMBERS as usize]) -> bool
    requires range { All (λ v. v < NO_POINT) line.now }
    requires small { AreSmall partners.now }
    ensures { (pairs : List Pair) → ArePartners partners.now pairs
        → IsTrue result ↔ IsSafe own.now pairs line.now }
{
    let mut seen = PointSet::empty();
    for v in line.as_slice() {
        if own.has(*v) {
            return true;
        }
        if seen.has(partners[usize::from(*v)]) {
            return true;
        }
        seen.put(*v + 1);
    }
    false
}
