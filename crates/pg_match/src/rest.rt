//! Pairs of the free points that private pairs leave over.
ghost use Rattle.std.specs.Prelude.{◌≡◌, ◌<◌, ◌&&◌, not, ◌∷◌, [], ◌++◌, ℕ, List, IfOk};
ghost use Rattle.std.specs.Prelude.{option_to_list};
ghost use Rattle.std.specs.List.{All};
ghost use Rattle.std.specs.FinSet as set;
ghost use Rattle.pg_match.specs.Prelude.{Pair, is_free, is_paired, unpaired};
ghost use Rattle.pg_match.specs.Meant.{PairUp, PairsOn};

use pg_base::{MAX_MEMBERS, Memory, Pair, PointSet};
use pg_game::{Game, Position};

/// The points of the pairs.
fn points_of(pairs: &[Pair]) -> PointSet
    requires { All (λ s. (s.a < MAX_MEMBERS) × (s.b < MAX_MEMBERS)) pairs.now }
    ensures { (v : ℕ) → set.contains result v ≡ is_paired pairs.now v }
{
    let mut points = PointSet::empty();
    for s in pairs {
        points.put(s.a);
        points.put(s.b);
    }
    points
}

/// Pairs the point with the one that waits; where none waits it waits itself. Gives the one that
/// waits then.
fn pair_on(pairs: &mut Vec<Pair>, waiting: Option<u16>, v: u16) -> Result<Option<u16>, Memory>
    ensures { IfOk result
        (PairsOn (option_to_list waiting ++ v ∷ []) pairs.old.items pairs.new.items) }
{
    let Some(u) = waiting else {
        return Ok(Some(v));
    };
    pairs.push(Pair { a: u, b: v })?;
    Ok(None)
}

/// Whether the point is free and not in the set.
fn is_left_over(p: &Position, paired: &PointSet, v: u16) -> bool
    requires { v < MAX_MEMBERS }
    ensures { result ≡ (is_free p.now v && not (set.contains paired.now v)) }
{
    p.is_free(v) && !paired.has(v)
}

/// The pairs, and then pairs of the free points that are in none, from the lowest upwards. The last
/// such point stays out where their number is odd. The points of the pairs are below 1,024.
///
/// # Errors
///
/// `Memory` where no memory is found.
pub fn with_rest(g: &Game, p: &Position, pairs: Vec<Pair>) -> Result<Vec<Pair>, Memory>
    requires { All (λ s. (s.a < MAX_MEMBERS) × (s.b < MAX_MEMBERS)) pairs.items }
    ensures { IfOk result (λ all. (rest : List Pair) × (all.items ≡ pairs.items ++ rest)
        × PairUp (unpaired g.now p.now pairs.items) rest) }
{
    let paired = points_of(&pairs);
    let mut pairs = pairs;
    let mut waiting = None;
    for v in 0..g.points() {
        if is_left_over(p, &paired, v) {
            waiting = pair_on(&mut pairs, waiting, v)?;
        }
    }
    Ok(pairs)
}
