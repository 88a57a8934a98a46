//! Who wins a connectivity game.
ghost use Rattle.std.specs.Prelude.{◌≡◌, ◌<◌, ◌↔◌, ℕ, length, slice_index, Some, IfOk, IsTrue};
ghost use Rattle.pg_span.specs.Prelude.{contains, AreBases};
ghost use Rattle.pg_span.specs.FreeEdges.{free_matroid};
ghost use Rattle.pg_span.specs.Game.{span_class};
ghost use Rattle.pg_span.specs.Solved.{AreDueClaims, HavePartsBelow, SolvedHolds, SolvedIsSmall};
ghost use Rattle.pg_span.specs.Solved.{named};
ghost use Rattle.pg_span.specs.Valid.{IsSpanValid};

use crate::bases::settled;
use crate::cert::SpanCert;
use crate::game::SpanGame;
use crate::solved::{Solved, SpanClass};
use pg_base::{Memory, PointSet, Points};
use pg_exchange::Trees;
use pg_graph::labels;
use std::alloc::Global;

/// Whether all vertices have one number.
fn is_one(parts: &[u16]) -> bool
    ensures { IsTrue result
        ↔ ((v : ℕ) → v < length parts.now → slice_index parts.now v ≡ slice_index parts.now 0) }
{
    for part in parts {
        if *part != parts[0] {
            return false;
        }
    }
    true
}

/// Two bases of the free edges, what is reached from the free edges in neither, and the free edges.
#[derive(Clone, Copy)]
struct Bases {
    one: PointSet,
    two: PointSet,
    near: PointSet,
    elements: PointSet,
}

/// Two bases of the free edges with fewest common ones.
fn settled_bases(alloc: Global, g: &SpanGame) -> Result<Bases, Memory>
    ensures settled { IfOk result
        (λ s. AreBases (free_matroid g.now) (contains s.one) (contains s.two) (contains s.near)) }
    ensures elements { IfOk result (λ s. contains s.elements ≡ (free_matroid g.now).elements) }
{
    let mut bases = Trees::new(alloc, &g.graph, &g.x, &g.y, false)?;
    let near = settled(&mut bases);
    Ok(Bases {
        one: bases.base(1),
        two: bases.base(2),
        near,
        elements: bases.elements(),
    })
}

/// Trees or parts that hold at the game's marks.
fn find(alloc: Global, g: &SpanGame) -> Result<Solved, Memory>
    ensures holds { IfOk result (SolvedHolds g.now) }
    ensures small { IfOk result (SolvedIsSmall g.now) }
{
    let bases = settled_bases(alloc, g)?;
    let parts = labels(alloc, &g.graph, &g.x.union(&bases.near))?;
    let whole = labels(alloc, &g.graph, &g.x.union(&bases.elements))?;
    if !is_one(&whole) {
        let parts = Points::from_vec(parts);
        return Ok(Solved::Breaker { parts });
    }
    let common = bases.one.without(&bases.one.without(&bases.two));
    let Some(first) = common.first_from(0) else {
        return Ok(Solved::Maker {
            a1: bases.one,
            a2: bases.two,
        });
    };
    let mut others = common;
    others.take(first);
    let parts = Points::from_vec(parts);
    if others.first_from(0).is_some() {
        return Ok(Solved::Breaker { parts });
    }
    let (mut a1, mut a2) = (bases.one, bases.two);
    a1.take(first);
    a2.take(first);
    Ok(Solved::First {
        first,
        a1,
        a2,
        parts,
    })
}

/// Who wins the game at its marks, with a certificate that shows it with X and with Y to move
/// first: by two spanning forests of the free edges over X's that share as few edges as any two
/// (Lehman 1964). Where all free edges with X's don't join every two vertices, or two edges or more
/// are common, Breaker wins by the parts that X's edges and those reached from edges in neither
/// forest join (Nash-Williams 1961; Tutte 1961); where none is common, Maker wins by the two
/// forests; and where one is, the side to move does.
///
/// # Errors
///
/// `Memory` says that there is no room for the forests or the certificate.
pub fn span_solve(alloc: Global, g: &SpanGame) -> Result<(SpanClass, SpanCert), Memory>
    ensures class { IfOk result (λ solved. span_class g.now ≡ Some (named solved.0)) }
    ensures claims { IfOk result (λ solved. AreDueClaims solved.0 solved.1.claims) }
    ensures valid { IfOk result (λ solved. IsSpanValid g.now solved.1) }
    ensures small { IfOk result (λ solved. HavePartsBelow g.now.graph.vertices solved.1.claims) }
{
    let solved = find(alloc, g)?;
    let class = solved.class();
    let certificate = solved.into_certificate(alloc)?;
    Ok((class, certificate))
}
