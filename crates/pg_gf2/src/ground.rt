//! Vectors over two elements as a ground.
ghost use Rattle.std.specs.Prelude.{◌+◌, ◌≡◌, ◌<◌, ◌≤◌, ◌++◌, ◌∷◌, [], length, IfOk};
ghost use Rattle.pg_gf2.specs.Prelude.{contains, IsBelow, either, IsBase, IsApart, free_with_e};
ghost use Rattle.pg_gf2.specs.declared.game.TheConstants.{MAX_VECTORS};
ghost use Rattle.pg_gf2.specs.Vectors.{vector_at, vector_matroid, spans_over};
ghost use Rattle.pg_gf2.specs.Rows.{IsEliminated};

use crate::elimination::{Elimination, grow, rows_of};
use crate::game::VecGame;
use crate::reduce::reduced;
use pg_base::{MAX_MEMBERS, Memory, PointSet};
use pg_exchange::Ground;
use std::alloc::Global;

/// A base of the free vectors and the target, over X's vectors.
#[derive(Drop)]
pub struct VecGround {
    vectors: Vec<u128>,
    x: PointSet,
    elements: PointSet,
    solved: Elimination,
    ghost few: { length vectors.items ≤ MAX_VECTORS + 1 },
    ghost element_range: { IsBelow (contains elements) (length vectors.items) },
    ghost is_base: { IsBase (spans_over vectors.items (contains x)) (contains elements)
        (contains solved.base) },
    ghost eliminated: { IsEliminated (vector_at vectors.items) (length vectors.items) (contains x)
        (contains solved.base) (either (contains x) (contains solved.base)) solved.rows.items },
}

/// The vectors of the game, and the target.
pub(crate) fn with_target(alloc: Global, g: &VecGame) -> Result<Vec<u128>, Memory>
    ensures { IfOk result (λ vectors. vectors.items ≡ g.now.vectors ++ (g.now.target ∷ [])) }
{
    let mut vectors = g.vectors.as_slice().to_vec(alloc)?;
    vectors.push(g.target)?;
    Ok(vectors)
}

/// The vectors that are neither side's, and the target.
fn elements_of(g: &VecGame) -> PointSet
    ensures { contains result
        ≡ free_with_e (contains g.now.x) (contains g.now.y) (length g.now.vectors) }
{
    let count = g.vectors.as_slice().len() as u16;
    let marked = g.x.union(&g.y);
    let mut elements = PointSet::empty();
    for k in 0..count {
        if !marked.has(k) {
            elements.put(k);
        }
    }
    elements.put(count);
    elements
}

impl VecGround {
    /// A base of the free vectors and the target.
    ///
    /// `Memory` says that there is no room for the vectors and the rows of their elimination. No
    /// other call takes memory.
    pub fn new(alloc: Global, g: &VecGame) -> Result<VecGround, Memory>
        ensures { IfOk result (λ made. ⟦<VecGround as Ground>⟧.matroid made
            ≡ vector_matroid (g.now.vectors ++ (g.now.target ∷ [])) (contains g.now.x)
            (free_with_e (contains g.now.x) (contains g.now.y) (length g.now.vectors))) }
    {
        VecGround::apart_from(alloc, g, &PointSet::empty())
    }

    /// As `new`, a base with no more of the avoided elements than it needs: its other members span
    /// all that isn't avoided, so none of that could come in for an avoided member.
    ///
    /// The elements that aren't avoided are tried first, as by Kruskal (On the shortest spanning
    /// subtree of a graph, 1956).
    pub fn apart_from(alloc: Global, g: &VecGame, avoided: &PointSet) -> Result<VecGround, Memory>
        ensures apart { IfOk result (λ made. IsApart (⟦<VecGround as Ground>⟧.matroid made)
            (⟦<VecGround as Ground>⟧.base made) (contains avoided.now)) }
        ensures matroid { IfOk result (λ made. ⟦<VecGround as Ground>⟧.matroid made
            ≡ vector_matroid (g.now.vectors ++ (g.now.target ∷ [])) (contains g.now.x)
            (free_with_e (contains g.now.x) (contains g.now.y) (length g.now.vectors))) }
    {
        let vectors = with_target(alloc, g)?;
        let elements = elements_of(g);
        let others = elements.without(avoided);
        let rows = rows_of(alloc, &vectors, &g.x)?;
        let mut solved = Elimination {
            base: PointSet::empty(),
            rows,
        };
        grow(&mut solved, &vectors, &others)?;
        grow(&mut solved, &vectors, &elements.without(&others))?;
        Ok(VecGround {
            vectors,
            x: g.x,
            elements,
            solved,
        })
    }
}

impl VecGround {
    /// The members of the base.
    pub(crate) fn base(&self) -> PointSet
        ensures { result ≡ self.now.solved.base }
    {
        self.solved.base
    }
}

impl Ground for VecGround {
    ghost matroid = { λ s. vector_matroid s.vectors.items (contains s.x) (contains s.elements) };

    ghost base = { λ s. contains s.solved.base };

    ghost use Rattle.pg_gf2.specs.GroundLaws.{IsSpan-over_vectors, small_vectors};

    ghost spanning = { λ s. IsSpan-over_vectors s.vectors.items (contains s.x) };

    ghost is_base = { λ s. s.is_base };

    ghost small = { λ s. small_vectors s.vectors.items
        (contains s.elements) s.few s.element_range };

    fn elements(&self) -> PointSet {
        self.elements
    }

    fn member(&self, f: u16) -> bool {
        f < MAX_MEMBERS && self.solved.base.has(f)
    }

    fn circuit(&mut self, f: u16) -> PointSet {
        let (_zero, members) = reduced(&self.solved.rows, self.vectors[f as usize]);
        members
    }

    fn swap(&mut self, out: u16, into: u16) {
        let (_zero, mut changed) = reduced(&self.solved.rows, self.vectors[into as usize]);
        changed.put(into);
        self.solved.swap(out, into, &changed);
    }
}
