//! The edges at each label of a vertex.
ghost use Rattle.std.specs.Prelude.{◌≡◌, ◌<◌, ◌↔◌, ◌⊎◌, ℕ, true, suc, replicate, IfOk, length};
ghost use Rattle.pg_exchange.specs.Prelude.{contains, empty, edge_count, IsBelow, MAX_MEMBERS};
ghost use Rattle.pg_exchange.specs.Path.{IsLabelled};
ghost use Rattle.pg_exchange.specs.Stars.{star_of, AreStars, IsGathered};

use pg_base::{Memory, PointSet};
use pg_graph::Graph;
use std::alloc::Global;

/// The star of each label: the edges with an end that has it. `Memory` says that there is no room
/// for them.
pub(crate) fn stars_of(alloc: Global, g: &Graph, names: &[u16]) -> Result<Vec<PointSet>, Memory>
    requires { IsLabelled g.now names.now }
    ensures { IfOk result
        (λ stars. AreStars g.now names.now (suc (edge_count g.now)) stars.items) }
{
    let mut stars = no_stars(alloc, g.vertices)?;
    fill(stars.as_mut_slice(), g, names);
    Ok(stars)
}

/// So many stars without an edge.
fn no_stars(alloc: Global, labels: u16) -> Result<Vec<PointSet>, Memory>
    ensures { IfOk result (λ stars. stars.items ≡ replicate labels empty) }
{
    let mut stars = Vec::with_capacity(alloc, usize::from(labels))?;
    for _p in 0..labels {
        stars.push(PointSet::empty())?;
    }
    Ok(stars)
}

/// Puts each edge into the stars of the labels of its ends.
fn fill(stars: &mut [PointSet], g: &Graph, names: &[u16])
    requires labelled { IsLabelled g.now names.now }
    requires begun { AreStars g.now names.now 0 stars.old }
    ensures { AreStars g.now names.now (suc (edge_count g.now)) stars.new }
{
    for k in 0..g.edge_count() + 1 {
        let (u, v) = g.ends_of(k);
        put_edge(stars, names[u as usize], k);
        put_edge(stars, names[v as usize], k);
    }
}

/// Puts edge k into the star of a label.
fn put_edge(stars: &mut [PointSet], p: u16, k: u16)
    requires label { p < length stars.old }
    requires edge { k < MAX_MEMBERS }
    ensures { (c z : ℕ) → (star_of stars.new c z ≡ true)
        ↔ ((star_of stars.old c z ≡ true) ⊎ ((c ≡ p) × (z ≡ k))) }
{
    let star = &mut stars[p as usize];
    star.put(k);
}

/// The edges in the stars of the labels.
pub(crate) fn gather(stars: &[PointSet], labels: &PointSet) -> PointSet
    requires { IsBelow (contains labels.now) (length stars.now) }
    ensures { IsGathered stars.now (contains labels.now) (contains result) }
{
    let mut all = PointSet::empty();
    let mut next = 0;
    while let Some(p) = labels.first_from(next) {
        all = all.union(&stars[p as usize]);
        next = p + 1;
    }
    all
}
