//! Labels for the vertices of a graph, by union and find with path halving (Tarjan and van Leeuwen
//! 1984): a label is the root of a tree in which each vertex has a parent, and a root is its own.
ghost use Rattle.std.specs.Prelude.{◌≡◌, ◌≢◌, ℕ, ◌^◌, ◌<◌, ◌≤◌, ◌↔◌, IsTrue, IfOk, length};
ghost use Rattle.std.specs.Prelude.{slice_index};
ghost use Rattle.std.specs.FinSet.{contains};
ghost use Rattle.pg_graph.specs.Graph.{IsGraph, first_end_of, second_end_of};
ghost use Rattle.pg_graph.specs.Joiner.{AreEdges};
ghost use Rattle.pg_graph.specs.Labels.{IsLabelling, IsMerged, AreLabels};
ghost use Rattle.pg_graph.specs.Roots.{root_of, IsUpward, SameRoots};

use crate::graph::Graph;
use pg_base::{Memory, PointSet};
use std::alloc::Global;

/// A label for each vertex: two vertices have the same one just where edges of the set join them.
/// `Memory` says that there is no room for them.
pub fn labels(alloc: Global, g: &Graph, set: &PointSet) -> Result<Vec<u16>, Memory>
    requires graph { IsGraph g.now }
    requires set { AreEdges g.now (contains set.now) }
    ensures { IfOk result (λ names. AreLabels g.now (contains set.now) names.items) }
{
    let mut parents = vec![in alloc; 0; g.vertices as usize]?;
    let mut names = vec![in alloc; 0; g.vertices as usize]?;
    label(&mut parents, g, set);
    read_roots(&mut parents, &mut names);
    Ok(names)
}

/// Writes the root above each vertex.
fn read_roots(parents: &mut [u16], names: &mut [u16])
    requires upward { IsUpward parents.old }
    requires size { length names.old ≡ length parents.old }
    requires few { length parents.old ≤ 2 ^ 16 }
    ensures { (v : ℕ) → v < length parents.old
        → (slice_index names.new v ≡ root_of parents.old v)
        × (slice_index names.new v < length parents.old) }
{
    for v in 0..parents.len() {
        names[v] = find(parents, v as u16);
    }
}

/// Gives two vertices one root just where edges of the set join them.
pub(crate) fn label(parents: &mut [u16], g: &Graph, set: &PointSet)
    requires graph { IsGraph g.now }
    requires size { length parents.old ≡ g.now.vertices }
    requires set { AreEdges g.now (contains set.now) }
    ensures { IsLabelling (first_end_of g.now) (second_end_of g.now)
        (contains set.now) parents.new }
{
    part_all(parents);
    for k in 0..g.edge_count() + 1 {
        if set.has(k) {
            let (a, b) = g.ends_of(k);
            union(parents, a, b);
        }
    }
}

/// Makes each vertex its own parent.
fn part_all(parents: &mut [u16])
    requires { length parents.old ≤ 2 ^ 16 }
    ensures { (v : ℕ) → v < length parents.old → slice_index parents.new v ≡ v }
{
    for v in 0..parents.len() {
        parents[v] = v as u16;
    }
}

/// Gives the vertices below the roots of u and v one root, the lesser of these two. It answers
/// whether they had two.
pub(crate) fn union(parents: &mut [u16], u: u16, v: u16) -> bool
    requires upward { IsUpward parents.old }
    requires u { u < length parents.old }
    requires v { v < length parents.old }
    ensures two { IsTrue result ↔ (root_of parents.old u ≢ root_of parents.old v) }
    ensures upward { IsUpward parents.new }
    ensures merged { IsMerged parents.old parents.new u v }
{
    let a = find(parents, u);
    let b = find(parents, v);
    if a < b {
        parents[b as usize] = a;
    } else {
        parents[a as usize] = b;
    }
    a != b
}

/// The root above v. The way there gets shorter.
pub(crate) fn find(parents: &mut [u16], v: u16) -> u16
    requires upward { IsUpward parents.old }
    requires within { v < length parents.old }
    ensures value { result ≡ root_of parents.old v }
    ensures within { result < length parents.old }
    ensures own { slice_index parents.new result ≡ result }
    ensures upward { IsUpward parents.new }
    ensures same { SameRoots parents.old parents.new }
{
    let mut here = v;
    while parents[here as usize] != here {
        let next = parents[here as usize];
        let over = parents[next as usize];
        parents[here as usize] = over;
        here = over;
    }
    here
}
