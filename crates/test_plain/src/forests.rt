//! Each call on forests, on the graph of two ways from 0 to 1 with an edge between their inner
//! vertices.
ghost use Rattle.std.specs.Prelude.{◌≡◌, IfOk};
ghost use Rattle.pg_graph.specs.Graph.{IsGraph, edge_count};

use pg_base::{Memory, PointSet};
use pg_exchange::{GraphGround, Ground, Trees};
use pg_graph::{Ends, Graph, labels};
use std::alloc::{AllocError, Global};
use std::fmt::Write;
use std::test::Fail;

/// The graph.
fn bridged(alloc: Global) -> Result<Graph, AllocError>
    ensures graph { IfOk result IsGraph }
    ensures edges { IfOk result (λ g. edge_count g ≡ 5) }
    ensures vertices { IfOk result (λ g. g.vertices ≡ 4) }
{
    let ends = vec![in alloc; (0, 2), (0, 3), (2, 3), (2, 1), (3, 1)]?;
    Ok(Graph {
        vertices: 4,
        s: 0,
        t: 1,
        ends: Ends::from_vec(ends),
    })
}

/// Adds the set's members below 16.
fn push_members(text: &mut String, set: &PointSet) -> Result<(), AllocError> {
    for k in 0..16u16 {
        if set.has(k) {
            write!(text, "{k} ")?;
        }
    }
    text.push(';')
}

/// Adds a label for each vertex: those that the edges 0 and 4 join have the same.
fn push_labels(text: &mut String, alloc: Global, g: &Graph) -> Result<(), Memory>
    requires graph { IsGraph g.now }
    requires edges { edge_count g.now ≡ 5 }
{
    let mut outer = PointSet::empty();
    outer.put(0);
    outer.put(4);
    if !outer.is_below(g.edge_count()) {
        return Ok(());
    }
    let names = labels(alloc, g, &outer)?;
    for name in names.as_slice() {
        write!(text, "{name} ")?;
    }
    text.push(';')?;
    Ok(())
}

/// Adds the elements of one forest, and its own.
fn push_forest(text: &mut String, alloc: Global, g: &Graph) -> Result<(), Memory>
    requires graph { IsGraph g.now }
    requires edges { edge_count g.now ≡ 5 }
    requires vertices { g.now.vertices ≡ 4 }
{
    let none = PointSet::empty();
    if !none.is_below(g.edge_count()) || !none.shares_none(&none) {
        return Ok(());
    }
    let forest = GraphGround::new(alloc, g, &none, &none, true)?;
    push_members(text, &forest.elements())?;
    for k in 0..6u16 {
        if forest.member(k) {
            write!(text, "{k} ")?;
        }
    }
    text.push(';')?;
    Ok(())
}

/// The elements of the first forest on the cycle that f closes with it; none where f is in it or is
/// no element.
fn closed_by(trees: &mut Trees, f: u16) -> PointSet {
    if f >= 1024 || !trees.elements().has(f) || trees.member(1, f) {
        return PointSet::empty();
    }
    trees.circuit(1, f)
}

/// Exchanges two elements in the first forest, where that can be. Whether it was done.
fn exchanged(trees: &mut Trees, out: u16, into: u16) -> bool {
    if into >= 1024 || out >= 1024 || !trees.elements().has(into) || trees.member(1, into) {
        return false;
    }
    if !trees.circuit(1, into).has(out) {
        return false;
    }
    trees.swap(1, out, into);
    true
}

/// Adds what is in the first forest, in the second, in neither and in both.
fn push_pair(text: &mut String, trees: &Trees) -> Result<(), AllocError> {
    push_members(text, &trees.base(1))?;
    push_members(text, &trees.base(2))?;
    push_members(text, &trees.neither())?;
    push_members(text, &trees.common())
}

/// Adds what two forests have, the cycles that two elements close, and what the forests have after
/// an exchange and settled again.
fn push_exchanges(text: &mut String, trees: &mut Trees) -> Result<(), AllocError> {
    push_pair(text, trees)?;
    push_members(text, &closed_by(trees, 2))?;
    push_members(text, &closed_by(trees, 4))?;
    let refused = !exchanged(trees, 3, 2);
    let done = exchanged(trees, 0, 2);
    text.push_str(if refused && done { "exchanged;" } else { "" })?;
    push_pair(text, trees)?;
    trees.settle();
    push_members(text, &trees.elements())?;
    let (first, second) = (trees.base(1).len(), trees.base(2).len());
    let (common, neither) = (trees.common().len(), trees.neither().len());
    write!(text, "{first} {second} {common} {neither}")
}

/// Makes two forests, which have as few elements in common as any, and adds what they have.
fn push_trees(text: &mut String, alloc: Global, g: &Graph) -> Result<(), Memory>
    requires graph { IsGraph g.now }
    requires edges { edge_count g.now ≡ 5 }
    requires vertices { g.now.vertices ≡ 4 }
{
    let none = PointSet::empty();
    if !none.is_below(g.edge_count()) || !none.shares_none(&none) {
        return Ok(());
    }
    let mut trees = Trees::new(alloc, g, &none, &none, true)?;
    trees.settle();
    push_exchanges(text, &mut trees)?;
    Ok(())
}

/// What all of them tell.
fn told(alloc: Global, g: &Graph) -> Result<String, Memory>
    requires graph { IsGraph g.now }
    requires edges { edge_count g.now ≡ 5 }
    requires vertices { g.now.vertices ≡ 4 }
{
    let mut text = String::new(alloc);
    push_labels(&mut text, alloc, g)?;
    push_forest(&mut text, alloc, g)?;
    push_trees(&mut text, alloc, g)?;
    Ok(text)
}

#[test]
fn forests_of_the_bridged_graph(rt: HostRuntime) -> Result<(), Fail> {
    let g = bridged(rt.alloc())?;
    assert_eq!(rt;
        told(rt.alloc(), &g)?.as_str(),
        "0 1 0 1 ;0 1 2 3 4 5 ;0 1 3 ;\
0 1 3 ;2 4 5 ;;;0 1 ;0 1 3 ;exchanged;1 2 3 ;2 4 5 ;0 ;2 ;0 1 2 3 4 5 ;3 3 0 0"
    );
    Ok(())
}
