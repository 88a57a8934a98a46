//! The class of a switching game.
ghost use Rattle.std.specs.Prelude.{◌≡◌, Some, IfOk};
ghost use Rattle.pg_base.specs.declared.kind.Kind.TheVariants.{Switching};
ghost use Rattle.pg_game.specs.Class.{class_of};
ghost use Rattle.pg_lehman.specs.Sets.{SetsHold, named};

use crate::bases::decide;
use crate::class::Class;
use pg_base::Memory;
use pg_exchange::Trees;
use pg_game::{Field, Game};
use std::alloc::Global;

/// Who wins the switching game at its marks, with the sets by which it is won: by two spanning
/// forests of the graph with Y's edges deleted, X's contracted and `e` added, made to share as few
/// edges as any two (Lehman 1964; Bruno and Weinberg 1970). The number of edges stands for `e`.
///
/// The sets of `Short` and `Cut` hold whoever is to move; those of `First` hold for trees with X to
/// move and for cuts with Y to move. Nothing but the two forests takes memory. `Memory` says that
/// there is no room for them.
pub fn classify(alloc: Global, g: &Game) -> Result<Class, Memory>
    requires { g.now.kind ≡ Switching }
    ensures sets { IfOk result (SetsHold g.now) }
    ensures class { IfOk result (λ c. class_of g.now ≡ Some (named c)) }
{
    match &g.field {
        Field::Lines(_) => unreachable!(),
        Field::Graph(graph) => {
            let mut trees = Trees::new(alloc, graph, &g.x, &g.y, true)?;
            Ok(decide(&mut trees, graph.edge_count()))
        }
    }
}
