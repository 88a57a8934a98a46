//! A switching game with another side to move.
ghost use Rattle.std.specs.Prelude.{◌≡◌, IfOk};
ghost use Rattle.pg_play_tree.specs.Prelude.{IsGameOf, Switching};

use pg_base::{Memory, Side};
use pg_game::{Field, Game};
use pg_graph::{Ends, Graph};
use std::alloc::Global;

/// Returns a copy of a graph.
fn copy_of(alloc: Global, graph: &Graph) -> Result<Graph, Memory>
    ensures { IfOk result (λ copy. copy ≡ graph.now) }
{
    Ok(Graph {
        vertices: graph.vertices,
        s: graph.s,
        t: graph.t,
        ends: Ends::from_vec(Vec::from_slice(alloc, graph.ends.as_slice())?),
    })
}

/// Returns a copy of a switching game, with this side to move.
pub(crate) fn turned_copy(alloc: Global, game: &Game, turn: Side) -> Result<Game, Memory>
    requires { game.now.kind ≡ Switching }
    ensures { IfOk result (λ copy. IsGameOf copy game.now.kind game.now.field game.now.x game.now.y
        turn game.now.bias) }
{
    let Field::Graph(graph) = &game.field else {
        unreachable!()
    };
    let copy = copy_of(alloc, graph)?;
    let made = Game::new(
        game.kind,
        Field::Graph(copy),
        game.x,
        game.y,
        turn,
        game.bias,
    );
    match made {
        Ok(game) => Ok(game),
        Err(_) => unreachable!(),
    }
}
