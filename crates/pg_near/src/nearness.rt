//! Which nodes are near the game's start.
ghost use Rattle.std.specs.Prelude.{◌≡◌, ◌≤◌, filter, length};
ghost use Rattle.pg_cert.specs.declared.limits.TheConstants.{MAX_CLAIM_NODES};
ghost use Rattle.pg_near.specs.Near.{is_near};

use pg_cert::Node;
use pg_game::Game;

/// Returns whether a node is near: its position has at most `depth` more points of the two sides
/// than the game's start.
pub fn is_near(game: &Game, depth: u32, node: &Node) -> bool
    ensures { result ≡ is_near game.now depth node.now }
{
    let begun = u64::from(game.x.len() + game.y.len());
    u64::from(node.x.len() + node.y.len()) <= begun + u64::from(depth)
}

/// Returns how many of these nodes are near.
pub fn near_count(game: &Game, depth: u32, nodes: &[Node]) -> u32
    requires { length nodes.now ≤ MAX_CLAIM_NODES }
    ensures exact { result ≡ length (filter (is_near game.now depth) nodes.now) }
    ensures few { result ≤ length nodes.now }
{
    let mut count = 0;
    for node in nodes {
        count += u32::from(is_near(game, depth, node));
    }
    count
}
