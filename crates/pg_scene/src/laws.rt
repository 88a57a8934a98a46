//! Laws of scenes. Each function is empty: what it promises is a law of the definitions alone.
ghost use Rattle.std.specs.Prelude.{◌≡◌, ◌<◌, ◌≤◌, ℕ, Bool, true, List, [], Option, get_or, length};
ghost use Rattle.std.specs.Prelude.{map, take};
ghost use Rattle.pg_scene.specs.Prelude.{FinSet, All, flat_map, range_with_len, nat_cmp};
ghost use Rattle.pg_scene.specs.Prelude.{points_below, Pair, position_of, Claim, Node, Reply};
ghost use Rattle.pg_scene.specs.Prelude.{point_count, start, Game, Position, SpanClaim, SpanGame};
ghost use Rattle.pg_scene.specs.Prelude.{VecGame};
ghost use Rattle.pg_cert.specs.declared.node.Body.TheVariants as bodies;
ghost use Rattle.pg_scene.specs.Items.{lane_of, mark_of, overlap};
ghost use Rattle.pg_captions.specs.Look.{seen_at};
ghost use Rattle.pg_scene.specs.Limits.{IsScene};
ghost use Rattle.pg_scene.specs.Read.{first_in, pair_in, point_in, reply_in, second_in};
ghost use Rattle.pg_scene.specs.Recorded.{IsSceneOfMoves};
ghost use Rattle.pg_scene.specs.Scenes.{IsSceneOf, IsSceneOfGame};
ghost use Rattle.pg_captions.specs.declared.look.Look.{Look};
ghost use Rattle.pg_scene.specs.declared.scene.Scene.{Scene};
ghost use Rattle.pg_scene.specs.SpanScenes.{IsSceneOfSpan, IsSceneOfSpanGame};
ghost use Rattle.pg_scene.specs.VectorScenes.{IsSceneOfVector, IsSceneOfVectorGame};

/// Each item of a scene can stand on its board.
pub fn scenes_can_be_laid_out()
    ensures games { (look : Look) → (g : Game) → (scene : Scene)
        → IsSceneOfGame look g scene → IsScene scene }
    ensures nodes { (look : Look) → (g : Game) → (claim : Claim) → (k : ℕ)
        → (node : Node) → (fault : Option ℕ) → (scene : Scene)
        → IsSceneOf look g claim k node fault scene
        → IsScene scene }
    ensures moves { (look : Look) → (g : Game) → (p : Position) → (over : Bool)
        → (moves : List ℕ) → (scene : Scene) → IsSceneOfMoves look g p over moves scene
        → IsScene scene }
{}

/// Each point of the game is drawn exactly once, in ascending order, with the mark that it has, or
/// with none on blank boards; and no other point is.
pub fn points_are_drawn_once()
    ensures games { (look : Look) → (g : Game) → (scene : Scene) → IsSceneOfGame look g scene
        → flat_map point_in scene.items
        ≡ map (λ v. (v, mark_of (seen_at look.blank (start g)) v))
        (range_with_len 0 (point_count g)) }
    ensures nodes { (look : Look) → (g : Game) → (claim : Claim) → (k : ℕ)
        → (node : Node) → (fault : Option ℕ) → (scene : Scene)
        → IsSceneOf look g claim k node fault scene
        → flat_map point_in scene.items
        ≡ map (λ v. (v, mark_of (position_of node) v)) (range_with_len 0 (point_count g)) }
    ensures moves { (look : Look) → (g : Game) → (p : Position) → (over : Bool)
        → (moves : List ℕ) → (scene : Scene) → IsSceneOfMoves look g p over moves scene
        → flat_map point_in scene.items
        ≡ map (λ v. (v, mark_of p v)) (range_with_len 0 (point_count g)) }
{}

/// The lane of a line is greater than that of each earlier line with which it has two points in
/// common (`greater`), and no greater than the number of the lines before it (`few`).
pub fn overlapping_lines_are_in_different_lanes()
    ensures greater { (lines : List (List ℕ)) → (i j : ℕ) → i < j
        → overlap (get_or lines j []) (get_or lines i []) ≡ true
        → lane_of lines i < lane_of lines j }
    ensures few { (lines : List (List ℕ)) → (i : ℕ) → lane_of lines i ≤ i }
{}

/// The pairs drawn are the first of the node's, as many as the game has points, each exactly once
/// and in its order, where they are of points of the game. These are all pairs of the node where it
/// has no more, as that of a valid certificate has.
pub fn pairs_are_drawn_once()
    ensures first { (look : Look) → (g : Game) → (claim : Claim) → (k : ℕ)
        → (node : Node) → (fault : Option ℕ) → (scene : Scene)
        → IsSceneOf look g claim k node fault scene
        → (pairs : List Pair) → node.body ≡ bodies.Pairs pairs
        → All (λ q. (q.a < point_count g) × (q.b < point_count g)) (take (point_count g) pairs)
        → flat_map pair_in scene.items ≡ take (point_count g) pairs }
    ensures all { (look : Look) → (g : Game) → (claim : Claim) → (k : ℕ)
        → (node : Node) → (fault : Option ℕ) → (scene : Scene)
        → IsSceneOf look g claim k node fault scene
        → (pairs : List Pair) → node.body ≡ bodies.Pairs pairs
        → length pairs ≤ point_count g
        → All (λ q. (q.a < point_count g) × (q.b < point_count g)) pairs
        → flat_map pair_in scene.items ≡ pairs }
{}

/// The edges drawn of two sets are those of the node that are edges of the game, each exactly once,
/// in ascending order.
pub fn edges_are_drawn_once()
    ensures trees { (look : Look) → (g : Game) → (claim : Claim) → (k : ℕ)
        → (node : Node) → (fault : Option ℕ) → (scene : Scene)
        → IsSceneOf look g claim k node fault scene
        → (with_e : Bool) → (first : FinSet nat_cmp) → (second : FinSet nat_cmp)
        → node.body ≡ bodies.Trees with_e first second
        → (flat_map first_in scene.items ≡ points_below first (point_count g))
        × (flat_map second_in scene.items ≡ points_below second (point_count g)) }
    ensures cuts { (look : Look) → (g : Game) → (claim : Claim) → (k : ℕ)
        → (node : Node) → (fault : Option ℕ) → (scene : Scene)
        → IsSceneOf look g claim k node fault scene
        → (with_e : Bool) → (first : FinSet nat_cmp) → (second : FinSet nat_cmp)
        → node.body ≡ bodies.Cuts with_e first second
        → (flat_map first_in scene.items ≡ points_below first (point_count g))
        × (flat_map second_in scene.items ≡ points_below second (point_count g)) }
{}

/// The replies drawn are those of the node, each exactly once and in its order, where they are of
/// points of the game.
pub fn replies_are_drawn_once()
    ensures { (look : Look) → (g : Game) → (claim : Claim) → (k : ℕ)
        → (node : Node) → (fault : Option ℕ) → (scene : Scene)
        → IsSceneOf look g claim k node fault scene
        → (replies : List Reply) → node.body ≡ bodies.All replies
        → All (λ r. r.point < point_count g) replies
        → flat_map reply_in scene.items ≡ replies }
{}

/// The points of items are the board's, the board is within the limits, and the legend is short.
pub fn span_scenes_can_be_laid_out()
    ensures games { (look : Look) → (g : SpanGame) → (scene : Scene)
        → IsSceneOfSpanGame look g scene → IsScene scene }
    ensures claims { (look : Look) → (g : SpanGame) → (claim : SpanClaim) → (fault : Option ℕ)
        → (scene : Scene) → IsSceneOfSpan look g claim fault scene → IsScene scene }
{}

/// The points of items are rows of the table, the table is within the limits, and the legend is
/// short.
pub fn vector_scenes_can_be_laid_out()
    ensures games { (look : Look) → (g : VecGame) → (scene : Scene)
        → IsSceneOfVectorGame look g scene → IsScene scene }
    ensures nodes { (look : Look) → (g : VecGame) → (claim : Claim) → (k : ℕ)
        → (node : Node) → (fault : Option ℕ) → (scene : Scene)
        → IsSceneOfVector look g claim k node fault scene
        → IsScene scene }
{}
