//! Laws of nodes that are arranged. Each function is empty: what it promises is a law of the
//! definitions alone.
ghost use Rattle.std.specs.Prelude.{◌≡◌, ◌+◌, ◌-◌, Bool, true, false, not, ℕ, suc, List, Some};
ghost use Rattle.std.specs.Prelude.{IsPermutation, drop, filter, length, slice_get, take};
ghost use Rattle.pg_cert.specs.declared.node.Node.{Node};
ghost use Rattle.pg_near.specs.Near.{arranged_nodes, in_order, moved, place_at, places_of};

/// No node is lost and none is new: the nodes in their new order are the nodes.
pub fn nodes_stay()
    ensures { (near : Node → Bool) → (nodes : List Node)
        → IsPermutation nodes (in_order near nodes) }
{}

/// Each node is found under its new number, and there names its children by theirs: so its links
/// lead to the same nodes.
pub fn nodes_are_moved()
    ensures { (near : Node → Bool) → (nodes : List Node) → (k : ℕ) → (node : Node)
        → slice_get nodes k ≡ Some node
        → slice_get (arranged_nodes near nodes) (place_at (places_of near nodes) k)
        ≡ Some (moved (places_of near nodes) node) }
{}

/// A near node has as many nodes behind it as near nodes were behind it, and a node that isn't near
/// has all near nodes behind it, and the others that were.
pub fn near_nodes_are_counted()
    ensures near { (near : Node → Bool) → (nodes : List Node) → (k : ℕ) → (node : Node)
        → slice_get nodes k ≡ Some node
        → near node ≡ true
        → length nodes - place_at (places_of near nodes) k
        ≡ suc (length (filter near (drop (suc k) nodes))) }
    ensures far { (near : Node → Bool) → (nodes : List Node) → (k : ℕ) → (node : Node)
        → slice_get nodes k ≡ Some node
        → near node ≡ false
        → length nodes - place_at (places_of near nodes) k
        ≡ length (filter near nodes)
        + suc (length (filter (λ n. not (near n)) (drop (suc k) nodes))) }
{}
