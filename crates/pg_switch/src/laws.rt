//! Laws of trees, cuts and parts. Each function is empty: what it promises is a law of the
//! definitions alone.
ghost use Rattle.std.specs.Prelude.{ℕ, ◌<◌, ◌↔◌, Bool, IsTrue, Option};
ghost use Rattle.pg_switch.specs.Prelude.{FinSet, nat_cmp, Win, X, Y, Game, Position, IsPosition};
ghost use Rattle.pg_switch.specs.Prelude.{TreesHold, CutsHold, Forces, IsSpan, ForcesBy};
ghost use Rattle.pg_switch.specs.Claims.{span_rules, IsPlace, AreSpanTrees, AreSpanCuts};
ghost use Rattle.pg_switch.specs.Span.{connectivity_rules, joins_all, AreAllJoined, AreParts};
ghost use Rattle.pg_switch.specs.Span.{AreJoiningTrees};

/// Trees that hold are a win for Short, whoever is to move (Lehman, A solution of the Shannon
/// switching game, 1964).
pub fn lehman_short()
    ensures { (g : Game) → (p : Position) → (a1 a2 : FinSet nat_cmp) → IsPosition g p
        → TreesHold g p a1 a2
        → Forces g p X Win }
{}

/// Cuts that hold are a win for Cut, whoever is to move: the dual.
pub fn lehman_cut()
    ensures { (g : Game) → (p : Position) → (d1 d2 : FinSet nat_cmp) → IsPosition g p
        → CutsHold g p d1 d2
        → Forces g p Y Win }
{}

/// Where X wants to span `e`, trees are a win for X, whoever is to move (Lehman, A solution of the
/// Shannon switching game, 1964, which has it for any spanning that obeys the three laws).
pub fn trees_force()
    ensures { (spans : (ℕ → Bool) → ℕ → Bool)
        → IsSpan spans → (n : ℕ) → (p : Position) → (a1 a2 : FinSet nat_cmp) → IsPlace n p
        → AreSpanTrees spans n p a1 a2
        → ForcesBy (span_rules spans n) p X Win }
{}

/// Where X wants to span `e`, cuts are a win for Y, whoever is to move: the dual.
pub fn cuts_force()
    ensures { (spans : (ℕ → Bool) → ℕ → Bool) → IsSpan spans
        → (n : ℕ) → (p : Position) → (d1 d2 : FinSet nat_cmp) → IsPlace n p
        → AreSpanCuts spans n p d1 d2 → ForcesBy (span_rules spans n) p Y Win }
{}

/// Edges join every two vertices just where for each two of them a walk along edges leads from the
/// one to the other.
pub fn joins_all_by_walks()
    ensures { (a b : ℕ → ℕ) → (m n : ℕ) → (set : ℕ → Bool)
        → IsTrue (joins_all a b m n set) ↔ AreAllJoined a b m n set }
{}

/// In a connectivity game, parts between which too few edges are left for X are a win for Y, who
/// claims one of these at each turn. That such edges can't hold two spanning trees is the easy half
/// of Tutte, On the problem of decomposing a graph into n connected factors, 1961, and of
/// Nash-Williams, Edge-disjoint spanning trees of finite graphs, 1961.
pub fn parts_force()
    ensures { (a b : ℕ → ℕ) → (m n bound : ℕ) → (label : ℕ → ℕ) → (p : Position) → IsPlace m p
        → AreParts a b m n bound label p → ForcesBy (connectivity_rules a b m n) p Y Win }
{}

/// In a connectivity game, two sets each of which joins every two vertices with X's edges are a win
/// for X, perhaps after a first edge that X claims now (Lehman 1964).
pub fn joining_trees_force()
    ensures { (a b : ℕ → ℕ) → (m n : ℕ)
        → 0 < n → ((f : ℕ) → f < m → (a f < n) × (b f < n)) → (p : Position) → (first : Option ℕ)
        → (a1 a2 : FinSet nat_cmp) → IsPlace m p
        → AreJoiningTrees a b m n p first a1 a2
        → ForcesBy (connectivity_rules a b m n) p X Win }
{}
