//! Laws of the rules and of positions that are no worse. Each function is empty: what it promises
//! is a law of the definitions alone.
ghost use Rattle.std.specs.Prelude.{◌≡◌, ◌↔◌, ℕ, ◌<◌, ◌≤◌, Bool, true, false, List, map, length};
ghost use Rattle.std.specs.Prelude.{IsTrue, ◌+◌};
ghost use Rattle.pg_game.specs.Prelude.{other, Goal, Side, Graph, MakerBreaker, X, Y};
ghost use Rattle.pg_game.specs.Decided.{attack_wins, greatest_depth, at_least};
ghost use Rattle.pg_game.specs.Field.{terminals_joined};
ghost use Rattle.pg_game.specs.Game.{point_count, free_points, after, bias_of, start, with_turn};
ghost use Rattle.pg_game.specs.Game.{is_over, outcome, IsPosition};
ghost use Rattle.pg_game.specs.Play.{IsLegalPlay, played};
ghost use Rattle.pg_game.specs.Position.{is_free};
ghost use Rattle.pg_game.specs.PositionLemmas.{equal_positions};
ghost use Rattle.pg_game.specs.Strategy.{Keeps};
ghost use Rattle.pg_game.specs.Threat.{may_attack, has_threat_line, depth_of, IsThreatLine};
ghost use Rattle.pg_game.specs.Threat.{IsFirstThreatLine};
ghost use Rattle.pg_game.specs.Value.{value, best, Forces};
ghost use Rattle.pg_game.specs.Walked.{AreConnected, IsJoiningGame};
ghost use Rattle.pg_game.specs.declared.field.Field.TheVariants.{Graph as OnGraph};
ghost use Rattle.pg_game.specs.declared.game.Game.{Game};
ghost use Rattle.pg_game.specs.declared.position.Position.{Position};
ghost use Rattle.pg_game.specs.Weaker.{IsNoWorse, IsImagined, MovesOn, RepliesOn, free_or_lowest};

/// Where the game is over its value is its outcome.
pub fn value_is_outcome_when_over()
    ensures { (g : Game) → (p : Position) → is_over g p ≡ true → value g p ≡ outcome g p }
{}

/// Where the game isn't over its value is the best for the side to move of the values after a move.
/// With the law above this determines the value: the number of moves by which it is defined plays
/// no part.
pub fn value_is_best_move()
    ensures { (g : Game) → (p : Position) → is_over g p ≡ false
        → value g p ≡ best p.turn (map (λ v. value g (after g p v)) (free_points g p)) }
{}

/// The side to move forces a goal exactly where it does after some move.
pub fn mover_forces_by_a_move()
    ensures { (g : Game) → (p : Position) → (side : Side) → (goal : Goal) → is_over g p ≡ false
        → p.turn ≡ side
        → Forces g p side goal
        ↔ ((v : ℕ) × (v < point_count g) × (is_free p v ≡ true)
        × Forces g (after g p v) side goal) }
{}

/// The side that waits forces a goal exactly where it does after every move.
pub fn waiter_forces_by_all_moves()
    ensures { (g : Game) → (p : Position) → (side : Side) → (goal : Goal) → is_over g p ≡ false
        → p.turn ≡ other side
        → Forces g p side goal
        ↔ ((v : ℕ) → v < point_count g → is_free p v ≡ true → Forces g (after g p v) side goal) }
{}

/// A side that keeps an invariant up to its goal forces the goal wherever the invariant holds.
pub fn kept_invariants_force()
    ensures { (g : Game) → (side : Side) → (goal : Goal) → (test : Position → Bool)
        → Keeps g side goal (λ p. IsTrue (test p))
        → (p : Position) → IsTrue (test p)
        → Forces g p side goal }
{}

/// Where the game isn't over some point is free.
pub fn some_point_is_free()
    ensures { (g : Game) → (p : Position) → is_over g p ≡ false
        → (v : ℕ) × (v < point_count g) × (is_free p v ≡ true) }
{}

/// Each move leaves one free point fewer, so a play has at most as many moves as points were free.
pub fn games_end()
    ensures fewer { (g : Game) → (p : Position) → (v : ℕ) → v < point_count g
        → is_free p v ≡ true
        → length (free_points g (after g p v)) < length (free_points g p) }
    ensures plays { (g : Game) → (p : Position) → (moves : List ℕ) → IsLegalPlay g p moves
        → length moves ≤ length (free_points g p) }
{}

/// A game's marks are a position with either side's whole turn to come, and legal moves lead from
/// positions to positions.
pub fn positions_stay()
    ensures start { (g : Game) → IsPosition g (start g) }
    ensures turn { (g : Game) → (turn : Side) → IsPosition g (with_turn g turn) }
    ensures after { (g : Game) → (p : Position) → (v : ℕ) → IsPosition g p
        → v < point_count g
        → is_free p v ≡ true
        → IsPosition g (after g p v) }
    ensures played { (g : Game) → (p : Position) → (moves : List ℕ) → IsPosition g p
        → IsLegalPlay g p moves
        → IsPosition g (played g p moves) }
{}

/// A side that claims more than one point stays to move and claims one fewer; with its last point
/// the turn passes, and the other side has a whole turn.
pub fn turns_pass()
    ensures stays { (g : Game) → (p : Position) → (v : ℕ) → 1 < p.left
        → ((after g p v).turn ≡ p.turn) × ((after g p v).left + 1 ≡ p.left) }
    ensures passes { (g : Game) → (p : Position) → (v : ℕ) → p.left ≤ 1
        → ((after g p v).turn ≡ other p.turn) × ((after g p v).left ≡ bias_of g (other p.turn)) }
{}

/// A game on a graph is decided by walks of edges (Lehman 1964): X has won where a walk of its
/// edges joins the terminals, Y where no walk of edges that aren't Y's does.
pub fn joining_is_by_walks()
    ensures tests { (h : Graph) → (set : ℕ → Bool)
        → (terminals_joined h set ≡ true) ↔ AreConnected h set }
    ensures games { (g : Game) → (h : Graph) → g.field ≡ OnGraph h → IsJoiningGame g h }
{}

/// Positions are equal by `==` exactly where they are the same.
pub fn equal_positions_are_same()
    ensures { (p : Position) → (q : Position) → IsTrue (equal_positions p q) ↔ (p ≡ q) }
{}

/// The attacker of a threat line wins: X in Maker-Breaker, and either side in Maker-Maker. After
/// each attack either the other side makes the forced reply, and the attacker goes on, or the
/// attacker takes that point and has filled a line.
///
/// Allis, van den Herik and Huntjens, Go-Moku solved by new search techniques (1996).
pub fn threat_lines_force()
    ensures { (g : Game) → (p : Position) → (side : Side) → (points : List ℕ)
        → may_attack g.kind side ≡ true
        → IsPosition g p
        → IsThreatLine g p side points
        → Forces g p side Goal.Win }
{}

/// The computed tests say exactly that there is a threat line of the side to move: one of at most
/// some depth (`within`), and one that is short enough to decide a position, of a side that wins by
/// filling a line (`short`). Of the threat lines of least depth at most one is the first in the
/// order of lists (`one`).
pub fn threat_lines_are_found()
    ensures within { (depth : ℕ) → (g : Game) → (p : Position) → IsTrue (has_threat_line depth g p)
        ↔ ((points : List ℕ) × (depth_of points ≤ depth) × IsThreatLine g p p.turn points) }
    ensures short { (g : Game) → (p : Position) → IsTrue (attack_wins g p)
        ↔ ((may_attack g.kind p.turn ≡ true)
        × (points : List ℕ) × (depth_of points ≤ greatest_depth)
        × IsThreatLine g p p.turn points) }
    ensures one { (g : Game) → (p : Position) → (side : Side) → (points : List ℕ)
        → (others : List ℕ) → IsFirstThreatLine g p side points
        → IsFirstThreatLine g p side others
        → points ≡ others }
{}

/// No position is worse than itself, and what is no worse than a position that is no worse is no
/// worse.
pub fn no_worse_is_an_order()
    ensures itself { (side : Side) → (p : Position) → IsNoWorse side p p }
    ensures further { (side : Side) → (a : Position) → (b : Position) → (c : Position)
        → IsNoWorse side a b
        → IsNoWorse side b c
        → IsNoWorse side a c }
{}

/// In Maker-Breaker, with any bias, a side that forces a goal from a position forces it from each
/// that is no worse for it.
pub fn no_worse_positions_force()
    ensures { (g : Game) → (q : Position) → (p : Position) → (side : Side) → (goal : Goal)
        → g.kind ≡ MakerBreaker
        → IsNoWorse side q p
        → Forces g q side goal
        → Forces g p side goal }
{}

/// So the value doesn't fall where a position is no worse for X, and doesn't rise where it is no
/// worse for Y.
pub fn values_keep_order()
    ensures x { (g : Game) → (q : Position) → (p : Position) → g.kind ≡ MakerBreaker
        → IsNoWorse X q p
        → at_least (value g q) (value g p) ≡ true }
    ensures y { (g : Game) → (q : Position) → (p : Position) → g.kind ≡ MakerBreaker
        → IsNoWorse Y q p
        → at_least (value g p) (value g q) ≡ true }
{}

/// A side that imagines a weaker position, from which it forces its goal, moves there by a move
/// that keeps it forced, and plays that point where it is free in the true position and else the
/// lowest free one: so it moves legally, and the true position is still no worse. The same holds of
/// replies the other way round. The imagined game goes on with the true one.
pub fn imagined_positions_serve()
    ensures moves { (g : Game) → (side : Side) → (goal : Goal) → (q : Position) → (p : Position)
        → g.kind ≡ MakerBreaker
        → IsImagined g side goal q p
        → (w : ℕ) → is_over g p ≡ false
        → p.turn ≡ side
        → w < point_count g
        → is_free q w ≡ true
        → Forces g (after g q w) side goal
        → MovesOn g side goal q p w (free_or_lowest g p w) }
    ensures replies { (g : Game) → (side : Side) → (goal : Goal) → (q : Position) → (p : Position)
        → g.kind ≡ MakerBreaker
        → IsImagined g side goal q p
        → (v : ℕ) → is_over g p ≡ false
        → p.turn ≡ other side
        → v < point_count g
        → is_free p v ≡ true
        → RepliesOn g side goal q p (free_or_lowest g q v) v }
    ensures goes_on { (g : Game) → (side : Side) → (goal : Goal) → (q : Position) → (p : Position)
        → g.kind ≡ MakerBreaker
        → IsImagined g side goal q p
        → is_over g p ≡ false
        → is_over g q ≡ false }
{}
