//! What an open question means, as laws. Each function is empty: what it promises is a law of the
//! definitions.
ghost use Rattle.std.specs.Prelude.{◌≤◌, ℕ, List, length};
ghost use Rattle.pg_solve.specs.Prelude.{Score, IsOpenTable, Game, Position};
ghost use Rattle.pg_solve.specs.Reached.{AreReachable, HasAllReachable};

/// Positions that leave a question open are as many as the budget, different, undecided, and can
/// all be reached from the game's (`reached`). So where fewer positions than the budget can be
/// reached, no question stays open (`complete`).
pub fn open_questions_need_positions()
    ensures reached { (g : Game) → (t : Score) → (budget : ℕ) → (table : List Position)
        → IsOpenTable g t budget table
        → AreReachable g t budget table }
    ensures complete { (g : Game) → (t : Score) → (budget : ℕ) → (table : List Position)
        → (all : List Position) → IsOpenTable g t budget table
        → HasAllReachable g all
        → budget ≤ length all }
{}
