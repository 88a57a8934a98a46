//! What a potential forces where it holds, as laws.
ghost use Rattle.std.specs.Prelude.{◌≡◌, ◌<◌, ℕ, true};
ghost use Rattle.pg_potential.specs.Prelude.{other, Win, Draw, AvoiderEnforcer, MakerBreaker};
ghost use Rattle.pg_potential.specs.Prelude.{MakerMaker, Side, X, Y, Game, Position, is_free};
ghost use Rattle.pg_potential.specs.Prelude.{point_count, after, IsPosition, PotentialHolds};
ghost use Rattle.pg_potential.specs.Prelude.{AvoiderHolds, Forces};

/// In Maker-Breaker, a potential that holds for Breaker is a win for Breaker, whoever is to move
/// and however many points Breaker claims a turn (Erdős and Selfridge 1973; Beck 1982 for several
/// points a turn).
pub fn erdos_selfridge_breaker()
    ensures { (g : Game) → (p : Position) → g.kind ≡ MakerBreaker
        → IsPosition g p
        → PotentialHolds g p Y
        → Forces g p Y Win }
{}

/// In Maker-Maker, a potential that holds for a side gives it a draw at least, whoever is to move.
pub fn erdos_selfridge_draw()
    ensures { (g : Game) → (p : Position) → (side : Side) → g.kind ≡ MakerMaker
        → IsPosition g p
        → PotentialHolds g p side
        → Forces g p side Draw }
{}

/// A potential that holds with the other side to move holds after each of its points.
pub fn potential_outlasts_replies()
    ensures breaker { (g : Game) → (p : Position) → (v : ℕ) → g.kind ≡ MakerBreaker
        → IsPosition g p
        → PotentialHolds g p Y
        → p.turn ≡ X
        → v < point_count g
        → is_free p v ≡ true
        → PotentialHolds g (after g p v) Y }
    ensures draw { (g : Game) → (p : Position) → (side : Side) → (v : ℕ) → g.kind ≡ MakerMaker
        → IsPosition g p
        → PotentialHolds g p side
        → p.turn ≡ other side
        → v < point_count g
        → is_free p v ≡ true
        → PotentialHolds g (after g p v) side }
{}

/// In Avoider-Enforcer, Avoider's potential where it holds is a win for Avoider, whoever is to move
/// and however many points Enforcer claims a turn.
pub fn avoider_potential_forces()
    ensures { (g : Game) → (p : Position) → g.kind ≡ AvoiderEnforcer
        → IsPosition g p
        → AvoiderHolds g p
        → Forces g p X Win }
{}

/// Avoider's potential that holds with Enforcer to move holds after each of Enforcer's points.
pub fn avoider_potential_outlasts_replies()
    ensures { (g : Game) → (p : Position) → (v : ℕ) → IsPosition g p
        → AvoiderHolds g p
        → p.turn ≡ Y
        → v < point_count g
        → is_free p v ≡ true
        → AvoiderHolds g (after g p v) }
{}
