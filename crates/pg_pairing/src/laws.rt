//! What pairs that hold force, as laws.
ghost use Rattle.std.specs.Prelude.{◌≡◌, List};
ghost use Rattle.pg_pairing.specs.Prelude.{Win, Draw, MakerBreaker, MakerMaker, AvoiderEnforcer};
ghost use Rattle.pg_pairing.specs.Prelude.{Pair, Side, X, Y, Game, Position, IsPosition, PairsHold};
ghost use Rattle.pg_pairing.specs.Prelude.{Forces};

/// In Maker-Breaker, pairs that hold for Breaker are a win for Breaker, whoever is to move and
/// however many points Breaker claims a turn.
pub fn pairing_forces_breaker()
    ensures { (g : Game) → (p : Position) → (pairs : List Pair) → g.kind ≡ MakerBreaker
        → IsPosition g p
        → PairsHold g p Y pairs
        → Forces g p Y Win }
{}

/// In Maker-Maker, pairs that hold for a side give it a draw at least, whoever is to move.
pub fn pairing_forces_a_draw()
    ensures { (g : Game) → (p : Position) → (side : Side) → (pairs : List Pair)
        → g.kind ≡ MakerMaker
        → IsPosition g p
        → PairsHold g p side pairs
        → Forces g p side Draw }
{}

/// In Avoider-Enforcer, pairs that hold for Avoider are a win for Avoider, whoever is to move.
pub fn pairing_forces_avoider()
    ensures { (g : Game) → (p : Position) → (pairs : List Pair) → g.kind ≡ AvoiderEnforcer
        → IsPosition g p
        → PairsHold g p X pairs
        → Forces g p X Win }
{}
