//! What the claims that are said tell of a game of a family.
ghost use Rattle.std.specs.Prelude.{Option};
ghost use Rattle.pg_families.specs.Prelude.{Bytes, Done, End, Family, FamilyTask};
ghost use Rattle.pg_families.specs.Family.{ActsInFamily, AreForcedInFamily};

use pg_gf2::laws::valid_vector_claims_are_forced;
use pg_span::valid_claims_force;

/// Whatever is done with a game of a family, each claim that is said to be accepted is forced: its
/// side wins by best play from the game's marks with the claim's turn. A claim that is played is
/// forced from the game's position.
pub fn announced_family_claims_are_forced()
    ensures { (family : Family) (task : FamilyTask) (game certificate : Option Bytes) (name : Bytes)
        (done : Done) (end : End) → ActsInFamily family task game certificate name done end
        → AreForcedInFamily family game done.entries }
{
    valid_claims_force();
    valid_vector_claims_are_forced();
}
