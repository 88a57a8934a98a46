//! What the claims that are said tell of the game.
ghost use Rattle.std.specs.Prelude.{◌≡◌, ℕ, List, Option, Some};
ghost use Rattle.pg_cli.specs.Prelude.{Cert, DifferInPosition, Game, Position, Holding, IsShown};
ghost use Rattle.pg_cli.specs.Prelude.{certificate_of, Solution, Command, Done, End, Expanded};
ghost use Rattle.pg_cli.specs.Commands.{game_read};
ghost use Rattle.pg_cli.specs.Forced.{AreForced};
ghost use Rattle.pg_cli.specs.Run.{Allows};

use pg_cert_files::reads_within_limits;
use pg_check::valid_claims_are_forced;
use pg_families::announced_family_claims_are_forced;

/// Whatever a command does, each claim that it says to be accepted is forced: its side reaches its
/// goal by best play from the game's marks with the claim's turn. A claim that is played is forced
/// from the game's position.
pub fn announced_claims_are_forced()
    ensures { (held : Holding) (command : Option Command) (work : Expanded) (done : Done)
        (end : End) → Allows held command work done end
        → AreForced command (game_read held command) done.entries }
{
    reads_within_limits();
    valid_claims_are_forced();
    announced_family_claims_are_forced();
}

/// The nodes of each claim that solving finds differ in position, so that its certificate may be
/// folded.
pub fn solutions_differ_in_position()
    ensures { (g : Game) → (budget : ℕ) → (table : List Position) → (solution : Solution)
        → (c : Cert) → IsShown g budget table solution
        → certificate_of solution ≡ Some c
        → DifferInPosition c }
{}
