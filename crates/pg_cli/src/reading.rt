//! Reading a game and a certificate of either form.
ghost use Rattle.std.specs.Prelude.{IfErr, IfOk};
ghost use Rattle.pg_cli.specs.Prelude.{ReadsOnly, IsWithinItsLimits, HaltCauses, IsReadHalt};
ghost use Rattle.pg_cli.specs.Reading.{OpensBoth, AreLacking};

use pg_evidence::{Evidence, open_evidence};
use pg_game::Game;
use pg_io::Files;
use pg_talk::{Halt, open_game};
use std::alloc::Global;

/// The game and the certificate under these names. The certificate is opened only where the game is
/// taken.
pub fn open_both<F: Files>(
    alloc: Global,
    files: &mut F,
    game: &str,
    certificate: &str,
) -> Result<(Game, Evidence), Halt>
    ensures opened { OpensBoth (F.told files.old).held game.now certificate.now result }
    ensures limits { IfOk result (λ both. IsWithinItsLimits both.1) }
    ensures halts { IfErr result IsReadHalt }
    ensures causes { HaltCauses (AreLacking (F.told files.old).held game.now certificate.now)
        (F.told files.old).faults (F.told files.new).faults result }
    ensures kept { ReadsOnly (F.told files.old) (F.told files.new) }
{
    let game = open_game(alloc, files, game)?;
    let evidence = open_evidence(alloc, files, certificate)?;
    Ok((game, evidence))
}
