//! Judging a certificate for a game as it comes.
ghost use Rattle.std.specs.Prelude.{IfErr};
ghost use Rattle.pg_cli.specs.Prelude.{ReadsOnly, HaltCauses, IsReadHalt};
ghost use Rattle.pg_cli.specs.Reading.{AreLacking};
ghost use Rattle.pg_cli.specs.Verdicts.{JudgesBoth};

use pg_evidence::{Verdict, judge_evidence};
use pg_game::Game;
use pg_io::Files;
use pg_talk::{Halt, open_game};
use std::alloc::Global;

/// The game under one name, and what judging the certificate under another for it finds. The
/// certificate is opened only where the game is taken.
pub(crate) fn judge_both<F: Files>(
    alloc: Global,
    files: &mut F,
    game: &str,
    certificate: &str,
) -> Result<(Game, Verdict), Halt>
    ensures judged { JudgesBoth (F.told files.old).held game.now certificate.now result }
    ensures halts { IfErr result IsReadHalt }
    ensures causes { HaltCauses (AreLacking (F.told files.old).held game.now certificate.now)
        (F.told files.old).faults (F.told files.new).faults result }
    ensures kept { ReadsOnly (F.told files.old) (F.told files.new) }
{
    let game = open_game(alloc, files, game)?;
    let verdict = judge_evidence(alloc, files, certificate, &game)?;
    Ok((game, verdict))
}
