//! Reviewing the record of a game.
ghost use Rattle.std.specs.Prelude.{◌≡◌, ◌≤◌, [], Err, ⊤};
ghost use Rattle.pg_sessions.specs.Prelude.{MAX_POSITIONS, Grows, ReadsOnly, MIN_POSITIONS};
ghost use Rattle.pg_sessions.specs.Prelude.{BothCauses, IsLackingOne, QuietsBy, Runs, Refused};
ghost use Rattle.pg_sessions.specs.Prelude.{LeavesSearch};
ghost use Rattle.pg_sessions.specs.Along.{IsAlong, IsOfMoves, IsOfNames, IsReached};
ghost use Rattle.pg_sessions.specs.Review.{GivesReview, IsReviewLacking, RefusesReview, Reviews};
ghost use Rattle.pg_sessions.specs.Review.{ReviewsRecord, moves_held};

use crate::opening::open_moves;
use crate::reviewing::review_moves;
use pg_game::{Game, MAX_POSITIONS};
use pg_io::{Console, Files};
use pg_pns::Work;
use pg_solve::MIN_POSITIONS;
use pg_talk::{Halt, open_game};
use std::alloc::Global;

/// Reviews the record of a game under a name.
fn review_record<F: Files, C: Console>(
    alloc: Global,
    record: &str,
    game: &mut Game,
    positions: u32,
    files: &mut F,
    console: &mut C,
    work: &mut Work,
) -> Result<u8, Halt>
    requires some { MIN_POSITIONS ≤ positions }
    requires most { positions ≤ MAX_POSITIONS }
    ensures ran { Runs
        (λ held refusal. moves_held game.old (held record.now) ≡ Err (Refused refusal))
        (λ held done end.
        ReviewsRecord game.old (held record.now) positions work.new done.entries end
        × (done.stored ≡ [])) (F.told files.old) (F.told files.new) (C.told console.old)
        (C.told console.new) result }
    ensures causes { BothCauses
        (IsLackingOne (moves_held game.old) (F.told files.old).held record.now) (F.told files.old)
        (F.told files.new) (C.told console.old) (C.told console.new) result }
    ensures quiet { QuietsBy (Grows (C.told console.old).log (C.told console.new).log []) ⊤
        (C.told console.old) (C.told console.new) result }
    ensures files { ReadsOnly (F.told files.old) (F.told files.new) }
    ensures work { LeavesSearch (IsOfMoves IsAlong game.old (F.told files.old).held record.now)
        positions work.old work.new }
    ensures prompt { LeavesSearch
        (IsOfMoves (IsReached (C.told console.old) (C.told console.new))
        game.old (F.told files.old).held record.now)
        positions work.old work.new }
    ensures gives { GivesReview result }
{
    let moves = open_moves(alloc, files, record, game)?;
    review_moves(alloc, game, moves.as_slice(), positions, console, work)
}

/// Says which standing moves of the record under one name lost value, in the game under another:
/// each move after which the value of the game is worse for the side that moved than before it,
/// with its number, its point and both values. At the end it says how many moves stand.
///
/// The positions before, between and after the moves are decided in order as `pg_solve::solve`
/// does, each with `positions` of its own, where the certificates found before don't tell the
/// value; each loss is said as soon as both values are known. The first position that stays open
/// ends the review with status 1, and `work` then holds what was asked last there.
///
/// # Errors
///
/// `Refused` with the first fault of the game's file, with fault `SEVERAL_A_TURN` of the game where
/// Y claims several points a turn, which is found before the record is opened, or with the first
/// fault of the record's file. `Stopped` where a call on files or the console has failed, a name
/// isn't held, or memory is wanting.
pub fn review<F: Files, C: Console>(
    alloc: Global,
    game: &str,
    record: &str,
    positions: u32,
    files: &mut F,
    console: &mut C,
    work: &mut Work,
) -> Result<u8, Halt>
    requires some { MIN_POSITIONS ≤ positions }
    requires most { positions ≤ MAX_POSITIONS }
    ensures ran { Runs (λ held. RefusesReview (held game.now) (held record.now))
        (λ held done end. Reviews (held game.now) (held record.now) positions work.new done end
        × (done.stored ≡ []))
        (F.told files.old) (F.told files.new) (C.told console.old) (C.told console.new) result }
    ensures causes { BothCauses (IsReviewLacking (F.told files.old).held game.now record.now)
        (F.told files.old) (F.told files.new) (C.told console.old) (C.told console.new) result }
    ensures quiet { QuietsBy (Grows (C.told console.old).log (C.told console.new).log []) ⊤
        (C.told console.old) (C.told console.new) result }
    ensures files { ReadsOnly (F.told files.old) (F.told files.new) }
    ensures work { LeavesSearch (IsOfNames IsAlong (F.told files.old).held game.now record.now)
        positions work.old work.new }
    ensures prompt { LeavesSearch
        (IsOfNames (IsReached (C.told console.old) (C.told console.new))
        (F.told files.old).held game.now record.now)
        positions work.old work.new }
    ensures gives { GivesReview result }
{
    let mut game = open_game(alloc, files, game)?;
    review_record(alloc, record, &mut game, positions, files, console, work)
}
