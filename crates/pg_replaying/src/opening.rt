//! Reading the game and the record, and what there is to draw of them.
ghost use Rattle.std.specs.Prelude.{Ok, IfErr, IfOk};
ghost use Rattle.pg_replaying.specs.Prelude.{Finds, HaltCauses, IsAbsent, Positional, ReadsOnly};
ghost use Rattle.pg_replaying.specs.Prelude.{any_entry, any_held, entry};
ghost use Rattle.pg_replaying.specs.Due.{IsReadDue, IsRecordDue};
ghost use Rattle.pg_replaying.specs.Records.{IsRecordHalt, moves_held};
ghost use Rattle.pg_replaying.specs.Runs.{IsRecordEnd, LacksRecord, LacksRecordOf};

use crate::drawing::tell_moves;
use crate::moves::open_moves;
use crate::order::RecordOrder;
use pg_captions::Look;
use pg_drawing::{Board, Telling, open_board};
use pg_game::Game;
use pg_io::Files;
use pg_messages::Refusal;
use pg_talk::Halt;
use std::alloc::Global;

/// Returns the picture of the recorded game under a name.
fn tell_on_game<F: Files>(
    alloc: Global,
    look: Look,
    files: &mut F,
    game: &Game,
    order: RecordOrder<'_>,
) -> Result<Telling, Halt>
    ensures found { Finds (F.told files.old).held
        (λ held. IsReadDue look game.now order.entry.moves
        (moves_held game.now (held order.entry.record.now))) result }
    ensures status { IfOk result (λ told. IsRecordEnd told.status) }
    ensures halts { IfErr result IsRecordHalt }
    ensures causes { HaltCauses (IsAbsent (F.told files.old).held order.entry.record.now)
        (F.told files.old).faults (F.told files.new).faults result }
    ensures kept { ReadsOnly (F.told files.old) (F.told files.new) }
{
    let moves = open_moves(alloc, files, order.record, game)?;
    Ok(tell_moves(alloc, look, game, &moves, order.moves)?)
}

/// Returns the picture of the recorded game under a name, if games of this kind are recorded. The
/// record is opened only then.
fn tell_on_board<F: Files>(
    alloc: Global,
    look: Look,
    files: &mut F,
    board: &Board,
    order: RecordOrder<'_>,
) -> Result<Telling, Halt>
    ensures found { Finds (F.told files.old).held
        (λ held. IsRecordDue look order.entry.moves (Ok (any_entry board.now))
        (held order.entry.record.now)) result }
    ensures status { IfOk result (λ told. IsRecordEnd told.status) }
    ensures halts { IfErr result IsRecordHalt }
    ensures causes { HaltCauses
        (LacksRecordOf (Ok (any_entry board.now)) (F.told files.old).held order.entry.record.now)
        (F.told files.old).faults (F.told files.new).faults result }
    ensures kept { ReadsOnly (F.told files.old) (F.told files.new) }
{
    match board {
        Board::Positional(game) => tell_on_game(alloc, look, files, game, order),
        Board::Connectivity(_) => Err(Halt::Refused(Refusal::NoMeaning)),
        Board::Vectors(_) => Err(Halt::Refused(Refusal::NoMeaning)),
    }
}

/// Returns what there is to say to an order.
pub(crate) fn tell<F: Files>(
    alloc: Global,
    look: Look,
    order: RecordOrder<'_>,
    files: &mut F,
) -> Result<Telling, Halt>
    ensures found { Finds (F.told files.old).held
        (λ held. IsRecordDue look order.entry.moves (any_held (held order.entry.game.now))
        (held order.entry.record.now)) result }
    ensures status { IfOk result (λ told. IsRecordEnd told.status) }
    ensures halts { IfErr result IsRecordHalt }
    ensures causes { HaltCauses
        (LacksRecord (F.told files.old).held order.entry.game.now order.entry.record.now)
        (F.told files.old).faults (F.told files.new).faults result }
    ensures kept { ReadsOnly (F.told files.old) (F.told files.new) }
{
    let board = open_board(alloc, files, order.game)?;
    tell_on_board(alloc, look, files, &board, order)
}
