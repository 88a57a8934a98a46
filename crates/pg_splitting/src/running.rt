//! The top call.
ghost use Rattle.std.specs.Prelude.{◌≡◌, Err};
ghost use Rattle.std.specs.List.{All, Contains};
ghost use Rattle.pg_results.specs.GameRuns.{IsQuiet, IsSilent};
ghost use Rattle.pg_split.specs.Pieces.{IsPiece};
ghost use Rattle.pg_splitting.specs.SplitFiles.{StoresIn};
ghost use Rattle.pg_splitting.specs.SplitRuns.{DeliversSplit, EndsOnSplit, HasSplitCause};
ghost use Rattle.pg_splitting.specs.SplitRuns.{IsCalm, IsDelivered, IsUnstored, IsUnstoredAt};
ghost use Rattle.pg_splitting.specs.SplitRuns.{SplitCauses, SplitRan, SplitsAt, TellsDecline};
ghost use Rattle.pg_splitting.specs.SplitRuns.{split_statuses};
ghost use Rattle.pg_talk.specs.Done.{Does};
ghost use Rattle.pg_talk.specs.Halts.{MuteAtMemory};
ghost use Rattle.pg_talk.specs.Opening.{IsGameLacking, game_held};
ghost use Rattle.pg_talk.specs.Runs.{Runs};
ghost use Rattle.pg_talk.specs.declared.halt.Halt.TheVariants.{Refused};

use crate::order::SplitOrder;
use crate::preparing::{Decline, Prepared, prepare};
use crate::storing::store_split;
use crate::telling::{decline_text, split_text};
use pg_game::Game;
use pg_io::{Console, Files};
use pg_messages::{DONE, REFUSED};
use pg_results::end_early;
use pg_split::Split;
use pg_talk::{Halt, open_game, say_text};
use std::alloc::Global;

/// Stores what the game is split into, and then prints how many positions there are.
fn deliver_split<F: Files, C: Console>(
    alloc: Global,
    game: &mut Game,
    folder: &str,
    split: &Split,
    files: &mut F,
    console: &mut C,
) -> Result<u8, Halt>
    requires { All (IsPiece game.old) split.now.pieces.items }
    ensures delivered { Does (DeliversSplit folder.now game.old split.now)
        (F.told files.old) (F.told files.new) (C.told console.old) (C.told console.new) result }
    ensures files { StoresIn folder.now (F.told files.old) (F.told files.new) }
    ensures causes { SplitCauses ⊥ (F.told files.old) (F.told files.new)
        (C.told console.old) (C.told console.new) result }
    ensures calm { IsCalm (F.told files.old) (F.told files.new) result }
    ensures quiet { MuteAtMemory (C.told console.old) (C.told console.new) result }
    ensures gives { IsDelivered result }
{
    let text = split_text(alloc, game, split.pieces.as_slice())?;
    store_split(alloc, game, folder, split, files)?;
    say_text(console, text.as_str())?;
    Ok(DONE)
}

/// Prints why a game isn't split.
fn tell_decline<C: Console>(alloc: Global, decline: Decline, console: &mut C) -> Result<u8, Halt>
    ensures { TellsDecline decline (C.told console.old) (C.told console.new) result }
{
    let text = decline_text(alloc, decline)?;
    say_text(console, text.as_str())?;
    Ok(REFUSED)
}

/// Reads the game and what its folder contains, and splits it.
fn carry_out<F: Files, C: Console>(
    alloc: Global,
    order: SplitOrder<'_>,
    files: &mut F,
    console: &mut C,
) -> Result<u8, Halt>
    ensures ran { Runs (λ held refusal. game_held (held order.entry.game.now)
        ≡ Err (Refused refusal))
        (SplitsAt order.entry.folder.now order.entry.most (F.told files.old) (F.told files.new)
        order.entry.game.now)
        (F.told files.old) (F.told files.new) (C.told console.old) (C.told console.new) result }
    ensures causes { SplitCauses (IsGameLacking (F.told files.old).held order.entry.game.now)
        (F.told files.old) (F.told files.new) (C.told console.old) (C.told console.new) result }
    ensures quiet { IsQuiet (C.told console.old) (C.told console.new) result }
    ensures files { StoresIn order.entry.folder.now (F.told files.old) (F.told files.new) }
    ensures kept { IsUnstored (F.told files.old) (F.told files.new) result }
    ensures gives { EndsOnSplit result }
{
    let mut game = open_game(alloc, files, order.game)?;
    let prepared = prepare(alloc, &game, order, files)?;
    match prepared {
        Prepared::Split(split) => {
            deliver_split(alloc, &mut game, order.folder, &split, files, console)
        }
        Prepared::Declined(decline) => tell_decline(alloc, decline, console),
    }
}

/// Splits a game into positions that can be settled by runs of their own. The positions after as
/// many turns as leave at most `most` of them are written to `FOLDER/00001.game` and so on, and the
/// plan of the moves above them to `FOLDER/plan`, as the last file. Positions that are decided at
/// once aren't written; equal ones and images of each other are written once.
///
/// If the folder has a plan already, those of its positions are split further, each by a turn, that
/// have no certificate beside them and can still matter, the most telling first, as many as give at
/// most `most` new positions. Game files that are there stay, and the new ones get higher numbers.
///
/// - 0: all files are stored, and `positions N depth D` is printed: N positions were written, and
///   at most D turns lead to one of them.
/// - 3: the game file has a fault.
/// - 4: the plan in the folder has a fault (`plan P4 line 7`); it isn't that of the game, or would
///   get too large (`plan: of another game, or too large`); or there is none for the game (`plan:
///   none for this game`: a switching game is settled at once). Nothing is stored.
/// - 5: a call that reads failed, or the game's file isn't there; nothing is printed or stored.
/// - 6: a call that writes failed; nothing is printed. The first of the files may be stored.
/// - 7: memory ran out; nothing is printed. The first of the files may be stored.
///
/// If the files say what they contain, `ran` says what is stored and printed at each status.
/// `silent` says that nothing is printed at 5 and 7, `statuses` which statuses there are, `files`
/// that no file but game files and the plan of the folder changes, `kept` that none changes at 3, 4
/// and 5, and `causes` when a status comes from a failed call. Which positions come isn't proved:
/// see `ran` for what is.
pub fn split_game<F: Files, C: Console>(
    alloc: Global,
    order: SplitOrder<'_>,
    files: &mut F,
    console: &mut C,
) -> u8
    ensures ran { SplitRan order.entry.game.now order.entry.folder.now order.entry.most
        (F.told files.old) (F.told files.new) (C.told console.old) (C.told console.new) result }
    ensures silent { IsSilent (C.told console.old) (C.told console.new) result }
    ensures statuses { Contains split_statuses result }
    ensures files { StoresIn order.entry.folder.now (F.told files.old) (F.told files.new) }
    ensures kept { IsUnstoredAt (F.told files.old) (F.told files.new) result }
    ensures causes { HasSplitCause (IsGameLacking (F.told files.old).held order.entry.game.now)
        (F.told files.old) (F.told files.new) (C.told console.old) (C.told console.new) result }
{
    match carry_out(alloc, order, files, console) {
        Ok(status) => status,
        Err(halt) => end_early(console, halt),
    }
}
