//! The top call.
ghost use Rattle.std.specs.Prelude.{◌≡◌, [], ◌∷◌};
ghost use Rattle.pg_settle.specs.Prelude.{BothCauses, Contains, EndsOnGame, HasCause};
ghost use Rattle.pg_settle.specs.Prelude.{IsGameLacking, IsQuiet, IsSilent, StoresAt};
ghost use Rattle.pg_settle.specs.Prelude.{game_statuses};
ghost use Rattle.pg_settle.specs.Budgets.{IsBudget};
ghost use Rattle.pg_settle.specs.Runs.{AnnouncesValue, Carries, Ran};
ghost use Rattle.pg_settle.specs.Settling.{form_of};

use crate::finder::Finder;
use crate::order::Order;
use crate::settling::settle_game;
use pg_io::{Console, Files};
use pg_results::end_early;
use pg_talk::{Halt, open_game};
use std::alloc::Global;

/// Reads the game that is to be settled, and settles it.
fn carry_out<F: Files, C: Console, S: Finder>(
    alloc: Global,
    order: Order<'_>,
    finder: &mut S,
    files: &mut F,
    console: &mut C,
) -> Result<u8, Halt>
    requires { IsBudget order.budget }
    ensures ran { Carries (S.brings finder.old)
        (form_of order.entry.images order.entry.json order.entry.game.now)
        order.entry.game.now order.entry.certificate.now order.entry.budget
        (F.told files.old) (F.told files.new) (C.told console.old) (C.told console.new) result }
    ensures causes { BothCauses (IsGameLacking (F.told files.old).held order.entry.game.now)
        (F.told files.old) (F.told files.new) (C.told console.old) (C.told console.new) result }
    ensures quiet { IsQuiet (C.told console.old) (C.told console.new) result }
    ensures files { StoresAt (order.entry.certificate.now ∷ [])
        (F.told files.old) (F.told files.new) }
    ensures gives { EndsOnGame result }
{
    let game = open_game(alloc, files, order.game)?;
    settle_game(alloc, &game, order, finder, files, console)
}

/// Settles a game: reads it, asks the finder for a certificate, judges that, and where it shows its
/// score stores it and says `result` with the score, and then `expanded` with the number of
/// positions that the finder has expanded and that of the certificate's nodes. A certificate that
/// the judge doesn't accept counts as none: the answer is the same as where nothing was found. A
/// switching game is decided by two forests, as by the command `solve`, and no finder is asked.
///
/// - 0: the certificate is stored, and the score, or the class of a switching game, is said.
/// - 1: nothing was found, or nothing that is accepted: `unknown after` so many positions is said.
/// - 3: the game file has a fault.
/// - 5: a call that reads has failed, or the game's name isn't held; nothing is said.
/// - 6: a call that writes has failed; nothing is said of it.
/// - 7: memory is wanting; nothing is said.
///
/// Where the files tell what they hold, `ran` says what is said and stored at each status: at 0 the
/// stored file is exactly the text of the certificate that the finder brought, folded where images
/// are asked for, which is valid, with the claims that are due, and what is said first is the value
/// of the game; at 1 the finder brought nothing that shows its score, and nothing is stored.
/// `forced` says that at any status a score that is said is the value of the game that the file
/// says. `silent` says that nothing is said at 5 and 7, `statuses` which statuses there are,
/// `files` that other names keep what they held, and `causes` when a status comes from a failed
/// call.
pub fn settle<F: Files, C: Console, S: Finder>(
    alloc: Global,
    order: Order<'_>,
    finder: &mut S,
    files: &mut F,
    console: &mut C,
) -> u8
    requires { IsBudget order.budget }
    ensures ran { Ran (S.brings finder.old)
        (form_of order.entry.images order.entry.json order.entry.game.now)
        order.entry.game.now order.entry.certificate.now order.entry.budget
        (F.told files.old) (F.told files.new) (C.told console.old) (C.told console.new) result }
    ensures forced { AnnouncesValue (F.told files.old).held order.entry.game.now
        (C.told console.old).log (C.told console.new).log }
    ensures silent { IsSilent (C.told console.old) (C.told console.new) result }
    ensures statuses { Contains game_statuses result }
    ensures files { StoresAt (order.entry.certificate.now ∷ [])
        (F.told files.old) (F.told files.new) }
    ensures causes { HasCause (IsGameLacking (F.told files.old).held order.entry.game.now)
        (F.told files.old) (F.told files.new) (C.told console.old) (C.told console.new) result }
{
    match carry_out(alloc, order, finder, files, console) {
        Ok(status) => status,
        Err(halt) => end_early(console, halt),
    }
}
