//! The top call.
ghost use Rattle.std.specs.Prelude.{◌≡◌, Err};
ghost use Rattle.pg_moves.specs.Prelude.{BothCauses, Contains, EndsOnGame, HasCause, IsBudget};
ghost use Rattle.pg_moves.specs.Prelude.{IsGameLacking, IsQuiet, IsSilent, ReadsOnly, Refused};
ghost use Rattle.pg_moves.specs.Prelude.{Runs, game_held, game_statuses, json_name};
ghost use Rattle.pg_moves.specs.MoveRuns.{ActsOn, MovesRan};

use crate::order::MovesOrder;
use crate::telling::tell_moves;
use pg_io::{Console, Files};
use pg_results::end_early;
use pg_settle::Finder;
use pg_talk::{Halt, open_game};
use std::alloc::Global;

/// Reads the game, tries its moves and prints them.
fn carry_out<F: Files, C: Console, S: Finder>(
    alloc: Global,
    order: MovesOrder<'_>,
    finder: &mut S,
    files: &mut F,
    console: &mut C,
) -> Result<u8, Halt>
    requires { IsBudget order.budget }
    ensures ran { Runs (λ held refusal. game_held (held order.entry.game.now)
        ≡ Err (Refused refusal))
        (ActsOn (S.brings finder.old) order.entry.budget
        (json_name order.entry.json order.entry.game.now) order.entry.game.now)
        (F.told files.old) (F.told files.new) (C.told console.old) (C.told console.new) result }
    ensures causes { BothCauses (IsGameLacking (F.told files.old).held order.entry.game.now)
        (F.told files.old) (F.told files.new) (C.told console.old) (C.told console.new) result }
    ensures quiet { IsQuiet (C.told console.old) (C.told console.new) result }
    ensures files { ReadsOnly (F.told files.old) (F.told files.new) }
    ensures gives { EndsOnGame result }
{
    let mut game = open_game(alloc, files, order.game)?;
    tell_moves(alloc, &mut game, order, finder, console)
}

/// Reads a game, and prints for each legal move, in ascending order of the points, what is known of
/// the position after it, and then which moves keep the value of the game. Nothing is stored.
///
/// - `V W nodes K expanded E`: after the move on V the value is W. The finder brought a certificate
///   of K nodes for that, expanded E positions, and the judge accepted the certificate. A switching
///   game is decided by two forests, with E = 0.
/// - `V unknown after E positions`: the finder brought none that the judge accepts, or, with E = 0,
///   the game isn't over and the side has further points to claim in this turn: no game file says
///   such a position.
/// - `best V1 V2 ..`: these moves and no others keep the value; `best unknown` if a value is
///   unknown. If the game is over there is no move, and `best` stands alone.
///
/// With `json` of the order one line of JSON is printed instead.
///
/// The exit statuses are 0, 1 if the best moves are unknown, and otherwise those of `settle`.
///
/// If the files say what they contain, `ran` says what is printed at each status: each value that
/// is printed is that of the position after the move. `silent` says that nothing is printed at 5
/// and 7, `statuses` which statuses there are, `files` that no file is changed, and `causes` when a
/// status comes from a failed call.
pub fn settle_moves<F: Files, C: Console, S: Finder>(
    alloc: Global,
    order: MovesOrder<'_>,
    finder: &mut S,
    files: &mut F,
    console: &mut C,
) -> u8
    requires { IsBudget order.budget }
    ensures ran { MovesRan (S.brings finder.old) order.entry.budget
        (json_name order.entry.json order.entry.game.now) order.entry.game.now
        (F.told files.old) (F.told files.new) (C.told console.old) (C.told console.new) result }
    ensures silent { IsSilent (C.told console.old) (C.told console.new) result }
    ensures statuses { Contains game_statuses result }
    ensures files { ReadsOnly (F.told files.old) (F.told files.new) }
    ensures causes { HasCause (IsGameLacking (F.told files.old).held order.entry.game.now)
        (F.told files.old) (F.told files.new) (C.told console.old) (C.told console.new) result }
{
    match carry_out(alloc, order, finder, files, console) {
        Ok(status) => status,
        Err(halt) => end_early(console, halt),
    }
}
