//! Solving a game, and storing what shows it.
ghost use Rattle.std.specs.Prelude.{◌≡◌, ◌≢◌, ◌≤◌, [], ◌∷◌, length, IfErr, IfOk, IfSome, Some};
ghost use Rattle.pg_cli.specs.Prelude.{IsWithinLimits, printed_certificate, Switching};
ghost use Rattle.pg_cli.specs.Prelude.{MAX_POSITIONS, budget, IsLeft, MIN_POSITIONS, message_text};
ghost use Rattle.pg_cli.specs.Prelude.{DONE, UNKNOWN, Solve, Does, BothCauses, IsWriteHalt};
ghost use Rattle.pg_cli.specs.Prelude.{MuteAtMemory, IsGameLacking, Delivers, StoresAt, texts_of};
ghost use Rattle.pg_cli.specs.Commands.{Gives, LeavesWork, Quiets};
ghost use Rattle.pg_cli.specs.Run.{Carries};
ghost use Rattle.pg_cli.specs.Solving.{IsFound, IsSolveEnd, SolvesGame, positions_for};
ghost use Rattle.pg_cli.specs.Solving.{result_alone};

use pg_base::Memory;
use pg_cert::{Cert, print_cert};
use pg_game::{Game, MAX_POSITIONS};
use pg_io::{Console, Files};
use pg_messages::{Message, UNKNOWN};
use pg_pns::{Work, budget_of};
use pg_results::{class_message, print_solution};
use pg_solve::{MIN_POSITIONS, Solution};
use pg_talk::{Halt, deliver, open_game, say};
use std::alloc::Global;

/// How many positions may be expanded where the words say none.
pub const DEFAULT_POSITIONS: u32 = 20_000;

/// How a game is to be solved.
#[derive(Clone, Copy, Debug)]
pub struct Options {
    /// How many positions may be expanded.
    pub positions: u32,
    /// Whether the certificate is to be folded: a node that is turned or reflected is said as the
    /// image of another.
    pub images: bool,
}

/// How many positions may be expanded, where so many are asked for or none are said. The words ask
/// for no number that isn't allowed.
pub fn positions_for(positions: Option<u32>) -> Option<u32>
    ensures exact { result ≡ positions_for positions }
    ensures within { IfSome result (λ n. (MIN_POSITIONS ≤ n) × (n ≤ MAX_POSITIONS)) }
{
    match positions {
        None => Some(DEFAULT_POSITIONS),
        Some(n) if MIN_POSITIONS <= n && n <= MAX_POSITIONS => Some(n),
        Some(_) => None,
    }
}

/// Stores a certificate that shows what was found, and says what was found, and a further message
/// where it is given.
pub fn deliver_solution<F: Files, C: Console>(
    alloc: Global,
    name: &str,
    certificate: &Cert,
    message: Message,
    further: Option<Message>,
    files: &mut F,
    console: &mut C,
) -> Result<u8, Halt>
    requires { IsWithinLimits certificate.now }
    ensures delivered { Does (Delivers (name.now, printed_certificate certificate.now)
        (texts_of message further))
        (F.told files.old) (F.told files.new) (C.told console.old) (C.told console.new) result }
    ensures files { StoresAt (name.now ∷ []) (F.told files.old) (F.told files.new) }
    ensures causes { BothCauses ⊥ (F.told files.old) (F.told files.new)
        (C.told console.old) (C.told console.new) result }
    ensures quiet { MuteAtMemory (C.told console.old) (C.told console.new) result }
    ensures done { IfOk result (λ status. status ≡ DONE) }
    ensures halts { IfErr result IsWriteHalt }
{
    let text = print_cert(alloc, certificate)?;
    deliver(name, &text, message, further, files, console)
}

/// What is found of a game: the message that says it, and the certificate that shows it; none where
/// the question that was asked last stays open.
pub fn find(
    alloc: Global,
    game: &Game,
    positions: u32,
    work: &mut Work,
) -> Result<Option<(Message, Cert)>, Memory>
    requires some { MIN_POSITIONS ≤ positions }
    requires most { positions ≤ MAX_POSITIONS }
    ensures found { IfOk result (IsFound game.now positions work.new) }
    ensures few { work.old.positions ≡ [] → length work.new.positions ≤ MAX_POSITIONS }
    ensures work { game.now.kind ≢ Switching
        → IsLeft game.now (budget game.now positions) work.new }
    ensures untouched { game.now.kind ≡ Switching → work.new ≡ work.old }
{
    match pg_solve::solve(alloc, game, positions, work)? {
        Solution::Value { score, certificate } => {
            let kind = game.kind;
            Ok(Some((Message::Result { kind, score }, certificate)))
        }
        Solution::Class { class, certificate } => Ok(Some((class_message(class), certificate))),
        Solution::Unknown => Ok(None),
    }
}

/// Solves a game that was read.
fn solve_game<F: Files, C: Console>(
    alloc: Global,
    game: &Game,
    certificate: &str,
    options: Options,
    files: &mut F,
    console: &mut C,
    work: &mut Work,
) -> Result<u8, Halt>
    requires some { MIN_POSITIONS ≤ options.positions }
    requires most { options.positions ≤ MAX_POSITIONS }
    ensures solved { Does
        (SolvesGame options.images
        (result_alone game.now) game.now certificate.now options.positions work.new)
        (F.told files.old) (F.told files.new) (C.told console.old) (C.told console.new) result }
    ensures files { StoresAt (certificate.now ∷ []) (F.told files.old) (F.told files.new) }
    ensures causes { BothCauses ⊥ (F.told files.old) (F.told files.new)
        (C.told console.old) (C.told console.new) result }
    ensures quiet { MuteAtMemory (C.told console.old) (C.told console.new) result }
    ensures work { game.now.kind ≢ Switching
        → IsLeft game.now (budget game.now options.positions) work.new }
    ensures untouched { game.now.kind ≡ Switching → work.new ≡ work.old }
    ensures done { IfOk result (IsSolveEnd game.now.kind) }
    ensures halts { IfErr result IsWriteHalt }
{
    match find(alloc, game, options.positions, work)? {
        Some((message, shown)) => {
            let text = print_solution(alloc, game, &shown, options.images)?;
            deliver(certificate, &text, message, None, files, console)
        }
        None => {
            say(
                console,
                Message::Unknown(budget_of(game, options.positions)),
            )?;
            Ok(UNKNOWN)
        }
    }
}

/// Solves the game under one name, and stores the certificate that shows it under another.
pub fn solve<F: Files, C: Console>(
    alloc: Global,
    game: &str,
    certificate: &str,
    options: Options,
    files: &mut F,
    console: &mut C,
    work: &mut Work,
) -> Result<u8, Halt>
    requires some { MIN_POSITIONS ≤ options.positions }
    requires most { options.positions ≤ MAX_POSITIONS }
    ensures ran { Carries
        (Some (Solve game.now certificate.now (Some options.positions) options.images)) work.new
        (F.told files.old) (F.told files.new) (C.told console.old) (C.told console.new) result }
    ensures causes { BothCauses (IsGameLacking (F.told files.old).held game.now)
        (F.told files.old) (F.told files.new) (C.told console.old) (C.told console.new) result }
    ensures quiet { Quiets
        (Some (Solve game.now certificate.now (Some options.positions) options.images))
        (C.told console.old) (C.told console.new) result }
    ensures files { StoresAt (certificate.now ∷ []) (F.told files.old) (F.told files.new) }
    ensures work { LeavesWork (F.told files.old).held
        (Some (Solve game.now certificate.now (Some options.positions) options.images))
        work.old work.new }
    ensures gives { Gives
        (Some (Solve game.now certificate.now (Some options.positions) options.images)) result }
{
    let game = open_game(alloc, files, game)?;
    solve_game(alloc, &game, certificate, options, files, console, work)
}
