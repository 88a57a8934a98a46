//! Making a game from numbers.
ghost use Rattle.std.specs.Prelude.{◌≡◌, ◌≢◌, ◌≤◌, [], ◌∷◌, false, map, IfErr, IfOk};
ghost use Rattle.pg_cli.specs.Prelude.{Grows, Said, node_count, MAX_NODES, Switching, budget};
ghost use Rattle.pg_cli.specs.Prelude.{IsLeft, message_text, DONE, text, Gen, Does, BothCauses};
ghost use Rattle.pg_cli.specs.Prelude.{IsWriteHalt, MuteAtMemory, Delivers, StoresAt};
ghost use Rattle.pg_cli.specs.Commands.{Gives, LeavesFiles, LeavesWork, Quiets, built};
ghost use Rattle.pg_cli.specs.Generating.{IsMadeOf, game_file, size_text, size_texts};
ghost use Rattle.pg_cli.specs.Run.{Carries};
ghost use Rattle.pg_cli.specs.Solving.{IsSolveEnd, SolvesGame, result_and_counts};
ghost use Rattle.pg_cli.specs.declared.solving.TheConstants.{DEFAULT_POSITIONS};

use crate::solving::{DEFAULT_POSITIONS, deliver_solution, find};
use pg_base::Memory;
use pg_cert::Cert;
use pg_files::print_game;
use pg_game::{Field, Game};
use pg_gen::{GenFault, bridge, rows, scatter};
use pg_io::{Console, Files};
use pg_messages::{Message, Refusal, UNKNOWN};
use pg_pns::{Work, budget_of};
use pg_results::node_count;
use pg_talk::{Halt, deliver, say};
use pg_words::Source;
use std::alloc::Global;

/// The game that is made of the numbers; none where a number is outside its range. The words ask
/// for no such number.
fn made(alloc: Global, which: Source) -> Result<Option<Game>, Memory>
    ensures { IfOk result (IsMadeOf which) }
{
    let made = match which {
        Source::Rows { length } => rows(alloc, length),
        Source::Bridge { rows } => bridge(alloc, rows),
        Source::Scatter {
            seed,
            points,
            lines,
            size,
        } => scatter(alloc, seed, points, lines, size),
    };
    match made {
        Ok(game) => Ok(Some(game)),
        Err(GenFault::Range) => Ok(None),
        Err(GenFault::Memory) => Err(Memory),
    }
}

/// The message that tells how large a game is.
fn size_message(game: &Game) -> Message
    ensures { message_text result ≡ size_text game.now.field }
{
    match &game.field {
        Field::Lines(field) => Message::LineGame {
            points: u32::from(field.points),
            lines: field.lines.as_slice().len() as u32,
        },
        Field::Graph(graph) => Message::SwitchingGame {
            vertices: u32::from(graph.vertices),
            edges: u32::from(game.points()),
        },
    }
}

/// Stores a game, and says how large it is.
fn deliver_game<F: Files, C: Console>(
    alloc: Global,
    game: &Game,
    name: &str,
    files: &mut F,
    console: &mut C,
) -> Result<u8, Halt>
    ensures delivered { Does (Delivers (game_file name.now game.now) (size_texts game.now))
        (F.told files.old) (F.told files.new) (C.told console.old) (C.told console.new) result }
    ensures said { IfOk result (λ _. Grows (C.told console.old).log (C.told console.new).log
        (map Said (size_texts game.now))) }
    ensures files { StoresAt (name.now ∷ []) (F.told files.old) (F.told files.new) }
    ensures causes { BothCauses ⊥ (F.told files.old) (F.told files.new)
        (C.told console.old) (C.told console.new) result }
    ensures quiet { MuteAtMemory (C.told console.old) (C.told console.new) result }
    ensures done { IfOk result (λ status. status ≡ DONE) }
    ensures halts { IfErr result IsWriteHalt }
{
    let text = print_game(alloc, game)?;
    deliver(name, &text, size_message(game), None, files, console)
}

/// Solves a game that was made, and says after the result how many positions were expanded and how
/// many nodes the certificate has.
fn solve_made<F: Files, C: Console>(
    alloc: Global,
    game: &Game,
    certificate: &str,
    files: &mut F,
    console: &mut C,
    work: &mut Work,
) -> Result<u8, Halt>
    requires { work.old.positions ≡ [] }
    ensures solved { Does
        (SolvesGame false
        (result_and_counts game.now work.new) game.now certificate.now DEFAULT_POSITIONS work.new)
        (F.told files.old) (F.told files.new) (C.told console.old) (C.told console.new) result }
    ensures files { StoresAt (certificate.now ∷ []) (F.told files.old) (F.told files.new) }
    ensures causes { BothCauses ⊥ (F.told files.old) (F.told files.new)
        (C.told console.old) (C.told console.new) result }
    ensures quiet { MuteAtMemory (C.told console.old) (C.told console.new) result }
    ensures work { game.now.kind ≢ Switching
        → IsLeft game.now (budget game.now DEFAULT_POSITIONS) work.new }
    ensures untouched { game.now.kind ≡ Switching → work.new ≡ work.old }
    ensures done { IfOk result (IsSolveEnd game.now.kind) }
    ensures halts { IfErr result IsWriteHalt }
{
    match find(alloc, game, DEFAULT_POSITIONS, work)? {
        Some((message, shown)) => {
            let counts = Message::Expanded {
                positions: work.positions() as u32,
                nodes: node_count(&shown),
            };
            deliver_solution(
                alloc,
                certificate,
                &shown,
                message,
                Some(counts),
                files,
                console,
            )
        }
        None => {
            say(
                console,
                Message::Unknown(budget_of(game, DEFAULT_POSITIONS)),
            )?;
            Ok(UNKNOWN)
        }
    }
}

/// Makes a game and stores it under a name; and where a certificate is wanted, solves the game and
/// stores the certificate under its name.
pub fn generate<F: Files, C: Console>(
    alloc: Global,
    which: Source,
    game: &str,
    certificate: Option<&str>,
    files: &mut F,
    console: &mut C,
    work: &mut Work,
) -> Result<u8, Halt>
    requires { work.old.positions ≡ [] }
    ensures ran { Carries (built (Gen which game.now (text certificate.entry))) work.new
        (F.told files.old) (F.told files.new) (C.told console.old) (C.told console.new) result }
    ensures causes { BothCauses ⊥ (F.told files.old) (F.told files.new)
        (C.told console.old) (C.told console.new) result }
    ensures quiet { Quiets (built (Gen which game.now (text certificate.entry)))
        (C.told console.old) (C.told console.new) result }
    ensures files { LeavesFiles (built (Gen which game.now (text certificate.entry)))
        (F.told files.old) (F.told files.new) }
    ensures work { LeavesWork (F.told files.old).held
        (built (Gen which game.now (text certificate.entry))) work.old work.new }
    ensures gives { Gives (built (Gen which game.now (text certificate.entry))) result }
{
    let Some(made) = made(alloc, which)? else {
        return Err(Halt::Refused(Refusal::NoMeaning));
    };
    let status = deliver_game(alloc, &made, game, files, console)?;
    match certificate {
        None => Ok(status),
        Some(certificate) => solve_made(alloc, &made, certificate, files, console, work),
    }
}
