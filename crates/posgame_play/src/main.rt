//! The program: it lets people play the game that its arguments name, two against each other or one
//! against the program, and exits with a status.
#![tactic(auto)]

mod complaint;
mod look;
mod sparing;
mod usage;

use pg_base::Side;
use pg_characters::Look;
use pg_computer::{VersusOrder, versus};
use pg_duel::{Challenge, duel};
use pg_finder::ProofNumbers;
use pg_host::{HostConsole, HostFiles, guard_streams, words_given};
use pg_io::{Console, Files};
use pg_laying::{open_layout, tell_no_layout};
use pg_layout::Chart;
use pg_limits::Unwatched;
use pg_messages::WRITE_FAILED;
use pg_playing::{Order, play};
use pg_results::end_early;
use pg_settle::Budget;
use pg_talk::Halt;
use std::alloc::Global;
use std::process::ExitCode;
use usage::Asked;

/// How much a search may use for each move that the program tries. A count of positions, so that
/// the program plays the same on each machine.
const BUDGET: Budget = Budget {
    positions: 100,
    entries: 10_000,
    nodes: 10_000,
};

/// Plays against the program, by the searches of `pg_finder`.
fn play_computer<F: Files, C: Console>(
    alloc: Global,
    asked: &Asked<'_>,
    side: Side,
    look: Look,
    files: &mut F,
    console: &mut C,
) -> Result<u8, Halt> {
    let order = VersusOrder {
        game: asked.game,
        side,
        turn: asked.turn,
        budget: BUDGET,
        record: asked.record,
        look,
    };
    let mut finder = ProofNumbers { watch: Unwatched };
    versus(alloc, order, &mut finder, files, console)
}

/// Plays by a certificate.
fn play_certificate<F: Files, C: Console>(
    alloc: Global,
    asked: &Asked<'_>,
    certificate: &str,
    look: Look,
    files: &mut F,
    console: &mut C,
) -> Result<u8, Halt> {
    let challenge = Challenge {
        game: asked.game,
        certificate,
        side: asked.side,
        turn: asked.turn,
        record: asked.record,
        look,
    };
    duel(alloc, challenge, files, console)
}

/// Plays the game: against the program, by a search or a certificate, or between two people.
fn play_asked<F: Files, C: Console>(
    alloc: Global,
    asked: &Asked<'_>,
    look: Look,
    files: &mut F,
    console: &mut C,
) -> Result<u8, Halt> {
    if let Some(certificate) = asked.certificate {
        return play_certificate(alloc, asked, certificate, look, files, console);
    }
    if let Some(side) = asked.computer {
        return play_computer(alloc, asked, side, look, files, console);
    }
    let order = Order {
        game: asked.game,
        turn: asked.turn,
        record: asked.record,
        look,
    };
    play(alloc, order, files, console)
}

/// Returns how the board is shown, with its layout if one is asked for; or the status of the run if
/// there is none, which is said.
fn look_with_layout<F: Files, C: Console>(
    alloc: Global,
    asked: &Asked<'_>,
    look: Look,
    files: &mut F,
    console: &mut C,
) -> Result<Look, u8> {
    let Some(layout) = asked.layout else {
        return Ok(look);
    };
    match open_layout(alloc, files, asked.game, layout) {
        Ok(spots) => {
            let mut look = look;
            look.layout = Chart::of(spots.as_slice());
            Ok(look)
        }
        Err(why) => Err(tell_no_layout(alloc, console, why)),
    }
}

/// Plays the game, unless the record would replace a file that is read, and returns the status.
fn run(rt: &HostRuntime, asked: &Asked<'_>) -> u8 {
    if sparing::replaced(rt, asked).is_some() {
        return WRITE_FAILED;
    }
    let mut files = HostFiles::new(rt);
    let mut console = HostConsole::new(rt);
    let plain = look::look(rt);
    let look = match look_with_layout(rt.alloc(), asked, plain, &mut files, &mut console) {
        Ok(look) => look,
        Err(status) => return status,
    };
    match play_asked(rt.alloc(), asked, look, &mut files, &mut console) {
        Ok(status) => status,
        Err(halt) => end_early(&mut console, halt),
    }
}

fn main(rt: HostRuntime) -> ExitCode {
    guard_streams(&rt);
    let words = match words_given(&rt) {
        Ok(words) => words,
        Err(status) => return ExitCode::from(status),
    };
    let asked = match usage::read_words(rt.alloc(), &words) {
        Ok(asked) => asked,
        Err(error) => {
            let _ = error.print(&rt);
            return ExitCode::from(usage::status_of(&error));
        }
    };
    let status = run(&rt, &asked);
    complaint::say(&rt, status, &asked);
    ExitCode::from(status)
}
