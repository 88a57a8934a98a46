//! The commands, by their positionals and options.
ghost use Rattle.std.specs.Prelude.{◌≡◌, IfOk, option_map, string_bytes};
ghost use Rattle.pg_words.specs.Ordered.{ordered, text, texts};
ghost use Rattle.pg_words.specs.Words.{asked_by, bridge, check, generate, limit_of, made};
ghost use Rattle.pg_words.specs.Words.{of_family, play, plain, recorded, report, reviewed, rows};
ghost use Rattle.pg_words.specs.Words.{scatter, scatter_of, solve, task_of};

use crate::command::Command;
use crate::family::{Family, FamilyTask};
use crate::number::{number_in, seed as read_seed};
use crate::source::Source;
use pg_base::{Memory, Side};
use pg_game::{MAX_LINE_POINTS, MAX_LINES, MAX_POINTS, MAX_POSITIONS, MAX_SUMMED_POINTS};
use pg_gen::{MAX_BRIDGE_ROWS, MAX_SQUARE_SIDE};
use std::alloc::Global;

/// A game or a certificate under a name.
fn named(alloc: Global, name: &str) -> Result<String, Memory>
    ensures { IfOk result (λ s. string_bytes s ≡ name.now) }
{
    Ok(String::from_str(alloc, name)?)
}

/// A game and what goes with it, under their names.
fn named_pair(alloc: Global, game: &str, other: &str) -> Result<(String, String), Memory>
    ensures game { IfOk result (λ names. string_bytes names.0 ≡ game.now) }
    ensures other { IfOk result (λ names. string_bytes names.1 ≡ other.now) }
{
    Ok((named(alloc, game)?, named(alloc, other)?))
}

/// A number of positions, where one is given.
fn limit(positions: Option<&str>) -> Option<Option<u32>>
    ensures { result ≡ limit_of (text positions.entry) }
{
    match positions {
        None => Some(None),
        Some(word) => match number_in(1, MAX_POSITIONS, word) {
            None => None,
            Some(n) => Some(Some(n)),
        },
    }
}

/// `solve`, a game and a certificate, perhaps with `--positions` and the flag.
fn solve(
    alloc: Global,
    others: &[&str],
    positions: Option<&str>,
    side: Option<&str>,
    images: bool,
) -> Result<Option<Command>, Memory>
    ensures { IfOk result (λ c. option_map ordered c
        ≡ solve (texts others.now) (text positions.entry) (text side.entry) images) }
{
    let ([game, certificate], None) = (others, side) else {
        return Ok(None);
    };
    let Some(positions) = limit(positions) else {
        return Ok(None);
    };
    let (game, certificate) = named_pair(alloc, game, certificate)?;
    Ok(Some(Command::Solve {
        game,
        certificate,
        positions,
        images,
    }))
}

/// `record`, a game and a record.
fn record(
    alloc: Global,
    others: &[&str],
    positions: Option<&str>,
    side: Option<&str>,
) -> Result<Option<Command>, Memory>
    ensures { IfOk result (λ c. option_map ordered c
        ≡ recorded (texts others.now) (text positions.entry) (text side.entry)) }
{
    let ([game, record], None, None) = (others, positions, side) else {
        return Ok(None);
    };
    let (game, record) = named_pair(alloc, game, record)?;
    Ok(Some(Command::Record { game, record }))
}

/// `review`, a game and a record, perhaps with `--positions`.
fn review(
    alloc: Global,
    others: &[&str],
    positions: Option<&str>,
    side: Option<&str>,
) -> Result<Option<Command>, Memory>
    ensures { IfOk result (λ c. option_map ordered c
        ≡ reviewed (texts others.now) (text positions.entry) (text side.entry)) }
{
    let ([game, record], None) = (others, side) else {
        return Ok(None);
    };
    let Some(positions) = limit(positions) else {
        return Ok(None);
    };
    let (game, record) = named_pair(alloc, game, record)?;
    Ok(Some(Command::Review {
        game,
        record,
        positions,
    }))
}

/// `check`, a game and a certificate.
fn check(
    alloc: Global,
    others: &[&str],
    positions: Option<&str>,
    side: Option<&str>,
) -> Result<Option<Command>, Memory>
    ensures { IfOk result (λ c. option_map ordered c
        ≡ check (texts others.now) (text positions.entry) (text side.entry)) }
{
    let ([game, certificate], None, None) = (others, positions, side) else {
        return Ok(None);
    };
    let (game, certificate) = named_pair(alloc, game, certificate)?;
    Ok(Some(Command::Check { game, certificate }))
}

/// `play`, a game and a certificate, with `--side`.
fn play(
    alloc: Global,
    others: &[&str],
    positions: Option<&str>,
    side: Option<&str>,
) -> Result<Option<Command>, Memory>
    ensures { IfOk result (λ c. option_map ordered c
        ≡ play (texts others.now) (text positions.entry) (text side.entry)) }
{
    let ([game, certificate], None, Some(word)) = (others, positions, side) else {
        return Ok(None);
    };
    let Some(side) = Side::from_word(word.as_bytes()) else {
        return Ok(None);
    };
    let (game, certificate) = named_pair(alloc, game, certificate)?;
    Ok(Some(Command::Play {
        game,
        certificate,
        side,
    }))
}

/// `report`, a game and a certificate.
fn report(
    alloc: Global,
    others: &[&str],
    positions: Option<&str>,
    side: Option<&str>,
) -> Result<Option<Command>, Memory>
    ensures { IfOk result (λ c. option_map ordered c
        ≡ report (texts others.now) (text positions.entry) (text side.entry)) }
{
    let ([game, certificate], None, None) = (others, positions, side) else {
        return Ok(None);
    };
    let (game, certificate) = named_pair(alloc, game, certificate)?;
    Ok(Some(Command::Report { game, certificate }))
}

/// A game that is made and, where wanted, a certificate, under these names.
fn made(alloc: Global, names: &[&str], which: Source) -> Result<Option<Command>, Memory>
    ensures { IfOk result (λ c. option_map ordered c ≡ made (texts names.now) which) }
{
    match names {
        [game] => Ok(Some(Command::Gen {
            which,
            game: named(alloc, game)?,
            certificate: None,
        })),
        [game, certificate] => {
            let (game, certificate) = named_pair(alloc, game, certificate)?;
            Ok(Some(Command::Gen {
                which,
                game,
                certificate: Some(certificate),
            }))
        }
        _ => Ok(None),
    }
}

/// `gen rows`, a number and names.
fn rows(alloc: Global, others: &[&str]) -> Result<Option<Command>, Memory>
    ensures { IfOk result (λ c. option_map ordered c ≡ rows (texts others.now)) }
{
    let [length, names @ ..] = others else {
        return Ok(None);
    };
    match number_in(2, MAX_SQUARE_SIDE, length) {
        Some(length) => made(alloc, names, Source::Rows { length }),
        None => Ok(None),
    }
}

/// `gen bridge`, a number and names.
fn bridge(alloc: Global, others: &[&str]) -> Result<Option<Command>, Memory>
    ensures { IfOk result (λ c. option_map ordered c ≡ bridge (texts others.now)) }
{
    let [rows, names @ ..] = others else {
        return Ok(None);
    };
    match number_in(1, MAX_BRIDGE_ROWS, rows) {
        Some(rows) => made(alloc, names, Source::Bridge { rows }),
        None => Ok(None),
    }
}

/// Lines that are drawn by a seed, from four words.
fn scattered(seed: &str, points: &str, lines: &str, size: &str) -> Option<Source>
    ensures { result ≡ scatter_of seed.now points.now lines.now size.now }
{
    let seed = read_seed(seed)?;
    let points = number_in(1, MAX_POINTS as u32, points)?;
    let lines = number_in(0, MAX_LINES as u32, lines)?;
    let size = number_in(1, points.min(MAX_LINE_POINTS as u32), size)?;
    if lines * size <= MAX_SUMMED_POINTS as u32 {
        Some(Source::Scatter {
            seed,
            points,
            lines,
            size,
        })
    } else {
        None
    }
}

/// `gen scatter`, four numbers and names.
fn scatter(alloc: Global, others: &[&str]) -> Result<Option<Command>, Memory>
    ensures { IfOk result (λ c. option_map ordered c ≡ scatter (texts others.now)) }
{
    let [seed, points, lines, size, names @ ..] = others else {
        return Ok(None);
    };
    match scattered(seed, points, lines, size) {
        Some(which) => made(alloc, names, which),
        None => Ok(None),
    }
}

/// `gen`, a kind, its numbers and names.
fn generate(
    alloc: Global,
    others: &[&str],
    positions: Option<&str>,
    side: Option<&str>,
) -> Result<Option<Command>, Memory>
    ensures { IfOk result (λ c. option_map ordered c
        ≡ generate (texts others.now) (text positions.entry) (text side.entry)) }
{
    let ([kind, others @ ..], None, None) = (others, positions, side) else {
        return Ok(None);
    };
    match *kind {
        "rows" => rows(alloc, others),
        "bridge" => bridge(alloc, others),
        "scatter" => scatter(alloc, others),
        _ => Ok(None),
    }
}

/// What is to be done with a game of a family: `play` alone takes a side, and needs one.
fn task(name: &str, side: Option<&str>) -> Option<FamilyTask>
    ensures { result ≡ task_of name.now (text side.entry) }
{
    match (name, side) {
        ("solve", None) => Some(FamilyTask::Solve),
        ("check", None) => Some(FamilyTask::Check),
        ("play", Some(word)) => {
            let side = Side::from_word(word.as_bytes())?;
            Some(FamilyTask::Play { side })
        }
        _ => None,
    }
}

/// `span` or `vec`, what is to be done, a game and a certificate.
fn of_family(
    alloc: Global,
    family: Family,
    others: &[&str],
    positions: Option<&str>,
    side: Option<&str>,
) -> Result<Option<Command>, Memory>
    ensures { IfOk result (λ c. option_map ordered c
        ≡ of_family family (texts others.now) (text positions.entry) (text side.entry)) }
{
    let ([name, game, certificate], None) = (others, positions) else {
        return Ok(None);
    };
    let Some(task) = task(name, side) else {
        return Ok(None);
    };
    let (game, certificate) = named_pair(alloc, game, certificate)?;
    Ok(Some(Command::OfFamily {
        family,
        task,
        game,
        certificate,
    }))
}

/// What the first positional, the others and the options ask for, without a flag.
fn plain(
    alloc: Global,
    name: &str,
    others: &[&str],
    positions: Option<&str>,
    side: Option<&str>,
) -> Result<Option<Command>, Memory>
    ensures { IfOk result (λ c. option_map ordered c
        ≡ plain name.now (texts others.now) (text positions.entry) (text side.entry)) }
{
    match name {
        "check" => check(alloc, others, positions, side),
        "play" => play(alloc, others, positions, side),
        "gen" => generate(alloc, others, positions, side),
        "report" => report(alloc, others, positions, side),
        "span" => of_family(alloc, Family::Connectivity, others, positions, side),
        "vec" => of_family(alloc, Family::Vectors, others, positions, side),
        "record" => record(alloc, others, positions, side),
        "review" => review(alloc, others, positions, side),
        _ => Ok(None),
    }
}

/// What positionals and options ask for: `solve` alone takes the flag.
pub(crate) fn asked(
    alloc: Global,
    positionals: &[&str],
    positions: Option<&str>,
    side: Option<&str>,
    images: bool,
) -> Result<Option<Command>, Memory>
    ensures { IfOk result (λ c. option_map ordered c
        ≡ asked_by (texts positionals.now) (text positions.entry) (text side.entry) images) }
{
    let [name, others @ ..] = positionals else {
        return Ok(None);
    };
    if *name == "solve" {
        return solve(alloc, others, positions, side, images);
    }
    if images {
        return Ok(None);
    }
    plain(alloc, name, others, positions, side)
}
