//! Rows of a script.
ghost use Rattle.pg_settle.specs.Budgets.{IsBudget};

use crate::stand_in::StandIn;
use pg_io::{Entry, MemConsole, MemFiles, Text};
use pg_joining::{JoinOrder, join};
use pg_moves::{MovesOrder, settle_moves};
use pg_settle::{Budget, Order, budget_for, settle};
use pg_splitting::{DEFAULT_PIECES, SplitOrder, split_game};
use std::alloc::{AllocError, Global};
use std::fmt::Write;

/// How many positions the finder may expand.
const POSITIONS: u32 = 7;

/// What stands after these signs in the first line of the row that begins with them.
pub(crate) fn entry<'a>(row: &'a str, signs: &str) -> &'a str {
    for line in row.lines() {
        if let Some(rest) = line.strip_prefix(signs) {
            return rest;
        }
    }
    ""
}

/// The bytes of an entry, with a line feed for each `;`.
fn text_of(alloc: Global, told: &str) -> Result<Text, AllocError> {
    let text = told.replace(alloc, ";", "\n")?;
    Ok(Text::from_vec(text.as_bytes().to_vec(alloc)?))
}

/// Adds the bytes, with a `;` for each line feed.
fn push_bytes(text: &mut String, bytes: &[u8]) -> Result<(), AllocError> {
    for byte in bytes {
        let sign = if *byte == b'\n' {
            ';'
        } else {
            char::from(*byte)
        };
        text.push(sign)?;
    }
    Ok(())
}

/// The numbers of the calls that fail, of which the line with these signs tells one.
fn failing(alloc: Global, row: &str, signs: &str) -> Result<Vec<u64>, AllocError> {
    let mut numbers = Vec::new(alloc);
    if let Ok(number) = entry(row, signs).parse::<u64>() {
        numbers.push(number)?;
    }
    Ok(numbers)
}

/// Adds a file of this name, where the row tells one.
fn add_file(
    alloc: Global,
    files: &mut Vec<(Text, Text)>,
    name: &str,
    told: &str,
) -> Result<(), AllocError> {
    if !told.is_empty() {
        let name = Text::from_vec(name.as_bytes().to_vec(alloc)?);
        files.push((name, text_of(alloc, told)?))?;
    }
    Ok(())
}

/// The certificates of the folder F that the row tells.
fn certificates_of(alloc: Global, row: &str) -> Result<Vec<(Text, Text)>, AllocError> {
    let mut files = Vec::new(alloc);
    for line in row.lines() {
        if let Some((number, told)) = line.split_once(" holds ") {
            let name = format!(in alloc; "F/{number}.cert")?;
            add_file(alloc, &mut files, name.as_str(), told)?;
        }
    }
    Ok(files)
}

/// Files in memory that hold the row's game as G, and its plan as F/plan, where it tells them; if
/// the game is to be split, also the certificates of the folder F.
fn files_of(alloc: Global, row: &str) -> Result<MemFiles, AllocError> {
    let mut files = if entry(row, "asks for ") == "split" {
        certificates_of(alloc, row)?
    } else {
        Vec::new(alloc)
    };
    add_file(alloc, &mut files, "G", entry(row, "game "))?;
    add_file(alloc, &mut files, "F/plan", entry(row, "plan "))?;
    Ok(MemFiles::new(alloc, files, failing(alloc, row, "fails on files ")?))
}

/// Joins the certificates of the folder F, and returns the status.
fn status_of_joining(
    alloc: Global,
    row: &str,
    budget: Budget,
    files: &mut MemFiles,
    console: &mut MemConsole,
) -> Result<u8, AllocError>
    requires { IsBudget budget }
{
    let order = JoinOrder {
        game: "G",
        folder: "F",
        certificate: "C",
        budget,
        images: entry(row, "stored as ") == "images",
    };
    let certificates = MemFiles::new(alloc, certificates_of(alloc, row)?, Vec::new(alloc));
    Ok(join(alloc, order, certificates, files, console))
}

/// Splits the game into the folder F, and returns the status.
fn status_of_splitting(
    alloc: Global,
    row: &str,
    files: &mut MemFiles,
    console: &mut MemConsole,
) -> u8 {
    let order = SplitOrder {
        game: "G",
        folder: "F",
        most: entry(row, "most ").parse::<u32>().unwrap_or(DEFAULT_PIECES),
    };
    split_game(alloc, order, files, console)
}

/// Adds the file of this name, if there is one.
fn push_file(files: &MemFiles, name: &str, text: &mut String) -> Result<(), AllocError> {
    if let Some(bytes) = files.bytes_of(name) {
        write!(text, "{name} ")?;
        push_bytes(text, bytes)?;
    }
    Ok(())
}

/// Adds the first game files of the folder F, and the plan there.
fn push_folder(alloc: Global, files: &MemFiles, text: &mut String) -> Result<(), AllocError> {
    for number in 1..10 {
        let name = format!(in alloc; "F/0000{number}.game")?;
        push_file(files, name.as_str(), text)?;
    }
    push_file(files, "F/plan", text)
}

/// Runs what the row asks for, and returns the status.
fn status_of(
    alloc: Global,
    row: &str,
    certificates: &str,
    budget: Budget,
    files: &mut MemFiles,
    console: &mut MemConsole,
) -> u8
    requires { IsBudget budget }
{
    let mut finder = StandIn {
        scores: entry(row, "score "),
        certificates,
        calls: 0,
    };
    let json = entry(row, "printed as ") == "json";
    if entry(row, "asks for ") == "moves" {
        let order = MovesOrder {
            game: "G",
            budget,
            json,
        };
        return settle_moves(alloc, order, &mut finder, files, console);
    }
    let order = Order {
        game: "G",
        certificate: "C",
        budget,
        images: entry(row, "stored as ") == "images",
        json,
    };
    settle(alloc, order, &mut finder, files, console)
}

/// Adds the status of a run, what it says, and what it stores as C.
fn push_run(
    alloc: Global,
    row: &str,
    certificates: &str,
    files: &mut MemFiles,
    console: &mut MemConsole,
    text: &mut String,
) -> Result<(), AllocError> {
    let Some(budget) = budget_for(Some(POSITIONS), None, None) else {
        return Ok(());
    };
    let status = match entry(row, "asks for ") {
        "join" => status_of_joining(alloc, row, budget, files, console)?,
        "split" => status_of_splitting(alloc, row, files, console),
        _ => status_of(alloc, row, certificates, budget, files, console),
    };
    write!(text, "status {status};")?;
    for said in console.entries() {
        if let Entry::Said(said) = said {
            push_bytes(text, said.as_slice())?;
        }
    }
    if let Some(bytes) = files.bytes_of("C") {
        text.push_str("stored ")?;
        push_bytes(text, bytes)?;
    }
    if entry(row, "asks for ") == "split" {
        push_folder(alloc, files, text)?;
    }
    Ok(())
}

/// A console in memory without input, of which the call fails that the row tells, if any.
fn console_of(alloc: Global, row: &str) -> Result<MemConsole, AllocError> {
    let fails = failing(alloc, row, "fails on the console ")?;
    Ok(MemConsole::new(alloc, Text::from_vec(Vec::new(alloc)), fails))
}

/// What comes of a row on these files and this console.
fn told_on(
    alloc: Global,
    row: &str,
    files: &mut MemFiles,
    console: &mut MemConsole,
) -> Result<String, AllocError> {
    let certificates = entry(row, "brings ").replace(alloc, ";", "\n")?;
    let mut text = String::new(alloc);
    push_run(alloc, row, certificates.as_str(), files, console, &mut text)?;
    Ok(text)
}

/// What comes of a row.
pub(crate) fn told(alloc: Global, row: &str) -> Result<String, AllocError> {
    let mut files = files_of(alloc, row)?;
    let mut console = console_of(alloc, row)?;
    told_on(alloc, row, &mut files, &mut console)
}
