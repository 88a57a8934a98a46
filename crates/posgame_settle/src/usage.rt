//! The command line of the program, as `clap` reads it.
use clap::builder::ValueParser;
use clap::error::ErrorKind;
use clap::{Arg, ArgAction, ArgMatches, Command, Error};
use pg_cert::MAX_NODES;
use pg_messages::{DONE, NO_MEANING, NO_MEMORY};
use pg_settle::{MAX_ENTRIES, MAX_EXPANDED, MIN_BUDGET, VERSION};
use pg_splitting::MAX_PIECES;
use std::alloc::Global;

/// The name that the program has in its messages.
pub(crate) const NAME: &str = "posgame-settle";

/// The name of the subcommand that tries the moves of a game.
const MOVES: &str = "moves";

/// The name of the subcommand that joins the certificates in a folder.
const JOIN: &str = "join";

/// The name of the subcommand that splits a game.
const SPLIT: &str = "split";

/// The name of the argument that names the game's file.
const GAME: &str = "GAME";

/// The name of the argument that names the certificate's file.
const CERTIFICATE: &str = "CERT";

/// The name of the argument that names the folder of a plan.
const FOLDER: &str = "FOLDER";

/// What is to be done with the game.
#[derive(Clone, Copy, Debug)]
pub(crate) enum Task<'a> {
    /// It is settled.
    Settle,
    /// Its moves are tried, and no certificate is stored.
    Moves,
    /// The certificates in this folder are joined.
    Join(&'a str),
    /// It is split into positions, whose game files go to this folder.
    Split(&'a str),
}

/// What is asked for.
#[derive(Clone, Copy, Debug)]
pub(crate) struct Asked<'a> {
    /// What is to be done.
    pub(crate) task: Task<'a>,
    /// The name of the game's file.
    pub(crate) game: &'a str,
    /// The name under which the certificate is to be stored.
    pub(crate) certificate: &'a str,
    /// How many positions may be expanded.
    pub(crate) positions: Option<u32>,
    /// How many positions the table may have.
    pub(crate) entries: Option<u32>,
    /// How many nodes the certificate may have.
    pub(crate) nodes: Option<u32>,
    /// How many positions may be written.
    pub(crate) most: Option<u32>,
    /// Whether the certificate is to be folded.
    pub(crate) images: bool,
    /// Whether the result is printed as JSON.
    pub(crate) json: bool,
    /// Whether standard error is to show how far the search is.
    pub(crate) progress: bool,
}

/// Returns an option that takes a number from 1 to `most`.
fn number<'a>(alloc: Global, name: &'a str, most: u32, help: &'a str) -> Arg<'a> {
    let range = ValueParser::unsigned(u64::from(MIN_BUDGET), u64::from(most));
    Arg::new(alloc, name)
        .long(name)
        .value_name("N")
        .value_parser(range)
        .help(help)
}

/// Returns the option that bounds the nodes of the certificate.
fn nodes<'a>(alloc: Global) -> Arg<'a> {
    number(
        alloc,
        "nodes",
        MAX_NODES,
        "How many nodes the certificate may have",
    )
}

/// Returns an argument that must be given.
fn needed<'a>(alloc: Global, name: &'a str, help: &'a str) -> Arg<'a> {
    Arg::new(alloc, name).required(true).help(help)
}

/// Returns the argument CERT.
fn certificate<'a>(alloc: Global) -> Arg<'a> {
    needed(
        alloc,
        CERTIFICATE,
        "The file that the certificate is written to",
    )
}

/// Returns the option that folds the certificate.
fn images<'a>(alloc: Global) -> Arg<'a> {
    Arg::new(alloc, "images")
        .long("images")
        .action(ArgAction::SetTrue)
        .help("Write nodes that are turned or reflected as images of others")
}

/// Adds the argument GAME, the options that bound the search, and those for JSON and progress.
fn with_game<'a>(alloc: Global, command: Command<'a>) -> Result<Command<'a>, Error> {
    let game = needed(alloc, GAME, "The file of a game");
    let json = Arg::new(alloc, "json")
        .long("json")
        .action(ArgAction::SetTrue)
        .help("Print one line of JSON");
    let progress = Arg::new(alloc, "progress")
        .long("progress")
        .action(ArgAction::SetTrue)
        .help("Show on standard error how far the search is");
    let command = command
        .arg(game)?
        .arg(json)?
        .arg(progress)?
        .arg(number(
            alloc,
            "positions",
            MAX_EXPANDED,
            "How many positions may be expanded",
        ))?
        .arg(number(
            alloc,
            "entries",
            MAX_ENTRIES,
            "How many positions the table may have",
        ))?
        .arg(nodes(alloc))?;
    Ok(command)
}

/// Returns the subcommand that tries the moves of a game.
fn moves_command<'a>(alloc: Global) -> Result<Command<'a>, Error> {
    let command = Command::new(alloc, MOVES).about(
        "Prints the value after each move of a game, and which moves are best",
    );
    with_game(alloc, command)
}

/// Returns the subcommand that joins the certificates in a folder.
fn join_command<'a>(alloc: Global) -> Result<Command<'a>, Error> {
    let game = needed(alloc, GAME, "The file of the game that was split");
    let folder = needed(
        alloc,
        FOLDER,
        "The folder with the plan and the certificates",
    );
    let command = Command::new(alloc, JOIN)
        .about("Joins the certificates of the positions into which a game was split")
        .arg(game)?
        .arg(folder)?
        .arg(certificate(alloc))?
        .arg(images(alloc))?
        .arg(nodes(alloc))?;
    Ok(command)
}

/// Returns the subcommand that splits a game.
fn split_command<'a>(alloc: Global) -> Result<Command<'a>, Error> {
    let game = needed(alloc, GAME, "The file of a game");
    let folder = needed(
        alloc,
        FOLDER,
        "The folder for the plan and the positions' game files",
    );
    let most = number(
        alloc,
        "most",
        MAX_PIECES,
        "How many positions may be written",
    );
    let command = Command::new(alloc, SPLIT)
        .about("Splits a game into positions that are settled by runs of their own")
        .arg(game)?
        .arg(folder)?
        .arg(most)?;
    Ok(command)
}

/// Returns the command with its two positional arguments, its options and its subcommands.
fn command<'a>(alloc: Global) -> Result<Command<'a>, Error> {
    let command = Command::new(alloc, NAME)
        .no_binary_name(true)
        .version(VERSION)
        .about("Settles a positional game by a certificate that the proved checker accepts")
        .args_conflicts_with_subcommands(true)
        .disable_help_subcommand(true)
        .subcommand(moves_command(alloc)?)?
        .subcommand(split_command(alloc)?)?
        .subcommand(join_command(alloc)?)?;
    let command = with_game(alloc, command)?
        .arg(certificate(alloc))?
        .arg(images(alloc))?;
    Ok(command)
}

/// Returns what is to be done, and the words that say how.
fn task_of<'a, 'b>(found: &'b ArgMatches<'a>) -> (Task<'a>, &'b ArgMatches<'a>) {
    if let Some(given) = found.subcommand_matches(MOVES) {
        return (Task::Moves, given);
    }
    if let Some(given) = found.subcommand_matches(JOIN) {
        return (Task::Join(text(given, FOLDER)), given);
    }
    if let Some(given) = found.subcommand_matches(SPLIT) {
        return (Task::Split(text(given, FOLDER)), given);
    }
    (Task::Settle, found)
}

/// Returns the text of an argument, empty if it isn't given.
fn text<'a>(given: &ArgMatches<'a>, name: &str) -> &'a str {
    given.get_str(name).unwrap_or("")
}

/// Returns whether this is the word of a task, which has to stand before all options.
pub(crate) fn is_task(word: &str) -> bool {
    word == MOVES || word == SPLIT || word == JOIN
}

/// Returns what the words ask for; or what `clap` has to say of them: the help or the version that
/// they ask for, or what is wrong with them.
pub(crate) fn read_words<'a>(alloc: Global, words: &'a [String]) -> Result<Asked<'a>, Error> {
    let found = command(alloc)?.try_get_matches_from(words)?;
    let (task, given) = task_of(&found);
    Ok(Asked {
        task,
        game: text(given, GAME),
        certificate: text(given, CERTIFICATE),
        positions: given.get_one::<u32>("positions"),
        entries: given.get_one::<u32>("entries"),
        nodes: given.get_one::<u32>("nodes"),
        most: given.get_one::<u32>("most"),
        images: given.get_flag("images"),
        json: given.get_flag("json"),
        progress: given.get_flag("progress"),
    })
}

/// Returns the status of a run whose arguments ask for a text, or can't be read.
pub(crate) fn status_of(error: &Error) -> u8 {
    match error.kind() {
        ErrorKind::OutOfMemory => NO_MEMORY,
        _ => if error.use_stderr() { NO_MEANING } else { DONE },
    }
}
