//! The command line of the program, as `clap` reads it.
use clap::builder::ValueParser;
use clap::error::ErrorKind;
use clap::{Arg, Command, Error};
use pg_base::Side;
use pg_messages::{DONE, NO_MEANING, NO_MEMORY};
use pg_settle::VERSION;
use std::alloc::Global;

/// The name that the program has in its messages.
pub(crate) const NAME: &str = "posgame-play";

/// What is asked for.
#[derive(Clone, Copy, Debug)]
pub(crate) struct Asked<'a> {
    /// The path of the game.
    pub(crate) game: &'a str,
    /// The path of the certificate by which the program plays.
    pub(crate) certificate: Option<&'a str>,
    /// The side that the program plays by the certificate.
    pub(crate) side: Option<Side>,
    /// The side that the program plays by a search.
    pub(crate) computer: Option<Side>,
    /// The side that begins.
    pub(crate) turn: Option<Side>,
    /// The path under which the record is stored.
    pub(crate) record: Option<&'a str>,
    /// The path of the layout by which the board is shown.
    pub(crate) layout: Option<&'a str>,
}

/// Returns an option that names a side.
fn side<'a>(alloc: Global, name: &'a str, help: &'a str) -> Arg<'a> {
    Arg::new(alloc, name)
        .long(name)
        .value_name("S")
        .value_parser(ValueParser::Names(&["x", "y"]))
        .help(help)
}

/// Returns an option that names a file.
fn file<'a>(alloc: Global, name: &'a str, help: &'a str) -> Arg<'a> {
    Arg::new(alloc, name)
        .long(name)
        .value_name("FILE")
        .help(help)
}

/// Returns the command with its positional arguments and its options.
fn command<'a>(alloc: Global) -> Result<Command<'a>, Error> {
    let game = Arg::new(alloc, "GAME")
        .required(true)
        .help("The file of a game");
    let certificate = Arg::new(alloc, "CERT").help(
        "The file of a certificate, by which the program plays a side",
    );
    let played = side(alloc, "side", "The side that the program plays by CERT")
        .requires_arg("CERT")?
        .conflicts_with("computer")?;
    let searched = side(
        alloc,
        "computer",
        "The side that the program plays by a search",
    )
    .conflicts_with("CERT")?;
    let begins = side(alloc, "turn", "The side that begins");
    let record = file(alloc, "record", "The file that the record is written to");
    let layout = file(
        alloc,
        "layout",
        "The file of the places of the points, of a game without a grid",
    );
    let command = Command::new(alloc, NAME)
        .no_binary_name(true)
        .version(VERSION)
        .about("Plays a positional game at a terminal: two people, or one against the program")
        .arg(game)?
        .arg(certificate)?
        .arg(played)?
        .arg(searched)?
        .arg(begins)?
        .arg(record)?
        .arg(layout)?;
    Ok(command)
}

/// Returns the side of this name, if there is a name.
fn side_named(name: Option<&str>) -> Option<Side> {
    Side::from_word(name?.as_bytes())
}

/// Returns what the words ask for; or what `clap` has to say of them: the help or the version that
/// they ask for, or what is wrong with them.
pub(crate) fn read_words<'a>(alloc: Global, words: &'a [String]) -> Result<Asked<'a>, Error> {
    let found = command(alloc)?.try_get_matches_from(words)?;
    Ok(Asked {
        game: found.get_str("GAME").unwrap_or(""),
        certificate: found.get_str("CERT"),
        side: side_named(found.get_str("side")),
        computer: side_named(found.get_str("computer")),
        turn: side_named(found.get_str("turn")),
        record: found.get_str("record"),
        layout: found.get_str("layout"),
    })
}

/// Returns the status of a run whose arguments ask for a text, or can't be read.
pub(crate) fn status_of(error: &Error) -> u8 {
    match error.kind() {
        ErrorKind::OutOfMemory => NO_MEMORY,
        _ => if error.use_stderr() { NO_MEANING } else { DONE },
    }
}
