//! The command line of the program as `clap` reads it.
use clap::builder::ValueParser;
use clap::{Arg, ArgAction, ArgMatches, Command, Error};
use pg_binding::BookOrder;
use pg_captions::{Legend, Look};
use pg_draw::MAX_BOARDS;
use pg_replaying::RecordOrder;
use std::alloc::{AllocError, Global};

/// The version that `--version` prints.
pub(crate) const VERSION: &str = "1.1.0";

/// The name that the program has in its messages.
pub(crate) const NAME: &str = "posgame-draw";

/// The name of the option that asks for a book.
const BOOK: &str = "book";

/// The name of the option for how many moves a book shows.
const DEPTH: &str = "depth";

/// The name of the option for pictures without numbers.
const NO_NUMBERS: &str = "no-numbers";

/// The name of the option for pictures without lines.
const NO_LINES: &str = "no-lines";

/// The name of the option for pictures without a legend.
const NO_LEGEND: &str = "no-legend";

/// The name of the option for the width of a picture.
const SIZE: &str = "size";

/// The name of the option for blank boards.
const BLANK: &str = "blank";

/// The name of the option for the moves after which a recorded game is drawn.
const MOVE: &str = "move";

/// The name of the option for the layout of a game.
const LAYOUT: &str = "layout";

/// How the names of records end.
const RECORDED: &str = ".record";

/// The most moves of a record.
const MAX_MOVES: u32 = 10_000;

/// The most moves that a book can be asked to show: no game has more points.
const MAX_DEPTH: u32 = 1000;

/// The greatest width of a picture, in pixels.
const MAX_SIZE: u32 = 10_000;

/// How a picture, or those of a book, are to be drawn.
#[derive(Clone, Copy, Debug)]
pub(crate) struct Style<'a> {
    /// What a picture shows, but for a layout.
    pub(crate) look: Look,
    /// The name of the layout's file, if there is one.
    pub(crate) layout: Option<&'a str>,
}

/// Which picture is to be drawn.
#[derive(Clone, Copy, Debug)]
pub(crate) struct PictureOrder<'a> {
    /// The name of the game's file.
    pub(crate) game: &'a str,
    /// The name of the certificate's file, if there is one.
    pub(crate) certificate: Option<&'a str>,
    /// The word that names a node, if there is one.
    pub(crate) node: Option<&'a str>,
    /// How it is drawn.
    pub(crate) style: Style<'a>,
}

/// What words ask for.
#[derive(Clone, Copy, Debug)]
pub(crate) enum Asked<'a> {
    /// A picture.
    Picture(PictureOrder<'a>),
    /// A picture of a recorded game.
    Recorded(RecordOrder<'a>, Style<'a>),
    /// A book, and of the style its layout.
    Book(BookOrder<'a>, Style<'a>),
}

/// Adds an option that a picture is to be without something. It is refused with `--book`, and with
/// `--depth`, since `clap` does not ask for the `--book` that `--depth` requires beside an option
/// with which that conflicts.
fn with_absence<'a>(
    alloc: Global,
    command: Command<'a>,
    name: &'a str,
    help: &'a str,
) -> Result<Command<'a>, AllocError> {
    let absence = Arg::new(alloc, name).long(name).action(ArgAction::SetTrue);
    let absence = absence.help(help).conflicts_with(BOOK)?;
    command.arg(absence.conflicts_with(DEPTH)?)
}

/// Returns an option of a picture that takes a number in this range, which `value` stands for in
/// the help. It is refused with `--book` and `--depth`.
fn number<'a>(
    alloc: Global,
    name: &'a str,
    value: &'a str,
    least: u32,
    most: u32,
) -> Result<Arg<'a>, AllocError> {
    let range = ValueParser::unsigned(u64::from(least), u64::from(most));
    let number = Arg::new(alloc, name).long(name).value_name(value);
    number
        .value_parser(range)
        .conflicts_with(BOOK)?
        .conflicts_with(DEPTH)
}

/// Adds the option for the moves after which a recorded game is drawn.
fn with_moves<'a>(alloc: Global, command: Command<'a>) -> Result<Command<'a>, AllocError> {
    let moves = number(alloc, MOVE, "K", 0, MAX_MOVES)?;
    let moves = moves.help("Draw the recorded game in CERT after K moves");
    let moves = moves.requires_arg("CERT")?.conflicts_with("NODE")?;
    command.arg(moves.conflicts_with(BLANK)?)
}

/// Adds the option for the width of a picture.
fn with_size<'a>(alloc: Global, command: Command<'a>) -> Result<Command<'a>, AllocError> {
    let size = number(alloc, SIZE, "N", 1, MAX_SIZE)?;
    command.arg(size.help("Show the picture N pixels wide"))
}

/// Adds the option for blank boards.
fn with_blank<'a>(alloc: Global, command: Command<'a>) -> Result<Command<'a>, AllocError> {
    let blank = number(alloc, BLANK, "N", 1, MAX_BOARDS)?;
    let blank = blank.help("Draw N boards without marks and legends on a sheet");
    let blank = blank.conflicts_with("CERT")?;
    command.arg(blank)
}

/// Adds the option for the layout of a game.
fn with_layout<'a>(alloc: Global, command: Command<'a>) -> Result<Command<'a>, AllocError> {
    let layout = Arg::new(alloc, LAYOUT).long(LAYOUT).value_name("FILE");
    command.arg(layout.help("Draw the points of a game without a grid at the places in FILE"))
}

/// Adds the options for pictures; that for a layout is for books too.
fn with_looks<'a>(alloc: Global, command: Command<'a>) -> Result<Command<'a>, AllocError> {
    let command = with_moves(alloc, command)?;
    let help = "Draw points and vertices without numbers";
    let command = with_absence(alloc, command, NO_NUMBERS, help)?;
    let command = with_absence(alloc, command, NO_LINES, "Draw no lines")?;
    let command = with_absence(alloc, command, NO_LEGEND, "Draw no legend")?;
    let command = with_size(alloc, command)?;
    let command = with_blank(alloc, command)?;
    with_layout(alloc, command)
}

/// Adds the three positional arguments.
fn with_names<'a>(alloc: Global, command: Command<'a>) -> Result<Command<'a>, AllocError> {
    let game = Arg::new(alloc, "GAME")
        .required(true)
        .help("The file of a game: its board is drawn");
    let command = command.arg(game)?;
    let certificate = Arg::new(alloc, "CERT").help(
        "A certificate, which is checked, and of which a node is drawn; or a record, NAME.record",
    );
    let command = command.arg(certificate)?;
    let node = Arg::new(alloc, "NODE").help(
        "The node: K of the first claim, or C.K of claim C, from 0",
    );
    command.arg(node)
}

/// Adds the option that asks for a book.
fn with_book<'a>(alloc: Global, command: Command<'a>) -> Result<Command<'a>, AllocError> {
    let book = Arg::new(alloc, BOOK)
        .long(BOOK)
        .action(ArgAction::SetTrue)
        .help("Print the whole proof as a page of HTML, to be clicked through");
    let book = book.requires_arg("CERT")?.conflicts_with("NODE")?;
    command.arg(book)
}

/// Adds the option for how many moves a book shows.
fn with_depth<'a>(alloc: Global, command: Command<'a>) -> Result<Command<'a>, AllocError> {
    let range = ValueParser::unsigned(0, u64::from(MAX_DEPTH));
    let depth = Arg::new(alloc, DEPTH).long(DEPTH).value_name("K");
    let depth = depth.value_parser(range).requires_arg(BOOK)?;
    let depth = depth.conflicts_with("NODE")?;
    command.arg(depth.help("Print the first K moves of the proof alone"))
}

/// Returns the command with its options and its positional arguments.
fn command<'a>(alloc: Global) -> Result<Command<'a>, AllocError> {
    let command = Command::new(alloc, NAME)
        .no_binary_name(true)
        .version(VERSION)
        .about("Draws a positional game, or a node of a proof, as an SVG picture");
    let command = with_book(alloc, command)?;
    let command = with_depth(alloc, command)?;
    let command = with_looks(alloc, command)?;
    with_names(alloc, command)
}

/// Returns what a picture is to show, but for a layout.
fn look_of(found: &ArgMatches<'_>) -> Look {
    let blank = found.get_one::<u32>(BLANK);
    let legend = if found.get_flag(NO_LEGEND) || blank.is_some() {
        Legend::Absent
    } else {
        Legend::Whole
    };
    Look {
        numbers: !found.get_flag(NO_NUMBERS),
        lines: !found.get_flag(NO_LINES),
        legend,
        size: found.get_one::<u32>(SIZE),
        blank,
        layout: None,
    }
}

/// Returns how a picture is to be drawn.
fn style_of<'a>(found: &ArgMatches<'a>) -> Style<'a> {
    Style {
        look: look_of(found),
        layout: found.get_str(LAYOUT),
    }
}

/// Returns which recorded game is asked for, if one is: by the option, or by the name of its file.
fn recorded_in<'a>(found: &ArgMatches<'a>) -> Option<RecordOrder<'a>> {
    let record = found.get_str("CERT")?;
    let moves = found.get_one::<u32>(MOVE);
    let is_named = record.ends_with(RECORDED) && found.get_str("NODE").is_none();
    if moves.is_none() && !is_named {
        return None;
    }
    Some(RecordOrder {
        game: found.get_str("GAME").unwrap_or(""),
        record,
        moves,
    })
}

/// Returns what the words ask for; or what `clap` has to say of them: the help or the version that
/// they ask for, or what is wrong with them.
pub(crate) fn read_words<'a>(alloc: Global, words: &'a [String]) -> Result<Asked<'a>, Error> {
    let found = command(alloc)?.try_get_matches_from(words)?;
    let game = found.get_str("GAME").unwrap_or("");
    let certificate = found.get_str("CERT");
    if found.get_flag(BOOK) {
        let order = BookOrder {
            game,
            certificate: certificate.unwrap_or(""),
            layout: None,
            depth: found.get_one::<u32>(DEPTH),
        };
        return Ok(Asked::Book(order, style_of(&found)));
    }
    if let Some(order) = recorded_in(&found) {
        return Ok(Asked::Recorded(order, style_of(&found)));
    }
    Ok(Asked::Picture(PictureOrder {
        game,
        certificate,
        node: found.get_str("NODE"),
        style: style_of(&found),
    }))
}
