//! The program: it prints the picture or the book that its arguments ask for, and exits with a
//! status.
#![tactic(auto)]

mod complaint;
mod usage;

use clap::Error;
use pg_binding::{BookOrder, bind};
use pg_captions::Look;
use pg_drawing::draw;
use pg_host::{HostConsole, HostFiles, guard_streams, words_given};
use pg_laying::{open_layout, tell_no_layout};
use pg_layout::Chart;
use pg_messages::{DONE, NO_MEMORY};
use pg_replaying::{RecordOrder, draw_record};
use std::alloc::{AllocError, Global};
use std::process::ExitCode;
use usage::{Asked, PictureOrder, Style};

/// Adds a word.
fn add(alloc: Global, names: &mut Vec<String>, word: &str) -> Result<(), AllocError> {
    names.push(String::from_str(alloc, word)?)?;
    Ok(())
}

/// Returns the words that name what is drawn, without options.
fn names_of(alloc: Global, order: &PictureOrder<'_>) -> Result<Vec<String>, AllocError> {
    let mut names = Vec::new(alloc);
    add(alloc, &mut names, order.game)?;
    if let Some(name) = order.certificate {
        add(alloc, &mut names, name)?;
    }
    if let Some(word) = order.node {
        add(alloc, &mut names, word)?;
    }
    Ok(names)
}

/// Draws what the names name, and returns the status.
fn draw_names(rt: &HostRuntime, names: &[String], look: Look) -> u8 {
    let mut files = HostFiles::new(rt);
    let mut console = HostConsole::new(rt);
    draw(rt.alloc(), names, look, &mut files, &mut console)
}

/// Returns what the pictures of a game show, with its layout if one is asked for; or the status of
/// the run if there is none, which is said.
fn look_with_layout(rt: &HostRuntime, game: &str, style: Style<'_>) -> Result<Look, u8> {
    let Some(layout) = style.layout else {
        return Ok(style.look);
    };
    let mut files = HostFiles::new(rt);
    match open_layout(rt.alloc(), &mut files, game, layout) {
        Ok(spots) => {
            let mut look = style.look;
            look.layout = Chart::of(spots.as_slice());
            Ok(look)
        }
        Err(why) => {
            let mut console = HostConsole::new(rt);
            Err(tell_no_layout(rt.alloc(), &mut console, why))
        }
    }
}

/// Draws a picture, and returns the status.
fn draw_picture(rt: &HostRuntime, order: &PictureOrder<'_>) -> u8 {
    let Ok(names) = names_of(rt.alloc(), order) else {
        return NO_MEMORY;
    };
    match look_with_layout(rt, order.game, order.style) {
        Ok(look) => draw_names(rt, &names, look),
        Err(status) => status,
    }
}

/// Draws a recorded game, and returns the status.
fn draw_recorded(rt: &HostRuntime, order: RecordOrder<'_>, style: Style<'_>) -> u8 {
    let look = match look_with_layout(rt, order.game, style) {
        Ok(look) => look,
        Err(status) => return status,
    };
    let mut files = HostFiles::new(rt);
    let mut console = HostConsole::new(rt);
    draw_record(rt.alloc(), order, look, &mut files, &mut console)
}

/// Prints a book, with its layout if one is asked for, and returns the status.
fn print_book(rt: &HostRuntime, order: BookOrder<'_>, style: Style<'_>) -> u8 {
    let look = match look_with_layout(rt, order.game, style) {
        Ok(look) => look,
        Err(status) => return status,
    };
    let mut laid = order;
    laid.layout = look.layout;
    let mut files = HostFiles::new(rt);
    let mut console = HostConsole::new(rt);
    bind(rt.alloc(), laid, &mut files, &mut console)
}

/// Prints what the words ask for, and returns the status. Words that `clap` refuses have no
/// meaning.
fn run(rt: &HostRuntime, answer: &Result<Asked<'_>, Error>) -> u8 {
    match answer {
        Ok(Asked::Picture(order)) => draw_picture(rt, order),
        Ok(Asked::Recorded(order, style)) => draw_recorded(rt, *order, *style),
        Ok(Asked::Book(order, style)) => print_book(rt, *order, *style),
        Err(_) => draw_names(rt, &[], Look::whole()),
    }
}

fn main(rt: HostRuntime) -> ExitCode {
    guard_streams(&rt);
    let words = match words_given(&rt) {
        Ok(words) => words,
        Err(status) => return ExitCode::from(status),
    };
    let answer = usage::read_words(rt.alloc(), &words);
    if let Err(error) = &answer {
        if !error.use_stderr() {
            let _ = error.print(&rt);
            return ExitCode::from(DONE);
        }
    }
    let status = run(&rt, &answer);
    complaint::say(&rt, status, &answer);
    ExitCode::from(status)
}
