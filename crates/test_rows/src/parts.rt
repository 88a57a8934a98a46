//! Parts of a search, which `bench/parts.py` measures: boards, threat lines and private pairs. A
//! row names the part, then a file with a game, and then says what is done.
use crate::{asking, boards, threats};
use pg_game::Game;
use pg_plain::game;
use std::alloc::{AllocError, Global};
use std::{env, fs, io};

/// Small rows of each part, separated by `;`.
pub(crate) const ROWS: &str = "\
board lines-of-ten.txt 1;\
threat five-in-a-row.txt still ask;\
match two-lines.txt 2;\
match two-lines.txt 3 cached";

/// The words of the command line, with a space between each two.
pub(crate) fn row(rt: &HostRuntime) -> io::Result<String> {
    let mut row = String::new(rt.alloc());
    for word in env::args(rt)?.skip(1) {
        if !row.is_empty() {
            row.push(' ')?;
        }
        row.push_str(word.as_str())?;
    }
    Ok(row)
}

/// The first word of a text, and the others.
fn cut(text: &str) -> (&str, &str) {
    text.split_once(' ').unwrap_or((text, ""))
}

/// What a part tells of a game.
fn told_of(alloc: Global, g: &Game, part: &str, words: &str) -> Result<String, AllocError> {
    let (first, second) = cut(words);
    match part {
        "board" => boards::told(alloc, g, first),
        "threat" => threats::told(alloc, g, first, second),
        "match" => asking::told(alloc, g, first, second),
        _ => String::from_str(alloc, "no such part"),
    }
}

/// What a row tells.
fn told(rt: &HostRuntime, row: &str) -> io::Result<String> {
    let (part, words) = cut(row);
    let (name, words) = cut(words);
    let bytes = fs::read(rt, name)?;
    let Ok(text) = str::from_utf8(&bytes) else {
        return Ok(String::from_str(rt.alloc(), "no text")?);
    };
    match game(rt.alloc(), text) {
        Some(g) => Ok(told_of(rt.alloc(), &g, part, words)?),
        None => Ok(String::from_str(rt.alloc(), "no game")?),
    }
}

/// Says what each row tells.
pub(crate) fn tell(rt: &HostRuntime, rows: &str) -> io::Result<()> {
    for row in rows.split(';') {
        let text = told(rt, row)?;
        rt.println(text.as_str())?;
    }
    Ok(())
}
