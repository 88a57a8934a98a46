//! Small games with their values: each is solved, what is stored is checked, and played to its end
//! against replies drawn at random.
use crate::held::{Held, holding};
use crate::runs::logged;
use pg_base::Side;
use pg_files::read_game;
use pg_game::Game;
use pg_plain::cut;
use std::alloc::{AllocError, Global};
use std::fmt::Write;

/// Ninety replies below nine, of which some are no point of a game with few points, and some are
/// taken when they come. They are drawn by the linear congruential generator that the standard of C
/// prints as an example.
fn replies(alloc: Global, seed: u64) -> Result<String, AllocError> {
    let mut state = seed;
    let mut text = String::new(alloc);
    for _ in 0..90 {
        state = state.wrapping_mul(1_103_515_245).wrapping_add(12_345) % 2_147_483_648;
        let v = state / 65_536 % 9;
        write!(text, "{v}\n")?;
    }
    Ok(text)
}

/// Whether the own moves of a logged play are legal, and its replies, each where the side is to
/// move; but those that are refused.
fn is_legal(g: &Game, side: Side, log: &str) -> bool {
    let mut p = g.start();
    let mut is_refusal_due = false;
    for line in log.lines() {
        if line.starts_with("says refused") != is_refusal_due {
            return false;
        }
        let (mover, number) = match line.strip_prefix("says move ") {
            Some(number) => (side, number.strip_suffix(";").unwrap_or(number)),
            None => (side.other(), line.strip_prefix("hears ").unwrap_or("")),
        };
        let v = number.parse::<u16>().unwrap_or(1000);
        let is_legal = p.turn == mover && v < g.points() && p.is_free(v);
        if is_legal {
            p = p.after(g.bias, v);
        } else if mover == side {
            return false;
        }
        let (word, _) = cut(line);
        is_refusal_due = !is_legal && matches!(word, "hears" | "skips" | "ended");
    }
    !is_refusal_due
}

/// Whether the side plays legally by the certificate against these replies, and to this result.
fn is_won_against(
    alloc: Global,
    side: Side,
    due: &str,
    files: &mut Held,
    replies: &str,
) -> Result<bool, AllocError> {
    let words = match side {
        Side::X => "play G C --side x",
        Side::Y => "play G C --side y",
    };
    let log = logged(alloc, words, files, replies)?;
    let log = log.as_str();
    if !log.starts_with("status 0\nsays claim") || !log.ends_with(due) {
        return Ok(false);
    }
    match read_game(alloc, files.files.bytes_of("G").unwrap_or(&[])) {
        Ok(g) => Ok(is_legal(&g, side, log)),
        Err(_) => Ok(false),
    }
}

/// Whether the side plays so in ten plays against drawn replies.
pub(crate) fn is_won(
    alloc: Global,
    side: Side,
    word: &str,
    files: &mut Held,
) -> Result<bool, AllocError> {
    let due = format!(in alloc; "says result {word};\n")?;
    for seed in 0..10 {
        let replies = replies(alloc, seed)?;
        if !is_won_against(alloc, side, due.as_str(), files, replies.as_str())? {
            return Ok(false);
        }
    }
    Ok(true)
}

/// Whether the game is solved with this result, what is stored is accepted, and the side, if one is
/// named, plays to it.
fn is_solved(alloc: Global, word: &str, side: &str, files: &mut Held) -> Result<bool, AllocError> {
    let due = format!(in alloc; "status 0\nsays result {word};\n")?;
    let solved = logged(alloc, "solve G C", files, "")?;
    if solved.as_str() != due.as_str() {
        return Ok(false);
    }
    let checked = logged(alloc, "check G C", files, "")?;
    if !checked.as_str().starts_with("status 0\nsays accepted") {
        return Ok(false);
    }
    match side {
        "x" => is_won(alloc, Side::X, word, files),
        "y" => is_won(alloc, Side::Y, word, files),
        _ => Ok(true),
    }
}

/// Whether a game is as is told, `WORD SIDE=GAME`: it is solved with this result, and the side, if
/// one is named, plays to it.
pub(crate) fn is_value_so(alloc: Global, told: &str) -> Result<bool, AllocError> {
    let (head, game) = told.split_once('=').unwrap_or((told, ""));
    let (word, side) = cut(head);
    let game = format!(in alloc; "posgame 1;{game}")?;
    let mut files = holding(alloc, game.as_str(), "")?;
    is_solved(alloc, word, side, &mut files)
}
