//! What the lines of a plan say.
ghost use Rattle.std.specs.Prelude.{◌<◌, IfOk};
ghost use Rattle.pg_plan.specs.PlanFile.{below, decided_from, file_of, game_from, image_from};
ghost use Rattle.pg_plan.specs.PlanFile.{moves_from, place_of, step_of};
ghost use Rattle.pg_text.specs.Faults.{Gives, each_of};
ghost use Rattle.pg_text.specs.Text.{number};

use crate::fault::Fault;
use crate::place::{MAX_GAME_FILES, MAX_MAPS, MAX_PLACES, Place, Step, Steps};
use pg_base::MAX_MEMBERS;
use pg_text::{LineError, Words, number, two_parts};
use std::alloc::Global;

/// The sign between the point of a move and the position after it.
pub(crate) const COLON: u8 = b':';

/// The number of a word, if it is below the limit.
fn below(limit: u32, word: &[u8]) -> Result<u32, LineError<Fault>>
    ensures read { Gives (λ n. n) result (below limit (number word.now)) }
    ensures small { IfOk result (λ n. n < limit) }
{
    match number(word) {
        Some(n) if n < limit => Ok(n),
        _ => Err(LineError::Fault(Fault::Number)),
    }
}

/// The number of a game file that a word says.
fn file(word: &[u8]) -> Result<u32, LineError<Fault>>
    ensures { Gives (λ n. n) result (file_of (number word.now)) }
{
    match number(word) {
        Some(n) if 0 < n && n < MAX_GAME_FILES => Ok(n),
        _ => Err(LineError::Fault(Fault::Number)),
    }
}

/// The move that a word says.
#[tactic(auto, unfolding(crate::specs::PlanFile::step_of))]
fn step(word: &[u8]) -> Result<Step, LineError<Fault>>
    ensures { Gives (λ s. s) result (step_of word.now) }
{
    let Some((first, second)) = two_parts(COLON, word) else {
        return Err(LineError::Fault(Fault::Number));
    };
    let point = below(u32::from(MAX_MEMBERS), first)?;
    let place = below(MAX_PLACES, second)?;
    Ok(Step {
        point: point as u16,
        place,
    })
}

/// The moves that the words say.
fn steps(alloc: Global, words: Words) -> Result<Vec<Step>, LineError<Fault>>
    ensures { Gives (λ v. v.items) result (each_of step_of words.entry) }
{
    words.each(alloc, |word| step(word))
}

/// A position that is decided at once, by the words after the first.
fn decided(mut words: Words) -> Result<Place, LineError<Fault>>
    ensures { Gives (λ p. p) result (decided_from words.entry) }
{
    match words.next() {
        Some(_) => Err(LineError::Fault(Fault::Form)),
        None => Ok(Place::Decided),
    }
}

/// The image of a position, by the words after the first.
fn image(mut words: Words) -> Result<Place, LineError<Fault>>
    ensures { Gives (λ p. p) result (image_from words.entry) }
{
    let Some(first) = words.next() else {
        return Err(LineError::Fault(Fault::Form));
    };
    let Some(second) = words.next() else {
        return Err(LineError::Fault(Fault::Form));
    };
    if words.next().is_some() {
        return Err(LineError::Fault(Fault::Form));
    }
    let map = below(MAX_MAPS, first)?;
    let place = below(MAX_PLACES, second)?;
    Ok(Place::Image {
        map: map as u8,
        place,
    })
}

/// A position that a game file says, by the words after the first.
fn game(alloc: Global, mut words: Words) -> Result<Place, LineError<Fault>>
    ensures { Gives (λ p. p) result (game_from words.entry) }
{
    let Some(word) = words.next() else {
        return Err(LineError::Fault(Fault::Form));
    };
    let file = file(word)?;
    let found = steps(alloc, words)?;
    Ok(Place::Game {
        file,
        steps: Steps::from_vec(found),
    })
}

/// A position that is split, by the words after the first.
fn moves(alloc: Global, words: Words) -> Result<Place, LineError<Fault>>
    ensures { Gives (λ p. p) result (moves_from words.entry) }
{
    let found = steps(alloc, words)?;
    Ok(Place::Moves(Steps::from_vec(found)))
}

/// What a line says of a position: words stand after single spaces.
#[tactic(auto, unfolding(crate::specs::PlanFile::place_of))]
pub(crate) fn place_of(alloc: Global, line: &[u8]) -> Result<Place, LineError<Fault>>
    ensures { Gives (λ p. p) result (place_of line.now) }
{
    let mut words = Words::of(line);
    let Some(name) = words.next() else {
        return Err(LineError::Fault(Fault::Form));
    };
    if name == b"decided".as_slice() {
        return decided(words);
    }
    if name == b"image".as_slice() {
        return image(words);
    }
    if name == b"game".as_slice() {
        return game(alloc, words);
    }
    if name == b"moves".as_slice() {
        return moves(alloc, words);
    }
    Err(LineError::Fault(Fault::Form))
}
