//! The search, down and up the board.
ghost use Rattle.std.specs.Prelude.{◌≡◌, ◌<◌, ◌≤◌, ◌+◌};
ghost use Rattle.pg_dfpn.specs.Prelude.{Fits, count_of, lines_of, most_of};
ghost use Rattle.pg_dfpn.specs.Asking.{IsRead};

use crate::judging::{Asked, judged};
use crate::moving::{play_free, undo_last};
use pg_base::{Memory, Side};
use pg_board::Board;
use pg_limits::{Progress, Watch};
use pg_match::PairCache;
use pg_transpositions::{Frame, Move, Moves, Numbers, Signature, Signatures, Survey, Table};
use std::alloc::Global;

/// How often a position may be looked at again for each that may be expanded.
const VISITS: u64 = 256;

/// The steps from one note of how far the search is to the next.
pub(crate) const STEPS_A_NOTE: u64 = 16_384;

/// What a search has found out.
#[derive(Debug, Drop)]
pub(crate) struct Search {
    pub(crate) table: Table,
    /// How many positions are expanded.
    pub(crate) expanded: u32,
}

/// The numbers of the position of the board, whose signature is `key`; it is judged if it was not
/// met before.
pub(crate) fn met(
    alloc: Global,
    asked: Asked<'_>,
    key: &Signature,
    board: &mut Board<'_>,
    cache: &mut PairCache,
    table: &mut Table,
) -> Result<Numbers, Memory>
    requires reads { IsRead asked.game.now asked.question board.old cache.old }
    ensures game { board.new.game ≡ board.old.game }
    ensures fits { Fits cache.new (lines_of asked.entry.game.now) }
    ensures most { most_of table.new ≡ most_of table.old }
{
    if let Some(numbers) = table.find(key) {
        return Ok(numbers);
    }
    let numbers = judged(alloc, asked, board, cache)?;
    table.put(*key, numbers)?;
    Ok(numbers)
}

/// Judges the position after the move of the side, where it was not met, and tells whether the side
/// wins there.
fn meet(
    alloc: Global,
    asked: Asked<'_>,
    turn: Side,
    to: &Move,
    board: &mut Board<'_>,
    cache: &mut PairCache,
    table: &mut Table,
) -> Result<bool, Memory>
    requires reads { IsRead asked.game.now asked.question board.old cache.old }
    ensures game { board.new.game ≡ board.old.game }
    ensures fits { Fits cache.new (lines_of asked.entry.game.now) }
    ensures most { most_of table.new ≡ most_of table.old }
{
    if let Some(numbers) = table.find(&to.key) {
        return Ok(numbers.of(turn) == 0);
    }
    play_free(board, u16::from(to.point));
    let numbers = judged(alloc, asked, board, cache)?;
    undo_last(board);
    table.put(to.key, numbers)?;
    Ok(numbers.of(turn) == 0)
}

/// Judges the positions after all moves, up to one at which the mover wins.
fn expand(
    alloc: Global,
    asked: Asked<'_>,
    moves: &Moves<'_>,
    board: &mut Board<'_>,
    cache: &mut PairCache,
    table: &mut Table,
) -> Result<(), Memory>
    requires reads { IsRead asked.game.now asked.question board.old cache.old }
    ensures game { board.new.game ≡ board.old.game }
    ensures fits { Fits cache.new (lines_of asked.entry.game.now) }
    ensures most { most_of table.new ≡ most_of table.old }
{
    for to in &moves.each {
        if meet(alloc, asked, moves.turn, to, board, cache, table)? {
            return Ok(());
        }
    }
    Ok(())
}

/// Whether the position of the signature is expanded.
fn is_expanded(key: &Signature, table: &Table) -> bool {
    match table.find(key) {
        Some(numbers) => numbers.is_expanded(),
        None => false,
    }
}

/// What the moves at the position of the board tell, which is expanded if it isn't yet, and then
/// counted: without that no position is met.
fn visit(
    alloc: Global,
    asked: Asked<'_>,
    moves: &Moves<'_>,
    board: &mut Board<'_>,
    cache: &mut PairCache,
    search: &mut Search,
) -> Result<Survey, Memory>
    requires reads { IsRead asked.game.now asked.question board.old cache.old }
    requires few { search.old.expanded < asked.limits.positions }
    ensures game { board.new.game ≡ board.old.game }
    ensures fits { Fits cache.new (lines_of asked.entry.game.now) }
    ensures most { most_of search.new.table ≡ most_of search.old.table }
    ensures counted { (search.old.expanded ≤ search.new.expanded)
        × (search.new.expanded ≤ search.old.expanded + 1) }
    ensures met { search.new.expanded ≡ search.old.expanded
        → count_of search.new.table ≡ count_of search.old.table }
{
    if is_expanded(&moves.key, &search.table) {
        let survey = moves.survey(&search.table);
        search.table.renew(&moves.key, survey.numbers());
        return Ok(survey);
    }
    search.expanded += 1;
    expand(alloc, asked, moves, board, cache, &mut search.table)?;
    let survey = moves.survey(&search.table);
    search.table.put(moves.key, survey.numbers())?;
    Ok(survey)
}

/// A position on the way down.
#[derive(Debug, Drop)]
struct Level<'a> {
    /// What it is to reach.
    frame: Frame,
    moves: Moves<'a>,
}

/// Goes up to the position of the last level, if there is one.
fn go_back(board: &mut Board<'_>, levels: &[Level<'_>])
    ensures { board.new.game ≡ board.old.game }
{
    if !levels.is_empty() {
        undo_last(board);
    }
}

/// The position after the best move, which is played, unless the frame of the level is reached.
fn next_level<'a>(
    alloc: Global,
    level: &Level<'a>,
    survey: &Survey,
    board: &mut Board<'_>,
) -> Result<Option<Level<'a>>, Memory>
    ensures { board.new.game ≡ board.old.game }
{
    let Some(to) = survey.best() else {
        return Ok(None);
    };
    if level.frame.is_reached(&survey.numbers()) {
        return Ok(None);
    }
    play_free(board, u16::from(to.point));
    let moves = level.moves.after(alloc, &to, board.turn())?;
    let frame = survey.below(&level.frame);
    Ok(Some(Level { frame, moves }))
}

/// Goes down to the best move, or up where the frame of the last level is reached.
fn go_on<'a>(
    alloc: Global,
    survey: &Survey,
    board: &mut Board<'_>,
    levels: &mut Vec<Level<'a>>,
) -> Result<(), Memory>
    ensures { board.new.game ≡ board.old.game }
{
    let Some(level) = levels.last() else {
        return Ok(());
    };
    if let Some(next) = next_level(alloc, level, survey, board)? {
        levels.push(next)?;
        return Ok(());
    }
    let _reached = levels.pop();
    go_back(board, levels.as_slice());
    Ok(())
}

/// The position of the board as the only level.
fn first_level<'a>(
    alloc: Global,
    signatures: &'a Signatures,
    board: &Board<'_>,
) -> Result<Vec<Level<'a>>, Memory> {
    let moves = Moves::at(alloc, signatures, &board.position())?;
    let mut levels = Vec::new(alloc);
    levels.push(Level {
        frame: Frame::whole(),
        moves,
    })?;
    Ok(levels)
}

/// How far the search is.
pub(crate) fn progress_of(asked: Asked<'_>, search: &Search) -> Progress {
    let root = asked.signatures.at(&asked.game.start());
    let (proof, disproof) = match search.table.find(&root) {
        Some(numbers) => (numbers.proof, numbers.disproof),
        None => (0, 0),
    };
    Progress::Searching {
        expanded: search.expanded,
        entries: search.table.len(),
        proof,
        disproof,
    }
}

/// Searches on from the position of the board until its answer is known, the table is full, or so
/// many positions are expanded. The board may stand below afterwards.
pub(crate) fn descend<W: Watch>(
    alloc: Global,
    asked: Asked<'_>,
    most: u32,
    board: &mut Board<'_>,
    cache: &mut PairCache,
    search: &mut Search,
    watch: &mut W,
) -> Result<(), Memory>
    requires reads { IsRead asked.game.now asked.question board.old cache.old }
    requires few { search.old.expanded ≤ most }
    requires within { most ≤ asked.limits.positions }
    ensures game { board.new.game ≡ board.old.game }
    ensures fits { Fits cache.new (lines_of asked.entry.game.now) }
    ensures most { most_of search.new.table ≡ most_of search.old.table }
    ensures few { search.new.expanded ≤ most }
{
    let mut levels = first_level(alloc, asked.signatures, board)?;
    for step in 0..VISITS * u64::from(most) {
        let Some(level) = levels.last() else {
            return Ok(());
        };
        if search.table.is_full() || search.expanded >= most {
            return Ok(());
        }
        if step % STEPS_A_NOTE == 0 {
            watch.note(progress_of(asked, search));
        }
        let survey = visit(alloc, asked, &level.moves, board, cache, search)?;
        go_on(alloc, &survey, board, &mut levels)?;
    }
    Ok(())
}
