//! The search in depth: at each position the moves one after the other, by ascending points.
ghost use Rattle.std.specs.Prelude.{◌≡◌, ◌<◌, ◌≤◌};
ghost use Rattle.pg_dfpn.specs.Prelude.{Fits, lines_of, most_of};
ghost use Rattle.pg_dfpn.specs.Asking.{IsRead};

use crate::descent::{STEPS_A_NOTE, Search, progress_of};
use crate::judging::{Asked, judged};
use crate::moving::{play_free, undo_last};
use pg_base::Memory;
use pg_board::Board;
use pg_limits::Watch;
use pg_match::PairCache;
use pg_transpositions::{Move, Moves, Table};
use std::alloc::Global;

/// How many steps may be taken for each position that is expanded: one or two for each move.
const POSITION_STEPS: u64 = 512;

/// A position on the way down.
#[derive(Debug, Drop)]
struct Level<'a> {
    moves: Moves<'a>,
    /// How many of the moves lose.
    lost: usize,
}

/// Goes up from the position of the board, whose answer its moves tell.
fn leave(moves: &Moves<'_>, board: &mut Board<'_>, table: &mut Table) -> Result<(), Memory>
    ensures game { board.new.game ≡ board.old.game }
    ensures most { most_of table.new ≡ most_of table.old }
{
    let numbers = moves.survey(table).numbers();
    table.put(moves.key, numbers)?;
    undo_last(board);
    Ok(())
}

/// Plays the move to a position that was not met, and returns that as a level, unless a leaf
/// decides it.
fn enter<'a>(
    alloc: Global,
    asked: Asked<'_>,
    level: &Level<'a>,
    to: &Move,
    board: &mut Board<'_>,
    cache: &mut PairCache,
    search: &mut Search,
) -> Result<Option<Level<'a>>, Memory>
    requires reads { IsRead asked.game.now asked.question board.old cache.old }
    requires few { search.old.expanded < asked.limits.positions }
    ensures game { board.new.game ≡ board.old.game }
    ensures fits { Fits cache.new (lines_of asked.entry.game.now) }
    ensures most { most_of search.new.table ≡ most_of search.old.table }
    ensures few { search.new.expanded ≤ asked.entry.limits.positions }
{
    play_free(board, u16::from(to.point));
    let numbers = judged(alloc, asked, board, cache)?;
    if numbers.answer().is_some() {
        search.table.put(to.key, numbers)?;
        undo_last(board);
        return Ok(None);
    }
    search.expanded += 1;
    let moves = level.moves.after(alloc, to, board.turn())?;
    Ok(Some(Level { moves, lost: 0 }))
}

/// Looks at the next move at the position of the board, which is that of the last level.
fn step(
    alloc: Global,
    asked: Asked<'_>,
    board: &mut Board<'_>,
    cache: &mut PairCache,
    search: &mut Search,
    levels: &mut Vec<Level<'_>>,
) -> Result<(), Memory>
    requires reads { IsRead asked.game.now asked.question board.old cache.old }
    requires few { search.old.expanded < asked.limits.positions }
    ensures game { board.new.game ≡ board.old.game }
    ensures fits { Fits cache.new (lines_of asked.entry.game.now) }
    ensures most { most_of search.new.table ≡ most_of search.old.table }
    ensures few { search.new.expanded ≤ asked.entry.limits.positions }
{
    let Some(mut level) = levels.pop() else {
        return Ok(());
    };
    if level.lost >= level.moves.each.len() {
        return leave(&level.moves, board, &mut search.table);
    }
    let to = level.moves.each[level.lost];
    let Some(numbers) = search.table.find(&to.key) else {
        let next = enter(alloc, asked, &level, &to, board, cache, search)?;
        levels.push(level)?;
        if let Some(next) = next {
            levels.push(next)?;
        }
        return Ok(());
    };
    if numbers.of(level.moves.turn) == 0 {
        return leave(&level.moves, board, &mut search.table);
    }
    level.lost += 1;
    levels.push(level)?;
    Ok(())
}

/// Searches from the position of the board until its answer is known, the table is full, or the
/// positions are used up. The board may stand below afterwards.
pub(crate) fn plunge<W: Watch>(
    alloc: Global,
    asked: Asked<'_>,
    board: &mut Board<'_>,
    cache: &mut PairCache,
    search: &mut Search,
    watch: &mut W,
) -> Result<(), Memory>
    requires reads { IsRead asked.game.now asked.question board.old cache.old }
    requires few { search.old.expanded ≤ asked.limits.positions }
    ensures game { board.new.game ≡ board.old.game }
    ensures fits { Fits cache.new (lines_of asked.entry.game.now) }
    ensures most { most_of search.new.table ≡ most_of search.old.table }
    ensures few { search.new.expanded ≤ asked.entry.limits.positions }
{
    let moves = Moves::at(alloc, asked.signatures, &board.position())?;
    let mut levels = Vec::new(alloc);
    levels.push(Level { moves, lost: 0 })?;
    for taken in 0..POSITION_STEPS * u64::from(asked.limits.positions) {
        if levels.is_empty() || search.table.is_full() {
            return Ok(());
        }
        if search.expanded >= asked.limits.positions {
            return Ok(());
        }
        if taken % STEPS_A_NOTE == 0 {
            watch.note(progress_of(asked, search));
        }
        step(alloc, asked, board, cache, search, &mut levels)?;
    }
    Ok(())
}
