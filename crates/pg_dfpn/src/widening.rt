//! The search of the claimer's other moves, so that a smaller claim may be found.
ghost use Rattle.std.specs.Prelude.{◌≡◌, ◌≤◌};
ghost use Rattle.pg_dfpn.specs.Prelude.{Fits, lines_of, most_of};
ghost use Rattle.pg_dfpn.specs.Asking.{IsRead};

use crate::descent::{STEPS_A_NOTE, Search, descend, met, progress_of};
use crate::judging::Asked;
use crate::moving::{go_up_to, play_free, undo_last};
use pg_base::{Kind, Memory, Side};
use pg_board::Board;
use pg_limits::{Unwatched, Watch};
use pg_match::PairCache;
use pg_transpositions::{Move, Moves, Signature, State, Table};
use std::alloc::Global;

/// How many entries the table may have while other moves are searched.
const WIDE_ENTRIES: u32 = 800_000;

/// How many positions may be expanded for a move, but in Maker-Maker.
const MOVE_POSITIONS: u32 = 2_000;

/// How many positions may be expanded for a move in Maker-Maker, where moves take long to judge.
const MAKER_MAKER_POSITIONS: u32 = 100;

/// After how many moves of the game no further moves are searched in Maker-Maker.
const MAKER_MAKER_PLAYS: usize = 2;

/// How many nodes the tree of the answer has, at least, if further moves are searched in
/// Maker-Maker.
const MAKER_MAKER_TREE: u32 = 55_000;

/// How many steps may be taken for each entry of the table: at a position one for each point.
const ENTRY_STEPS: u64 = 512;

/// Tests whether no more moves are searched: the positions are used up, or four fifths of the
/// entries, or so many entries as are for this.
fn is_spent(asked: Asked<'_>, search: &Search) -> bool {
    let entries = WIDE_ENTRIES.min(asked.limits.entries / 5 * 4);
    search.expanded >= asked.limits.positions || search.table.len() >= entries as usize
}

/// How many positions may be expanded for a move of the game.
fn move_positions(kind: Kind) -> u32 {
    match kind {
        Kind::MakerMaker => MAKER_MAKER_POSITIONS,
        _ => MOVE_POSITIONS,
    }
}

/// Tests whether further moves are searched in a game of which the answer's tree has `size` nodes.
fn is_large(kind: Kind, size: u32) -> bool {
    kind != Kind::MakerMaker || size >= MAKER_MAKER_TREE
}

/// Tests whether further moves are searched at the position of the board.
fn is_near(board: &Board<'_>) -> bool {
    board.kind() != Kind::MakerMaker || board.plays() < MAKER_MAKER_PLAYS
}

/// A position on the way down.
#[derive(Debug, Drop)]
struct Look<'a> {
    moves: Moves<'a>,
    /// How many of the moves were looked at.
    done: usize,
}

/// Tests whether the claimer wins at the position, and its moves weren't searched there.
fn is_narrow(claimer: Side, key: &Signature, table: &Table) -> bool {
    match table.find(key) {
        Some(numbers) => numbers.state == State::Expanded && numbers.of(claimer) == 0,
        None => false,
    }
}

/// Searches whether the claimer wins at the position of the board, to which its move has led and
/// whose signature is `key`.
fn try_move(
    alloc: Global,
    asked: Asked<'_>,
    key: &Signature,
    board: &mut Board<'_>,
    cache: &mut PairCache,
    search: &mut Search,
) -> Result<(), Memory>
    requires reads { IsRead asked.game.now asked.question board.old cache.old }
    requires few { search.old.expanded ≤ asked.limits.positions }
    ensures game { board.new.game ≡ board.old.game }
    ensures fits { Fits cache.new (lines_of asked.entry.game.now) }
    ensures most { most_of search.new.table ≡ most_of search.old.table }
    ensures few { search.new.expanded ≤ asked.entry.limits.positions }
{
    let numbers = met(alloc, asked, key, board, cache, &mut search.table)?;
    if numbers.answer().is_some() {
        return Ok(());
    }
    let plays = board.plays();
    let most = search
        .expanded
        .saturating_add(move_positions(asked.game.kind))
        .min(asked.limits.positions);
    descend(alloc, asked, most, board, cache, search, &mut Unwatched)?;
    go_up_to(board, plays);
    Ok(())
}

/// Ends the look at the position of the board: its numbers are told anew, since its tree may have
/// got smaller.
fn leave(moves: &Moves<'_>, board: &mut Board<'_>, table: &mut Table)
    ensures game { board.new.game ≡ board.old.game }
    ensures most { most_of table.new ≡ most_of table.old }
{
    let mut numbers = moves.survey(table).numbers();
    numbers.state = State::Widened;
    table.renew(&moves.key, numbers);
    undo_last(board);
}

/// Plays the move, and searches whether the claimer wins after it if the claimer has moved.
fn play_move(
    alloc: Global,
    asked: Asked<'_>,
    claimer: Side,
    to: &Move,
    board: &mut Board<'_>,
    cache: &mut PairCache,
    search: &mut Search,
) -> Result<(), Memory>
    requires reads { IsRead asked.game.now asked.question board.old cache.old }
    requires few { search.old.expanded ≤ asked.limits.positions }
    ensures game { board.new.game ≡ board.old.game }
    ensures fits { Fits cache.new (lines_of asked.entry.game.now) }
    ensures most { most_of search.new.table ≡ most_of search.old.table }
    ensures few { search.new.expanded ≤ asked.entry.limits.positions }
{
    let turn = board.turn();
    play_free(board, u16::from(to.point));
    if turn != claimer {
        return Ok(());
    }
    try_move(alloc, asked, &to.key, board, cache, search)
}

/// Looks at the next move at the position of the board, which is that of the last look.
fn step(
    alloc: Global,
    asked: Asked<'_>,
    claimer: Side,
    board: &mut Board<'_>,
    cache: &mut PairCache,
    search: &mut Search,
    looks: &mut Vec<Look<'_>>,
) -> Result<(), Memory>
    requires reads { IsRead asked.game.now asked.question board.old cache.old }
    requires few { search.old.expanded ≤ asked.limits.positions }
    ensures game { board.new.game ≡ board.old.game }
    ensures fits { Fits cache.new (lines_of asked.entry.game.now) }
    ensures most { most_of search.new.table ≡ most_of search.old.table }
    ensures few { search.new.expanded ≤ asked.entry.limits.positions }
{
    let Some(mut look) = looks.pop() else {
        return Ok(());
    };
    if look.done >= look.moves.each.len() || is_spent(asked, search) {
        leave(&look.moves, board, &mut search.table);
        return Ok(());
    }
    let to = look.moves.each[look.done];
    look.done += 1;
    play_move(alloc, asked, claimer, &to, board, cache, search)?;
    if !is_near(board) || !is_narrow(claimer, &to.key, &search.table) {
        undo_last(board);
        looks.push(look)?;
        return Ok(());
    }
    let moves = look.moves.after(alloc, &to, board.turn())?;
    looks.push(look)?;
    looks.push(Look { moves, done: 0 })?;
    Ok(())
}

/// Searches the claimer's moves at the position of the board, at which it wins, and at all those
/// below at which it does, each move for a short while.
pub(crate) fn widen<W: Watch>(
    alloc: Global,
    asked: Asked<'_>,
    claimer: Side,
    board: &mut Board<'_>,
    cache: &mut PairCache,
    search: &mut Search,
    watch: &mut W,
) -> Result<(), Memory>
    requires reads { IsRead asked.game.now asked.question board.old cache.old }
    requires few { search.old.expanded ≤ asked.limits.positions }
    ensures game { board.new.game ≡ board.old.game }
    ensures fits { Fits cache.new (lines_of asked.entry.game.now) }
    ensures most { most_of search.new.table ≡ most_of search.old.table }
    ensures few { search.new.expanded ≤ asked.entry.limits.positions }
{
    let moves = Moves::at(alloc, asked.signatures, &board.position())?;
    let size = moves.survey(&search.table).numbers().size;
    if !is_large(asked.game.kind, size) || !is_narrow(claimer, &moves.key, &search.table) {
        return Ok(());
    }
    let mut looks = Vec::new(alloc);
    looks.push(Look { moves, done: 0 })?;
    for look in 0..ENTRY_STEPS * u64::from(asked.limits.entries) {
        if looks.is_empty() {
            return Ok(());
        }
        if look % STEPS_A_NOTE == 0 {
            watch.note(progress_of(asked, search));
        }
        step(alloc, asked, claimer, board, cache, search, &mut looks)?;
    }
    Ok(())
}
