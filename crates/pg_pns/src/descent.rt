//! The walk on the board from the root to the position that is expanded next, and back.
ghost use Rattle.std.specs.Prelude.{◌≡◌, ◌<◌, IfSome, IfNone, None, Some, List, length, get_or};
ghost use Rattle.std.specs.Prelude.{slice_get, []};
ghost use Rattle.std.specs.Prelude.{◌≢◌, true};
ghost use Rattle.pg_pns.specs.Prelude.{All, Score, Game, Position, Switching};
ghost use Rattle.pg_pns.specs.Descent.{IsOpenMove, HasOpen, IsAtStart, first_stand};
ghost use Rattle.pg_pns.specs.Descent.{IsFromStart, KeepsFirst};
ghost use Rattle.pg_met.specs.Known.{answer_at};
ghost use Rattle.pg_pns.specs.Search.{IsSearch, IsNext};

use crate::guide::Guide;
use crate::way::Way;
use pg_board::Board;
use pg_leaf::Key;
use pg_met::{Answered, Table};

/// The first of the moves without an answer.
fn first_open(moves: &[(u16, u32)], answers: &[Option<Answered>]) -> Option<(u16, u32)>
    requires { All (λ m. m.1 < length answers.now) moves.now }
    ensures some { IfSome result (IsOpenMove moves.now answers.now) }
    ensures none { IfNone result (HasOpen moves.now answers.now → ⊥) }
{
    for m in moves {
        if answers[m.1 as usize].is_none() {
            return Some(*m);
        }
    }
    None
}

/// The best of the moves at a place, with the place after it, and None where it isn't expanded.
fn next_on_way(table: &Table, guide: &Guide, place: u32) -> Option<(u16, u32)>
    requires search { (t : Score) × (list : List Position) × (g : Game)
        × IsSearch g t [] list table.now }
    requires range { place < length table.now.positions.items }
    ensures some { IfSome result
        (IsOpenMove (get_or table.now.moves.items place []) table.now.answers.items) }
    ensures none { IfNone result
        (HasOpen (get_or table.now.moves.items place []) table.now.answers.items → ⊥) }
{
    let side = table.positions.key(place).turn();
    let nexts = table.moves.as_slice();
    let moves = nexts[place as usize].as_slice();
    let answers = table.answers.as_slice();
    let best = guide.best(side, place, moves, answers);
    if best.is_some() {
        return best;
    }
    first_open(moves, answers)
}

/// Plays the best moves from the root down, and gives the place of the position that is expanded
/// next.
fn play_down(table: &Table, guide: &Guide, board: &mut Board<'_>) -> u32
    requires search { (t : Score) × (list : List Position)
        × IsSearch board.old.game t [] list table.now }
    requires opened { answer_at table.now.answers.items 0 ≡ None }
    requires starts { IsAtStart board.old.game board.old }
    ensures next { IsNext table.now result }
    ensures game { board.new.game ≡ board.old.game }
    ensures stands { slice_get table.now.positions.items result ≡ Some board.new.stand.position }
    ensures first { first_stand board.new ≡ board.old.stand }
{
    let mut place = 0;
    while let Some((v, next)) = next_on_way(table, guide, place) {
        board.play(v);
        place = next;
    }
    place
}

/// Takes back all plays.
fn go_up(board: &mut Board<'_>)
    ensures game { board.new.game ≡ board.old.game }
    ensures stand { board.new.stand ≡ first_stand board.old }
    ensures earlier { board.new.earlier ≡ [] }
{
    while board.plays() > 0 {
        board.undo();
    }
}

/// Takes plays back until at most so many stand.
fn take_back(board: &mut Board<'_>, plays: usize)
    ensures { KeepsFirst board.old board.new }
{
    while board.plays() > plays {
        board.undo();
    }
}

/// Makes the play at the index one to the point, if it can be played there. A play that is another
/// one is taken back with those after it.
fn bring(board: &mut Board<'_>, way: &mut Way, i: usize, v: u16)
    ensures { KeepsFirst board.old board.new }
{
    if i < board.plays() {
        if way.has(i, v) {
            return;
        }
    }
    take_back(board, i);
    if v >= board.game().points() {
        return;
    }
    if board.is_free(v) {
        way.put(i, v);
        board.play(v);
    }
}

/// Brings the board from where it stands to the position that is expanded next, by the best moves
/// from the root down, and gives the place of that position. What the board then stands at rests on
/// `way`, so no clause tells.
fn bring_down(table: &Table, guide: &mut Guide, board: &mut Board<'_>) -> u32
    requires search { (t : Score) × (list : List Position)
        × IsSearch board.old.game t [] list table.now }
    requires opened { answer_at table.now.answers.items 0 ≡ None }
    ensures next { IsNext table.now result }
    ensures range { result < length table.now.positions.items }
    ensures keeps { KeepsFirst board.old board.new }
{
    let mut place = 0;
    let mut depth: usize = 0;
    while let Some((v, next)) = next_on_way(table, guide, place) {
        bring(board, &mut guide.way, depth, v);
        depth = depth.saturating_add(1);
        place = next;
    }
    take_back(board, depth);
    place
}

/// Whether the board stands at the position.
fn stands_at(board: &Board<'_>, position: &Key) -> bool
    requires { board.now.game.kind ≢ Switching }
    ensures { result ≡ true → position.now ≡ board.now.stand.position }
{
    let here = Key::of(&board.position());
    here == *position
}

/// Brings the board to the position that is expanded next, and gives the place of that position.
/// The plays that lead there already stay; if the board then stands anywhere else, it goes up, and
/// all plays are made anew.
pub(crate) fn go_down(table: &Table, guide: &mut Guide, board: &mut Board<'_>) -> u32
    requires search { (t : Score) × (list : List Position)
        × IsSearch board.old.game t [] list table.now }
    requires opened { answer_at table.now.answers.items 0 ≡ None }
    requires starts { IsFromStart board.old.game board.old }
    ensures next { IsNext table.now result }
    ensures game { board.new.game ≡ board.old.game }
    ensures stands { slice_get table.now.positions.items result ≡ Some board.new.stand.position }
    ensures first { first_stand board.new ≡ first_stand board.old }
{
    let place = bring_down(table, guide, board);
    if stands_at(board, table.positions.key(place)) {
        return place;
    }
    go_up(board);
    play_down(table, guide, board)
}
