//! What the standing moves of a session are played on.
ghost use Rattle.std.specs.Prelude.{◌≡◌, ◌-◌, ◌<◌, ◌++◌, [], ◌∷◌, length, take, IfOk, OnOk, OnErr};
ghost use Rattle.pg_record.specs.Prelude.{Switching, start, after, judged_move, IsLegalPlay};
ghost use Rattle.pg_record.specs.Replay.{position_after};
ghost use Rattle.pg_record.specs.Session.{refusal_of, IsTableAfter};

use pg_base::{Kind, Memory};
use pg_board::Board;
use pg_game::{Game, Illegal, Judge, Position};
use std::alloc::Global;

/// What the standing moves are played on.
#[derive(Debug, Drop)]
pub(crate) enum Table<'a> {
    /// The board of a game on lines, on which they are played.
    Lines(Board<'a>),
    /// The judge of a switching game, of which the moves themselves are kept.
    Graph(Judge),
}

/// What no move is played on yet.
///
/// # Errors
///
/// `Memory` where no memory is found.
pub(crate) fn open_table<'a>(alloc: Global, g: &'a Game) -> Result<Table<'a>, Memory>
    ensures { IfOk result (λ t. IsTableAfter g.now [] t) }
{
    if g.kind == Kind::Switching {
        return Ok(Table::Graph(Judge::new(alloc, g)?));
    }
    let start = g.start();
    Ok(Table::Lines(Board::open(alloc, g, &start)?))
}

/// The position after these moves, from the game's position.
pub(crate) fn replayed(g: &Game, moves: &[u16]) -> Position
    requires { IsLegalPlay g.now (start g.now) moves.now }
    ensures { result ≡ position_after g.now moves.now }
{
    let mut position = g.start();
    for v in moves {
        position = g.after(&position, *v);
    }
    position
}

/// Plays the point on a board, or tells why it may not be played.
fn play_on_board(board: &mut Board, v: u16) -> Result<(), Illegal>
    ensures result { result ≡ refusal_of (judged_move board.old.game board.old.stand.position v) }
    ensures game { board.new.game ≡ board.old.game }
    ensures position { OnOk result
        (board.new.stand.position ≡ after board.old.game board.old.stand.position v) }
    ensures earlier { OnOk result (board.new.earlier ≡ board.old.earlier ++ board.old.stand ∷ []) }
    ensures kept { OnErr result (board.new ≡ board.old) }
{
    if v >= board.game().points() {
        return Err(Illegal::Range);
    }
    if board.is_over() {
        return Err(Illegal::Over);
    }
    if !board.is_free(v) {
        return Err(Illegal::Taken);
    }
    board.play(v);
    Ok(())
}

impl<'a> Table<'a> {
    /// Plays the point where these moves stand, or tells why it may not be played.
    pub(crate) fn play(&mut self, g: &Game, moves: &[u16], v: u16) -> Result<(), Illegal>
        requires fits { IsTableAfter g.now moves.now self.old }
        requires legal { IsLegalPlay g.now (start g.now) moves.now }
        ensures result { result
            ≡ refusal_of (judged_move g.now (position_after g.now moves.now) v) }
        ensures played { OnOk result (IsTableAfter g.now (moves.now ++ v ∷ []) self.new) }
        ensures kept { OnErr result (IsTableAfter g.now moves.now self.new) }
    {
        match self {
            Table::Lines(board) => play_on_board(board, v),
            Table::Graph(judge) => {
                let position = replayed(g, moves);
                judge.play(g, &position, v)?;
                Ok(())
            }
        }
    }

    /// Takes the last of these moves back.
    pub(crate) fn undo(&mut self, g: &Game, moves: &[u16])
        requires fits { IsTableAfter g.now moves.now self.old }
        requires some { 0 < length moves.now }
        ensures { IsTableAfter g.now (take (length moves.now - 1) moves.now) self.new }
    {
        match self {
            Table::Lines(board) => board.undo(),
            Table::Graph(_) => {}
        }
    }

    /// The position after these moves.
    pub(crate) fn position(&self, g: &Game, moves: &[u16]) -> Position
        requires fits { IsTableAfter g.now moves.now self.now }
        requires legal { IsLegalPlay g.now (start g.now) moves.now }
        ensures { result ≡ position_after g.now moves.now }
    {
        match self {
            Table::Lines(board) => board.position(),
            Table::Graph(_) => replayed(g, moves),
        }
    }
}
