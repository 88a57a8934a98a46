//! Moves on the board.
ghost use Rattle.std.specs.Prelude.{◌≡◌, ◌<◌, ◌≤◌, length, true};
ghost use Rattle.pg_dfpn.specs.Prelude.{point_count, is_free, after};

use pg_board::Board;

/// Plays the point, where it is free.
pub(crate) fn play_free(board: &mut Board<'_>, v: u16)
    ensures game { board.new.game ≡ board.old.game }
    ensures played { v < point_count board.old.game
        → is_free board.old.stand.position v ≡ true
        → board.new.stand.position ≡ after board.old.game board.old.stand.position v }
{
    if v < board.game().points() && board.is_free(v) {
        board.play(v);
    }
}

/// Takes the last play back, where there is one.
pub(crate) fn undo_last(board: &mut Board<'_>)
    ensures { board.new.game ≡ board.old.game }
{
    if board.plays() > 0 {
        board.undo();
    }
}

/// Takes back plays until no more than so many stand.
pub(crate) fn go_up_to(board: &mut Board<'_>, plays: usize)
    ensures game { board.new.game ≡ board.old.game }
    ensures earlier { length board.new.earlier ≤ plays }
{
    while board.plays() > plays {
        board.undo();
    }
}
