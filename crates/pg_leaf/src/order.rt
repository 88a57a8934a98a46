//! The order in which a position's moves are gone through.
ghost use Rattle.std.specs.Prelude.{◌≡◌, ◌<◌, ℕ, IfOk, OnOk, Some, length, slice_get};
ghost use Rattle.pg_leaf.specs.Prelude.{lines_of, MAX_POINTS};
ghost use Rattle.pg_leaf.specs.Order.{IsOrder, IsPlaceOf, IsTaking, Takes};

use pg_base::{Kind, Memory, Side};
use pg_board::Board;
use pg_game::MAX_POINTS;
use std::alloc::Global;

/// The moves in their order so far, and those that are still to come, by their points.
#[derive(Debug, Drop)]
struct Order {
    /// Places of moves in the list of moves.
    members: Vec<u16>,
    /// The place of the move to each point, beyond all places where there is none or it was taken.
    left: [u16; MAX_POINTS],
}

/// The side whose points make a line dead: Y, and in Maker-Maker the side that isn't to move.
fn barring(kind: Kind, turn: Side) -> Side {
    match kind {
        Kind::MakerMaker => turn.other(),
        Kind::MakerBreaker | Kind::AvoiderEnforcer | Kind::Switching => Side::Y,
    }
}

impl Order {
    /// No move taken.
    fn new(alloc: Global, moves: &[(u16, u32)]) -> Result<Order, Memory>
        ensures { IfOk result (λ order. IsTaking moves.now order.members.items order.left) }
    {
        let mut left = [u16::MAX; MAX_POINTS];
        let mut k: u16 = 0;
        for m in moves {
            let v = m.0 as usize;
            if v < MAX_POINTS {
                left[v] = k;
            }
            k = k.saturating_add(1);
        }
        let members = Vec::with_capacity(alloc, moves.len())?;
        Ok(Order { members, left })
    }

    /// Takes the move to the point, where it is still to come.
    fn take(&mut self, v: u16) -> Result<(), Memory>
        ensures takes { OnOk result (Takes self.old self.new) }
        ensures gone { OnOk result (v < MAX_POINTS → slice_get self.new.left v ≡ Some 65535) }
    {
        let i = v as usize;
        if i >= MAX_POINTS {
            return Ok(());
        }
        let k = self.left[i];
        if k == u16::MAX {
            return Ok(());
        }
        self.left[i] = u16::MAX;
        self.members.push(k)?;
        Ok(())
    }

    /// Takes the moves to the points of a line.
    fn take_line(&mut self, b: &Board<'_>, line: u32) -> Result<(), Memory>
        requires { line < length (lines_of b.now.game) }
        ensures { OnOk result (Takes self.old self.new) }
    {
        for i in 0..b.line_len(line) {
            self.take(b.line_point(line, i))?;
        }
        Ok(())
    }

    /// Takes the moves to the points of lines without a point of the side, until so many are taken.
    fn take_lines(&mut self, b: &Board<'_>, side: Side, enough: usize) -> Result<(), Memory>
        ensures { OnOk result (Takes self.old self.new) }
    {
        let mut next = b.first_live(side);
        for _v in 0..b.lines() {
            let Some(line) = next else {
                return Ok(());
            };
            if self.members.len() >= enough {
                return Ok(());
            }
            self.take_line(b, line)?;
            next = b.next_live(side, line);
        }
        Ok(())
    }

    /// Takes the moves that are left.
    fn take_rest(&mut self, moves: &[(u16, u32)]) -> Result<(), Memory>
        ensures takes { OnOk result (Takes self.old self.new) }
        ensures gone { OnOk result ((k : ℕ) → (v : ℕ) → k < length moves.now
            → IsPlaceOf moves.now k v
            → v < MAX_POINTS
            → slice_get self.new.left v ≡ Some 65535) }
    {
        for m in moves {
            self.take(m.0)?;
        }
        Ok(())
    }
}

/// The order in which to go through the moves at the board's position, as places in the list of
/// moves, each of which is a point with anything beside it: those to points of live lines first,
/// line by line and each where its point is first met, and then the others, ascending. A line is
/// live where it has no point of Y, and in Maker-Maker where it has none of the side that isn't to
/// move.
///
/// The places are different, and each point below 256 to which a move goes has one, if there are at
/// most 65,535 moves. So all moves are in it, where their points are different and below 256. That
/// points of live lines come first, no clause tells.
///
/// # Errors
///
/// `Memory` where no memory is found.
pub fn order_of(alloc: Global, b: &Board<'_>, moves: &[(u16, u32)]) -> Result<Vec<u16>, Memory>
    ensures { IfOk result (λ order. IsOrder moves.now order.items) }
{
    let mut order = Order::new(alloc, moves)?;
    order.take_lines(b, barring(b.kind(), b.turn()), moves.len())?;
    order.take_rest(moves)?;
    let Order {
        members,
        left: _left,
    } = order;
    Ok(members)
}
