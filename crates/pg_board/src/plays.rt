//! A play, and how it is taken back.
ghost use Rattle.std.specs.Prelude.{◌≡◌, ◌<◌, true};
ghost use Rattle.pg_board.specs.Prelude.{X, Y, is_free, back_to};
ghost use Rattle.pg_board.specs.Fits.{Fits, IsPlayed, Leads, fewer, left_by, position_of};

use crate::layout::Layout;
use crate::lines::relink_lines;
use crate::points::{claim_point, pass, turn};
use crate::rings::Rings;
use pg_base::Side;
use pg_undo::Trail;

/// A play: its point, and how many entries the trail had before it.
#[derive(Clone, Copy, Debug)]
pub(crate) struct Played {
    pub(crate) point: u16,
    pub(crate) level: usize,
}

/// The side to move takes the point.
pub(crate) fn play_point(layout: &Layout, bias: u8, trail: &mut Trail, rings: &mut Rings, v: u16)
    requires fits { Fits (record { bias = bias; shape = layout.now }) trail.old
        rings.old.live_x rings.old.live_y rings.old.free }
    requires range { v < layout.now.points }
    requires open { is_free (position_of layout.now trail.old.cells) v ≡ true }
    ensures { Leads (record { bias = bias; shape = layout.now })
        trail.old rings.old.live_x rings.old.live_y rings.old.free
        trail.new rings.new.live_x rings.new.live_y rings.new.free v }
{
    match turn(trail) {
        Side::X => claim_point(
            layout,
            trail,
            &mut rings.live_x,
            &mut rings.free,
            Side::X,
            v,
        ),
        Side::Y => claim_point(
            layout,
            trail,
            &mut rings.live_y,
            &mut rings.free,
            Side::Y,
            v,
        ),
    }
    pass(trail, bias);
}

/// The board as it was before the play.
pub(crate) fn undo_play(
    layout: &Layout,
    bias: u8,
    trail: &mut Trail,
    rings: &mut Rings,
    play: Played,
)
    requires played { IsPlayed (record { bias = bias; shape = layout.now }) trail.old
        rings.old.live_x rings.old.live_y rings.old.free play }
    requires before { Fits (record { bias = bias; shape = layout.now })
        (back_to play.level trail.old)
        (fewer (left_by layout.now (back_to play.level trail.old).cells X play.point)
        rings.old.live_x)
        (fewer (left_by layout.now (back_to play.level trail.old).cells Y play.point)
        rings.old.live_y)
        (fewer 1 rings.old.free) }
    ensures trail { trail.new ≡ back_to play.level trail.old }
    ensures live_x { rings.new.live_x
        ≡ fewer (left_by layout.now (back_to play.level trail.old).cells X play.point)
        rings.old.live_x }
    ensures live_y { rings.new.live_y
        ≡ fewer (left_by layout.now (back_to play.level trail.old).cells Y play.point)
        rings.old.live_y }
    ensures free { rings.new.free ≡ fewer 1 rings.old.free }
{
    trail.undo_to(play.level);
    match turn(trail) {
        Side::X => relink_lines(layout, trail, &mut rings.live_x, Side::X, play.point),
        Side::Y => relink_lines(layout, trail, &mut rings.live_y, Side::Y, play.point),
    }
    rings.free.relink();
}
