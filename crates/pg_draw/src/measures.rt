//! The measures of pictures, in units.

/// How far apart the lines of the legend are.
pub(crate) const LEADING: u32 = 16;

/// How many letters of a text count for the width of a picture.
pub(crate) const MAX_COUNTED_LETTERS: usize = 1000;

/// The radius of a point's disc.
pub(crate) const POINT_RADIUS: u32 = 20;

/// How far above the middle of a disc its number stands.
pub(crate) const DISC_NUMBER_UP: u32 = 10;

/// How far below the middle of a disc its mark stands.
pub(crate) const DISC_MARK_DOWN: u32 = 6;

/// How far left of the middle of a cell its number ends: so it is between the upper border, the
/// column through the middle and the diagonal from the corner.
pub(crate) const CORNER_LEFT: u32 = 2;

/// How far above the middle of a cell its number stands.
pub(crate) const CORNER_UP: u32 = 19;

/// How far below the middle of a cell its mark stands.
pub(crate) const CELL_MARK_DOWN: u32 = 5;

/// How far below the middle of a cell or disc its weight stands, or the node that follows.
pub(crate) const NOTE_DOWN: u32 = 6;

/// How far below the place of an edge the node that follows stands.
pub(crate) const EDGE_NOTE_DOWN: u32 = 14;

/// The radius of the ground of words.
pub(crate) const PLATE_RADIUS: u32 = 9;

/// The radius of a loop.
pub(crate) const LOOP_RADIUS: u32 = 14;

/// The radius of a vertex.
pub(crate) const VERTEX_RADIUS: u32 = 12;

/// The radius of the dot at a line's first point.
pub(crate) const LINE_DOT_RADIUS: u32 = 3;

/// The radius of the dots at a pair's points.
pub(crate) const PAIR_DOT_RADIUS: u32 = 5;

/// The radius of the ring around a member of a set.
pub(crate) const MEMBER_RADIUS: u32 = 16;

/// The radius of the ring around a disc at which a node follows.
pub(crate) const CHILD_RADIUS: u32 = 21;

/// The radius of the ring in a cell at which a node follows.
pub(crate) const CELL_CHILD_RADIUS: u32 = 17;

/// How far below the middle of a cell that of its ring is, so that the number stays clear.
pub(crate) const CELL_CHILD_DOWN: u32 = 4;

/// The radius of the ring around the place of an edge at which a node follows.
pub(crate) const EDGE_CHILD_RADIUS: u32 = 26;

/// How many lanes have places of their own.
pub(crate) const LANES: usize = 30;

/// How many lanes are in a group.
pub(crate) const GROUP: usize = 5;

/// How far to the side each further lane of a group is.
pub(crate) const LANE_ACROSS: u32 = 6;

/// How far up or down each further lane of a group is.
pub(crate) const LANE_DOWN: u32 = 3;

/// How far to the side each further group of lanes is.
pub(crate) const GROUP_ACROSS: u32 = 1;

/// How far up or down each further group of lanes is.
pub(crate) const GROUP_DOWN: u32 = 5;

/// No place is so many steps beside another.
pub(crate) const MAX_STEPS: usize = 6;

/// The radius of the ring around a number beside a place.
pub(crate) const BADGE_RADIUS: u32 = 9;

/// How far right of a place such a ring is.
pub(crate) const BADGE_RIGHT: u32 = 13;

/// How far above a place such a ring is.
pub(crate) const BADGE_UP: u32 = 13;

/// How high a row of a table is.
pub(crate) const ROW_HIGH: u32 = 28;

/// Half of that.
pub(crate) const HALF_ROW: u32 = 14;

/// How far right of the left side of a table the numbers of its rows stand.
pub(crate) const ROW_NUMBER: u32 = 20;

/// How far right of the left side of a table the word for its last row stands.
pub(crate) const ROW_WORD: u32 = 36;

/// How far right of the left side of a table the marks of its rows are.
pub(crate) const ROW_MARK: u32 = 52;

/// How far right of the left side of a table the signs of its rows begin.
pub(crate) const ROW_SIGNS: u32 = 76;

/// The radius of the mark of a row.
pub(crate) const ROW_RADIUS: u32 = 11;

/// How far below the middle of a row the stroke of the first set is.
pub(crate) const FIRST_DOWN: u32 = 8;

/// How far below the middle of a row the stroke of the second set is.
pub(crate) const SECOND_DOWN: u32 = 11;

/// The most blank boards of a sheet.
pub const MAX_BOARDS: u32 = 100;

/// The most columns of a sheet.
pub(crate) const MAX_COLUMNS: u32 = 3;

/// How far from the top of its picture the heading stands.
pub(crate) const HEADING_DOWN: u32 = 28;

/// How wide a letter of the heading is.
pub(crate) const HEADING_LETTER: u32 = 10;

/// How wide a letter of the legend is.
pub(crate) const LEGEND_LETTER: u32 = 7;

/// How wide a sign of a vector is.
pub(crate) const SIGN_LETTER: u32 = 8;

/// How far from the left side of its picture the cross of a fault begins.
pub(crate) const CROSS_LEFT: u32 = 6;

/// How far from the left side of its picture the cross of a fault ends.
pub(crate) const CROSS_RIGHT: u32 = 18;

/// How far from the top of its picture the cross of a fault begins.
pub(crate) const CROSS_TOP: u32 = 22;

/// How far from the top of its picture the cross of a fault ends.
pub(crate) const CROSS_BOTTOM: u32 = 34;

/// Both numbers of the corner of a board without its edges are below this.
pub(crate) const MAX_BOARD_REACH: u32 = 4_300_000;

/// Both numbers of the corner of a board with its edges are below this.
pub(crate) const MAX_CORNER_REACH: u32 = 4_400_000;

/// The width of words is below this.
pub(crate) const MAX_TEXT_WIDTH: u32 = 200_000;

/// The width and the height of a board's picture are below this.
pub(crate) const MAX_PICTURE_REACH: u32 = 4_500_000;

/// The greatest width of a letter.
pub(crate) const MAX_LETTER_WIDTH: u32 = 100;
