//! Laws of pictures' texts. Each function is empty: what it promises is a law of the definitions
//! alone.
ghost use Rattle.std.specs.Prelude.{codes};
ghost use Rattle.pg_picture.specs.Svg.{picture_text};
ghost use Rattle.pg_picture.specs.Tags.{CloseInOrder};
ghost use Rattle.pg_picture.specs.declared.picture.Picture.{Picture};

/// In the text of a picture each tag that is opened is closed, the last opened first.
pub fn tags_close_in_order()
    ensures { (p : Picture) → CloseInOrder (picture_text p) }
{}

/// The scan that says so refuses a tag that stays open, tags that cross, and a tag that closes what
/// wasn't opened.
pub fn scan_refuses()
    ensures left_open { ¬ CloseInOrder (codes "<a>b") }
    ensures crossed { ¬ CloseInOrder (codes "<a><b></a></b>") }
    ensures not_open { ¬ CloseInOrder (codes "<a/></a>") }
{}
