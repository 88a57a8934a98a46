//! The text of a picture.
ghost use Rattle.std.specs.Prelude.{◌≡◌, ◌*◌, ◌/◌, ◌++◌, [], OnOk, IfOk, codes, decimal, max};
ghost use Rattle.std.specs.Prelude.{string_bytes};
ghost use Rattle.std.specs.List.{flat_map};
ghost use Rattle.pg_picture.specs.Svg.{attribute_text, class_name, copy_text, escaped};
ghost use Rattle.pg_picture.specs.Svg.{escaped_byte, filled, ground_text, head, lowered, numbered};
ghost use Rattle.pg_picture.specs.Svg.{painted};
ghost use Rattle.pg_picture.specs.Svg.{path_of, picture_text, place_text, shape_text, shift_of};
ghost use Rattle.pg_picture.specs.Svg.{size_attributes};
ghost use Rattle.pg_picture.specs.declared.shape.Shape.TheVariants as shapes;

use crate::paint::Paint;
use crate::picture::Picture;
use crate::shape::{Place, Shape};
use crate::style::{NAME_SPACE, STYLE};
use pg_base::Memory;
use std::alloc::{AllocError, Global};
use std::fmt::Write;

/// How many hues and dashes pairs have.
const HUES: u8 = 8;

/// A byte of a text, as it stands between tags.
fn put_byte(out: &mut String, byte: u8) -> Result<(), AllocError>
    ensures { OnOk result (string_bytes out.new ≡ string_bytes out.old ++ escaped_byte byte) }
{
    match byte {
        b'&' => out.push_str("&amp;"),
        b'<' => out.push_str("&lt;"),
        b'>' => out.push_str("&gt;"),
        b'"' => out.push_str("&quot;"),
        b' '..=b'~' => out.push(byte as char),
        _ => out.push_str("?"),
    }
}

/// Words as they stand between tags.
fn put_words(out: &mut String, words: &str) -> Result<(), AllocError>
    ensures { OnOk result (string_bytes out.new ≡ string_bytes out.old ++ escaped words.now) }
{
    for byte in words.as_bytes() {
        put_byte(out, *byte)?;
    }
    Ok(())
}

/// The class of the style sheet by which a shape is painted.
#[tactic(auto, unfolding(crate::specs::Svg::class_name))]
fn put_class(out: &mut String, paint: Paint) -> Result<(), AllocError>
    ensures { OnOk result (string_bytes out.new ≡ string_bytes out.old ++ class_name paint) }
{
    match paint {
        Paint::Free => out.push_str("free"),
        Paint::OfX => out.push_str("of-x"),
        Paint::OfY => out.push_str("of-y"),
        Paint::Terminal => out.push_str("terminal"),
        Paint::Vertex => out.push_str("vertex"),
        Paint::Line => out.push_str("line"),
        Paint::Edge => out.push_str("edge"),
        Paint::EdgeOfX => out.push_str("edge-of-x"),
        Paint::EdgeOfY => out.push_str("edge-of-y"),
        Paint::Pair(hue) => put_hue(out, hue % HUES),
        Paint::First => out.push_str("first"),
        Paint::Second => out.push_str("second"),
        Paint::Extra => out.push_str("extra"),
        Paint::Step => out.push_str("step"),
        Paint::Answer => out.push_str("answer"),
        Paint::Move => out.push_str("move"),
        Paint::Reply => out.push_str("reply"),
        Paint::Fault => out.push_str("fault"),
        Paint::Corner => out.push_str("corner"),
        Paint::Number => out.push_str("number"),
        Paint::Plate => out.push_str("plate"),
        Paint::Mark => out.push_str("mark"),
        Paint::Weight => out.push_str("weight"),
        Paint::Legend => out.push_str("legend"),
        Paint::Heading => out.push_str("heading"),
    }
}

/// The class of pairs with this hue and dash.
fn put_hue(out: &mut String, hue: u8) -> Result<(), AllocError>
    ensures { OnOk result
        (string_bytes out.new ≡ string_bytes out.old ++ (codes "pair-" ++ decimal hue)) }
{
    write!(out, "pair-{hue}")?;
    Ok(())
}

/// The attribute that says how a shape is painted.
#[tactic(auto, unfolding(crate::specs::Svg::attribute_text))]
fn put_paint(out: &mut String, paint: Paint) -> Result<(), AllocError>
    ensures { OnOk result
        (string_bytes out.new ≡ string_bytes out.old ++ attribute_text (painted paint)) }
{
    out.push_str(" class=\"")?;
    put_class(out, paint)?;
    out.push_str("\"")?;
    Ok(())
}

/// An attribute with a number.
#[tactic(auto, unfolding(crate::specs::Svg::attribute_text))]
fn put_number(out: &mut String, name: &str, number: u32) -> Result<(), AllocError>
    ensures { OnOk result
        (string_bytes out.new ≡ string_bytes out.old ++ attribute_text (numbered name.now number)) }
{
    write!(out, " {name}=\"{number}\"")?;
    Ok(())
}

/// The attributes of a place, under two names.
fn put_place(out: &mut String, across: &str, down: &str, place: Place) -> Result<(), AllocError>
    ensures { OnOk result
        (string_bytes out.new ≡ string_bytes out.old ++ (attribute_text
        (numbered across.now place.across) ++ attribute_text (numbered down.now place.down))) }
{
    put_number(out, across, place.across)?;
    put_number(out, down, place.down)?;
    Ok(())
}

/// A square.
fn put_square(out: &mut String, corner: Place, side: u32, paint: Paint) -> Result<(), AllocError>
    ensures { OnOk result
        (string_bytes out.new
        ≡ string_bytes out.old ++ shape_text (shapes.Square corner side paint)) }
{
    out.push_str("<rect")?;
    put_paint(out, paint)?;
    put_place(out, "x", "y", corner)?;
    put_number(out, "width", side)?;
    put_number(out, "height", side)?;
    out.push_str("/>\n")?;
    Ok(())
}

/// A disc.
fn put_disc(out: &mut String, centre: Place, radius: u32, paint: Paint) -> Result<(), AllocError>
    ensures { OnOk result
        (string_bytes out.new
        ≡ string_bytes out.old ++ shape_text (shapes.Disc centre radius paint)) }
{
    out.push_str("<circle")?;
    put_paint(out, paint)?;
    put_place(out, "cx", "cy", centre)?;
    put_number(out, "r", radius)?;
    out.push_str("/>\n")?;
    Ok(())
}

/// A straight stroke.
fn put_stroke(out: &mut String, from: Place, to: Place, paint: Paint) -> Result<(), AllocError>
    ensures { OnOk result
        (string_bytes out.new ≡ string_bytes out.old ++ shape_text (shapes.Stroke from to paint)) }
{
    out.push_str("<line")?;
    put_paint(out, paint)?;
    put_place(out, "x1", "y1", from)?;
    put_place(out, "x2", "y2", to)?;
    out.push_str("/>\n")?;
    Ok(())
}

/// A place in a path, after a sign.
fn put_step(out: &mut String, sign: &str, place: Place) -> Result<(), AllocError>
    ensures { OnOk result
        (string_bytes out.new ≡ string_bytes out.old ++ (sign.now ++ place_text place)) }
{
    let across = place.across;
    let down = place.down;
    write!(out, "{sign}{across} {down}")?;
    Ok(())
}

/// The path of a bent stroke.
fn put_path(out: &mut String, from: Place, bend: Place, to: Place) -> Result<(), AllocError>
    ensures { OnOk result
        (string_bytes out.new ≡ string_bytes out.old ++ attribute_text (path_of from bend to)) }
{
    out.push_str(" d=\"")?;
    put_step(out, "M", from)?;
    put_step(out, "Q", bend)?;
    put_step(out, " ", to)?;
    out.push_str("\"")?;
    Ok(())
}

/// A bent stroke.
fn put_bow(
    out: &mut String,
    from: Place,
    bend: Place,
    to: Place,
    paint: Paint,
) -> Result<(), AllocError>
    ensures { OnOk result
        (string_bytes out.new
        ≡ string_bytes out.old ++ shape_text (shapes.Bow from bend to paint)) }
{
    out.push_str("<path")?;
    put_paint(out, paint)?;
    put_path(out, from, bend, to)?;
    out.push_str("/>\n")?;
    Ok(())
}

/// The attribute that lowers the line of letters, so that they are centred on their place.
#[tactic(auto, unfolding(crate::specs::Svg::attribute_text))]
fn put_lowered(out: &mut String) -> Result<(), AllocError>
    ensures { OnOk result
        (string_bytes out.new ≡ string_bytes out.old ++ attribute_text lowered) }
{
    out.push_str(" dy=\".35em\"")?;
    Ok(())
}

/// Words at a place.
fn put_text(out: &mut String, at: Place, words: &str, paint: Paint) -> Result<(), AllocError>
    ensures { OnOk result
        (string_bytes out.new
        ≡ string_bytes out.old ++ shape_text (shapes.Words at words.now paint)) }
{
    out.push_str("<text")?;
    put_paint(out, paint)?;
    put_place(out, "x", "y", at)?;
    put_lowered(out)?;
    out.push_str(">")?;
    put_words(out, words)?;
    out.push_str("</text>\n")?;
    Ok(())
}

/// A shape.
fn put_shape(out: &mut String, shape: &Shape) -> Result<(), AllocError>
    ensures { OnOk result (string_bytes out.new ≡ string_bytes out.old ++ shape_text shape.now) }
{
    match shape {
        Shape::Square {
            corner,
            side,
            paint,
        } => put_square(out, *corner, *side, *paint),
        Shape::Disc {
            centre,
            radius,
            paint,
        } => put_disc(out, *centre, *radius, *paint),
        Shape::Stroke { from, to, paint } => put_stroke(out, *from, *to, *paint),
        Shape::Bow {
            from,
            bend,
            to,
            paint,
        } => put_bow(out, *from, *bend, *to, *paint),
        Shape::Words { at, words, paint } => put_text(out, *at, words.as_str(), *paint),
    }
}

/// Shapes in order.
fn put_shapes(out: &mut String, shapes: &[Shape]) -> Result<(), AllocError>
    ensures { OnOk result
        (string_bytes out.new ≡ string_bytes out.old ++ flat_map shape_text shapes.now) }
{
    for shape in shapes {
        put_shape(out, shape)?;
    }
    Ok(())
}

/// The attribute that shifts shapes.
fn put_shift(out: &mut String, place: Place) -> Result<(), AllocError>
    ensures { OnOk result
        (string_bytes out.new ≡ string_bytes out.old ++ attribute_text (shift_of place)) }
{
    out.push_str(" transform=\"translate(")?;
    put_step(out, "", place)?;
    out.push_str(")\"")?;
    Ok(())
}

/// A copy of shapes, so far to the right and down.
fn put_copy(out: &mut String, shapes: &[Shape], place: Place) -> Result<(), AllocError>
    ensures { OnOk result
        (string_bytes out.new ≡ string_bytes out.old ++ copy_text shapes.now place) }
{
    out.push_str("<g")?;
    put_shift(out, place)?;
    out.push_str(">\n")?;
    put_shapes(out, shapes)?;
    out.push_str("</g>\n")?;
    Ok(())
}

/// Copies of shapes in order.
fn put_copies(out: &mut String, shapes: &[Shape], places: &[Place]) -> Result<(), AllocError>
    ensures { OnOk result
        (string_bytes out.new
        ≡ string_bytes out.old ++ flat_map (copy_text shapes.now) places.now) }
{
    for place in places {
        put_copy(out, shapes, *place)?;
    }
    Ok(())
}

/// The title, as it is shown by what shows the picture.
fn put_title(out: &mut String, title: &str) -> Result<(), AllocError>
    ensures { OnOk result
        (string_bytes out.new
        ≡ string_bytes out.old ++ filled (codes "title") [] (escaped title.now)) }
{
    out.push_str("<title>")?;
    put_words(out, title)?;
    out.push_str("</title>\n")?;
    Ok(())
}

/// The style sheet.
fn put_style(out: &mut String) -> Result<(), AllocError>
    ensures { OnOk result
        (string_bytes out.new ≡ string_bytes out.old ++ filled (codes "style") [] STYLE.now) }
{
    out.push_str("<style>")?;
    out.push_str(STYLE)?;
    out.push_str("</style>\n")?;
    Ok(())
}

/// The ground of all shapes.
fn put_ground(out: &mut String, width: u32, height: u32) -> Result<(), AllocError>
    ensures { OnOk result
        (string_bytes out.new ≡ string_bytes out.old ++ ground_text width height) }
{
    out.push_str("<rect class=\"ground\"")?;
    put_number(out, "width", width)?;
    put_number(out, "height", height)?;
    out.push_str("/>\n")?;
    Ok(())
}

/// How many pixels high a picture is shown, in proportion to how wide.
fn height_at(width: u32, height: u32, across: u32) -> u64
    ensures { result ≡ across * height / max width 1 }
{
    u64::from(across) * u64::from(height) / u64::from(width.max(1))
}

/// The attributes by which a picture is shown at a size, if there is one.
#[tactic(auto, unfolding(crate::specs::Svg::attribute_text))]
fn put_size(out: &mut String, width: u32, height: u32, size: Option<u32>) -> Result<(), AllocError>
    ensures { OnOk result
        (string_bytes out.new
        ≡ string_bytes out.old ++ flat_map attribute_text (size_attributes width height size)) }
{
    let Some(across) = size else {
        return Ok(());
    };
    let down = height_at(width, height, across);
    write!(out, " width=\"{across}\" height=\"{down}\"")?;
    Ok(())
}

/// The tag that opens a picture, but for its end.
fn put_head(out: &mut String, width: u32, height: u32, size: Option<u32>) -> Result<(), AllocError>
    ensures { OnOk result
        (string_bytes out.new ≡ string_bytes out.old ++ head width height size) }
{
    out.push_str("<svg xmlns=\"")?;
    out.push_str(NAME_SPACE)?;
    write!(out, "\" viewBox=\"0 0 {width} {height}\"")?;
    put_size(out, width, height, size)?;
    Ok(())
}

/// The text of a picture: SVG 1.1 in ASCII, a shape a line. A sign of its words that isn't
/// printable in ASCII becomes a question mark.
///
/// # Errors
///
/// `Memory` where no memory is found.
pub fn print_picture(alloc: Global, picture: &Picture) -> Result<String, Memory>
    ensures { IfOk result (λ text. string_bytes text ≡ picture_text picture.now) }
{
    let mut out = String::new(alloc);
    put_head(&mut out, picture.width, picture.height, picture.size)?;
    out.push_str(">\n")?;
    put_title(&mut out, picture.title.as_str())?;
    put_style(&mut out)?;
    put_ground(&mut out, picture.width, picture.height)?;
    let shapes = picture.shapes.as_slice();
    put_shapes(&mut out, shapes)?;
    put_copies(&mut out, shapes, picture.copies.as_slice())?;
    out.push_str("</svg>\n")?;
    Ok(out)
}
