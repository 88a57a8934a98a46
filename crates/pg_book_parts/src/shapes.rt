//! Pictures in pages.
ghost use Rattle.std.specs.Prelude.{◌≡◌, ◌++◌, ◌∷◌, [], IfOk, OnOk, codes, decimal, string_bytes};
ghost use Rattle.std.specs.List.{flat_map};
ghost use Rattle.pg_picture.specs.Svg.{class_name};
ghost use Rattle.pg_book_parts.specs.Pictures.{bent_pieces, bow_pieces, painted, shape_pieces};
ghost use Rattle.pg_book_parts.specs.Pictures.{stroke_pieces, view_text};
ghost use Rattle.pg_picture.specs.declared.shape.Shape.TheVariants.{Disc, Square, Words};

use crate::elements::push_labelled;
use pg_base::Memory;
use pg_page::{Attributes, LoneTag, Name, Piece, Tag};
use pg_picture::{Paint, Picture, Place, Shape, Text};
use pg_places::midway;
use std::alloc::{AllocError, Global};
use std::fmt::Write;

/// How high the room of a picture's title is.
pub const VIEW_TOP: u32 = 24;

/// How many hues and dashes pairs have.
const HUES: u8 = 8;

/// Adds the class of pairs with this hue and dash.
fn put_hue(out: &mut String, hue: u8) -> Result<(), AllocError>
    ensures { OnOk result
        (string_bytes out.new ≡ string_bytes out.old ++ (codes "pair-" ++ decimal hue)) }
{
    write!(out, "pair-{hue}")?;
    Ok(())
}

/// Adds the class of a paint.
#[tactic(auto, unfolding(pg_picture::specs::Svg::class_name))]
fn put_class(out: &mut String, paint: Paint) -> Result<(), AllocError>
    ensures { OnOk result (string_bytes out.new ≡ string_bytes out.old ++ class_name paint) }
{
    match paint {
        Paint::Free => out.push_str("free"),
        Paint::OfX => out.push_str("of-x"),
        Paint::OfY => out.push_str("of-y"),
        Paint::Terminal => out.push_str("terminal"),
        Paint::Vertex => out.push_str("vertex"),
        Paint::Line => out.push_str("line"),
        Paint::Edge => out.push_str("edge"),
        Paint::EdgeOfX => out.push_str("edge-of-x"),
        Paint::EdgeOfY => out.push_str("edge-of-y"),
        Paint::Pair(hue) => put_hue(out, hue % HUES),
        Paint::First => out.push_str("first"),
        Paint::Second => out.push_str("second"),
        Paint::Extra => out.push_str("extra"),
        Paint::Step => out.push_str("step"),
        Paint::Answer => out.push_str("answer"),
        Paint::Move => out.push_str("move"),
        Paint::Reply => out.push_str("reply"),
        Paint::Fault => out.push_str("fault"),
        Paint::Corner => out.push_str("corner"),
        Paint::Number => out.push_str("number"),
        Paint::Plate => out.push_str("plate"),
        Paint::Mark => out.push_str("mark"),
        Paint::Weight => out.push_str("weight"),
        Paint::Legend => out.push_str("legend"),
        Paint::Heading => out.push_str("heading"),
    }
}

/// The attribute that says how a shape is painted.
fn painted(alloc: Global, paint: Paint) -> Result<Attributes, Memory>
    ensures { IfOk result (λ attributes. attributes ≡ painted paint ∷ []) }
{
    let mut class = String::new(alloc);
    put_class(&mut class, paint)?;
    Attributes::none(alloc).text(Name::Class, Text::from_string(class))
}

/// Adds a stroke.
fn push_stroke(
    alloc: Global,
    pieces: &mut Vec<Piece>,
    from: Place,
    to: Place,
    paint: Paint,
) -> Result<(), Memory>
    ensures { OnOk result (pieces.new.items ≡ pieces.old.items ++ stroke_pieces from to paint) }
{
    let begun = painted(alloc, paint)?
        .number(alloc, Name::X1, from.across)?
        .number(alloc, Name::Y1, from.down)?;
    let attributes = begun
        .number(alloc, Name::X2, to.across)?
        .number(alloc, Name::Y2, to.down)?;
    let tag = LoneTag::Line;
    pieces.push(Piece::Lone { tag, attributes })?;
    Ok(())
}

/// Adds a square.
#[tactic(auto, unfolding(crate::specs::Pictures::shape_pieces))]
fn push_square(
    alloc: Global,
    pieces: &mut Vec<Piece>,
    corner: Place,
    side: u32,
    paint: Paint,
) -> Result<(), Memory>
    ensures { OnOk result
        (pieces.new.items ≡ pieces.old.items ++ shape_pieces (Square corner side paint)) }
{
    let placed = painted(alloc, paint)?
        .number(alloc, Name::X, corner.across)?
        .number(alloc, Name::Y, corner.down)?;
    let attributes = placed
        .number(alloc, Name::Width, side)?
        .number(alloc, Name::Height, side)?;
    let tag = LoneTag::Rect;
    pieces.push(Piece::Lone { tag, attributes })?;
    Ok(())
}

/// Adds a disc.
#[tactic(auto, unfolding(crate::specs::Pictures::shape_pieces))]
fn push_disc(
    alloc: Global,
    pieces: &mut Vec<Piece>,
    centre: Place,
    radius: u32,
    paint: Paint,
) -> Result<(), Memory>
    ensures { OnOk result
        (pieces.new.items ≡ pieces.old.items ++ shape_pieces (Disc centre radius paint)) }
{
    let attributes = painted(alloc, paint)?
        .number(alloc, Name::Cx, centre.across)?
        .number(alloc, Name::Cy, centre.down)?
        .number(alloc, Name::R, radius)?;
    let tag = LoneTag::Circle;
    pieces.push(Piece::Lone { tag, attributes })?;
    Ok(())
}

/// Adds a part of a bow as two strokes that meet on its curve.
fn push_bent(
    alloc: Global,
    pieces: &mut Vec<Piece>,
    from: Place,
    bend: Place,
    to: Place,
    paint: Paint,
) -> Result<(), Memory>
    ensures { OnOk result (pieces.new.items ≡ pieces.old.items ++ bent_pieces from bend to paint) }
{
    let on = midway(midway(from, bend), midway(bend, to));
    push_stroke(alloc, pieces, from, on, paint)?;
    push_stroke(alloc, pieces, on, to, paint)
}

/// Adds a bow as four strokes.
fn push_bow(
    alloc: Global,
    pieces: &mut Vec<Piece>,
    from: Place,
    bend: Place,
    to: Place,
    paint: Paint,
) -> Result<(), Memory>
    ensures { OnOk result (pieces.new.items ≡ pieces.old.items ++ bow_pieces from bend to paint) }
{
    let near = midway(from, bend);
    let far = midway(bend, to);
    let middle = midway(near, far);
    push_bent(alloc, pieces, from, near, middle, paint)?;
    push_bent(alloc, pieces, middle, far, to, paint)
}

/// Adds words in a picture.
#[tactic(auto, unfolding(crate::specs::Pictures::shape_pieces))]
fn push_text(
    alloc: Global,
    pieces: &mut Vec<Piece>,
    place: Place,
    words: &str,
    paint: Paint,
) -> Result<(), Memory>
    ensures { OnOk result
        (pieces.new.items ≡ pieces.old.items ++ shape_pieces (Words place words.now paint)) }
{
    let attributes = painted(alloc, paint)?
        .number(alloc, Name::X, place.across)?
        .number(alloc, Name::Y, place.down)?;
    push_labelled(alloc, pieces, Tag::Text, attributes, words)
}

/// Adds a shape.
#[tactic(auto, unfolding(crate::specs::Pictures::shape_pieces))]
fn push_shape(alloc: Global, pieces: &mut Vec<Piece>, shape: &Shape) -> Result<(), Memory>
    ensures { OnOk result (pieces.new.items ≡ pieces.old.items ++ shape_pieces shape.now) }
{
    match shape {
        Shape::Square {
            corner,
            side,
            paint,
        } => push_square(alloc, pieces, *corner, *side, *paint),
        Shape::Disc {
            centre,
            radius,
            paint,
        } => push_disc(alloc, pieces, *centre, *radius, *paint),
        Shape::Stroke { from, to, paint } => push_stroke(alloc, pieces, *from, *to, *paint),
        Shape::Bow {
            from,
            bend,
            to,
            paint,
        } => push_bow(alloc, pieces, *from, *bend, *to, *paint),
        Shape::Words { at, words, paint } => {
            push_text(alloc, pieces, *at, words.as_str(), *paint)
        }
    }
}

/// Adds shapes in order. An error means that memory ran out.
pub fn push_shapes(alloc: Global, pieces: &mut Vec<Piece>, shapes: &[Shape]) -> Result<(), Memory>
    ensures { OnOk result
        (pieces.new.items ≡ pieces.old.items ++ flat_map shape_pieces shapes.now) }
{
    for shape in shapes {
        push_shape(alloc, pieces, shape)?;
    }
    Ok(())
}

/// Returns the part of the plane that a page shows of a picture, but for the room of its title. An
/// error means that memory ran out.
pub fn view_of(alloc: Global, picture: &Picture) -> Result<Text, Memory>
    ensures { IfOk result (λ text. text ≡ view_text picture.now) }
{
    let width = picture.width;
    let height = picture.height.saturating_sub(VIEW_TOP);
    Ok(Text::from_string(format!(in alloc; "0 {VIEW_TOP} {width} {height}")?))
}
