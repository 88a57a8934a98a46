//! Words in pictures.
ghost use Rattle.std.specs.Prelude.{◌≡◌, ◌++◌, ◌∷◌, [], OnOk, IfOk, decimal};
ghost use Rattle.pg_picture.specs.declared.paint.Paint.TheVariants as paints;
ghost use Rattle.pg_picture.specs.declared.shape.Shape.TheVariants.{Disc, Words};
ghost use Rattle.pg_draw.specs.Shapes.{note_shapes, number_if};

use crate::measures::PLATE_RADIUS;
use pg_base::Memory;
use pg_picture::{Paint, Place, Shape, Text};
use std::alloc::Global;

/// A text of these words.
pub(crate) fn text_of(alloc: Global, words: &str) -> Result<Text, Memory>
    ensures { IfOk result (λ text. text ≡ words.now) }
{
    let mut copied = String::new(alloc);
    copied.push_str(words)?;
    Ok(Text::from_string(copied))
}

/// Adds words.
pub(crate) fn push_words(
    alloc: Global,
    shapes: &mut Vec<Shape>,
    at: Place,
    words: &str,
    paint: Paint,
) -> Result<(), Memory>
    ensures { OnOk result (shapes.new.items ≡ shapes.old.items ++ Words at words.now paint ∷ []) }
{
    let words = text_of(alloc, words)?;
    shapes.push(Shape::Words { at, words, paint })?;
    Ok(())
}

/// Adds a number.
pub(crate) fn push_number(
    alloc: Global,
    shapes: &mut Vec<Shape>,
    at: Place,
    number: usize,
    paint: Paint,
) -> Result<(), Memory>
    ensures { OnOk result
        (shapes.new.items ≡ shapes.old.items ++ Words at (decimal number) paint ∷ []) }
{
    let words = Text::from_string(format!(in alloc; "{number}")?);
    shapes.push(Shape::Words { at, words, paint })?;
    Ok(())
}

/// Adds a number, if there are to be numbers.
pub(crate) fn push_number_if(
    alloc: Global,
    shapes: &mut Vec<Shape>,
    numbers: bool,
    at: Place,
    number: usize,
) -> Result<(), Memory>
    ensures { OnOk result (shapes.new.items ≡ shapes.old.items ++ number_if numbers at number) }
{
    if numbers {
        push_number(alloc, shapes, at, number, Paint::Number)?;
    }
    Ok(())
}

/// Adds the ground of words.
pub(crate) fn push_plate(shapes: &mut Vec<Shape>, centre: Place, radius: u32) -> Result<(), Memory>
    ensures { OnOk result
        (shapes.new.items ≡ shapes.old.items ++ Disc centre radius paints.Plate ∷ []) }
{
    let paint = Paint::Plate;
    shapes.push(Shape::Disc {
        centre,
        radius,
        paint,
    })?;
    Ok(())
}

/// Adds words on a ground of their own.
#[tactic(auto, unfolding(crate::specs::Shapes::note_shapes))]
pub(crate) fn push_note(
    alloc: Global,
    shapes: &mut Vec<Shape>,
    at: Place,
    words: &str,
    paint: Paint,
) -> Result<(), Memory>
    ensures { OnOk result
        (shapes.new.items ≡ shapes.old.items ++ note_shapes at words.now paint) }
{
    push_plate(shapes, at, PLATE_RADIUS)?;
    push_words(alloc, shapes, at, words, paint)
}

/// Adds a number on a ground of its own.
#[tactic(auto, unfolding(crate::specs::Shapes::note_shapes))]
pub(crate) fn push_number_note(
    alloc: Global,
    shapes: &mut Vec<Shape>,
    at: Place,
    number: usize,
    paint: Paint,
) -> Result<(), Memory>
    ensures { OnOk result
        (shapes.new.items ≡ shapes.old.items ++ note_shapes at (decimal number) paint) }
{
    push_plate(shapes, at, PLATE_RADIUS)?;
    push_number(alloc, shapes, at, number, paint)
}
