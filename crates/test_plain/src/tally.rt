//! How many games each side wins.
use crate::families::{Family, choices, chosen, marks_of};
use crate::plain::{class_by_plays, passing};
use crate::switching::add_switching;
use crate::told::{span_told, text_of, vectors_told};
use pg_base::Memory;
use pg_plain::Class;
use std::alloc::Global;

/// How many games there are of each class by plain search, and how many get another answer, or have
/// a certificate that isn't accepted, or aren't read.
#[derive(Drop)]
pub(crate) struct Tally {
    /// X's, whoever moves.
    pub(crate) x: u32,
    /// Y's, whoever moves.
    pub(crate) y: u32,
    /// The mover's.
    pub(crate) first: u32,
    /// How many get another answer.
    pub(crate) faults: u32,
}

impl Tally {
    /// Adds a game by its class as plain search finds it, and by the answer that it got.
    pub(crate) fn add(&mut self, plain: Option<Class>, told: Option<Class>) {
        match plain {
            Some(Class::Short) => self.x = self.x.saturating_add(1),
            Some(Class::Cut) => self.y = self.y.saturating_add(1),
            Some(Class::First) => self.first = self.first.saturating_add(1),
            None => self.faults = self.faults.saturating_add(1),
        }
        if told != plain {
            self.faults = self.faults.saturating_add(1);
        }
    }
}

/// Adds the games on a list of edges or vectors, at the marks below a number.
fn add_list(
    alloc: Global,
    family: Family,
    points: u16,
    list: &[u32],
    marks: u32,
    tally: &mut Tally,
) -> Result<(), Memory> {
    let passing = passing(family, list);
    for number in 0..marks {
        let (x, y) = marks_of(points, number);
        if let Family::Switching { vertices } = family {
            add_switching(alloc, vertices, list, (x, y), tally)?;
        } else {
            let text = text_of(alloc, family, list, x, y)?;
            let told = match family {
                Family::Vectors { .. } => vectors_told(alloc, text.as_str())?,
                _ => span_told(alloc, text.as_str())?,
            };
            tally.add(class_by_plays(passing, points, x, y), told);
        }
    }
    Ok(())
}

/// A power of a number, or the greatest number where that is beyond it.
fn power(base: u32, exponent: u16) -> u32 {
    let mut power = 1u32;
    for _ in 0..exponent {
        power = power.saturating_mul(base);
    }
    power
}

/// Adds the games of a family with so many edges or vectors, loops, parallel edges and repeated
/// vectors among them: at all marks, or at none.
pub(crate) fn add_games(
    alloc: Global,
    family: Family,
    points: u16,
    are_marked: bool,
    tally: &mut Tally,
) -> Result<(), Memory> {
    let choices = choices(family);
    let marks = if are_marked { power(3, points) } else { 1 };
    for number in 0..power(choices, points) {
        if let Some(list) = chosen(alloc, choices, points, number)? {
            add_list(alloc, family, points, list.as_slice(), marks, tally)?;
        }
    }
    Ok(())
}
