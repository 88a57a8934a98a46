//! Switching games: the class by two forests beside the one by plain search of `pg_plain`.
use crate::families::ends_of;
use crate::tally::Tally;
use pg_base::{Kind, Memory, PointSet, Side};
use pg_game::{Field, Game, Judge};
use pg_graph::{Ends, Graph};
use pg_lehman::classify;
use pg_plain::{Class, class_of};
use std::alloc::Global;

/// The set whose members are the binary digits of a number.
fn set_of(digits: u32) -> PointSet {
    let mut set = PointSet::empty();
    for v in 0..16u16 {
        if digits >> v & 1 == 1 {
            set.put(v);
        }
    }
    set
}

/// Adds a game by both.
fn compare(alloc: Global, g: &Game, tally: &mut Tally) -> Result<(), Memory> {
    if g.kind != Kind::Switching {
        tally.add(None, None);
        return Ok(());
    }
    let mut judge = Judge::new(alloc, g)?;
    let plain = class_of(&mut judge, g);
    let told = match classify(alloc, g)? {
        pg_lehman::Class::Short { .. } => Class::Short,
        pg_lehman::Class::Cut { .. } => Class::Cut,
        pg_lehman::Class::First { .. } => Class::First,
    };
    tally.add(plain, Some(told));
    Ok(())
}

/// Adds the game on a list of edges with the terminals 0 and 1, at X's and Y's marks.
pub(crate) fn add_switching(
    alloc: Global,
    vertices: u16,
    list: &[u32],
    marks: (u32, u32),
    tally: &mut Tally,
) -> Result<(), Memory> {
    let mut ends = Vec::new(alloc);
    for number in list {
        ends.push(ends_of(*number))?;
    }
    let field = Field::Graph(Graph {
        vertices,
        s: 0,
        t: 1,
        ends: Ends::from_vec(ends),
    });
    let (x, y) = (set_of(marks.0), set_of(marks.1));
    match Game::new(Kind::Switching, field, x, y, Side::X, 1) {
        Ok(g) => compare(alloc, &g, tally),
        Err(_) => {
            tally.add(None, None);
            Ok(())
        }
    }
}
