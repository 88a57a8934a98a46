//! The node of which another is the image.
ghost use Rattle.std.specs.Prelude.{◌≡◌, IfOk};
ghost use Rattle.pg_fold.specs.Prelude.{get, All, Grid, equal_positions, image_of, reverse_of};
ghost use Rattle.pg_fold.specs.Prelude.{image_position};
ghost use Rattle.pg_fold.specs.Codes.{IsKnown};
ghost use Rattle.pg_fold.specs.Places.{IsEarliest, earlier};
ghost use Rattle.pg_fold.specs.Tables.{AreOrdered, IsTable, maps_of};

use crate::known::Known;
use crate::marks::marks_of;
use crate::tables::MapTable;
use pg_base::Memory;
use pg_game::Position;
use pg_maps::GridMap;
use std::alloc::Global;

/// The node of which another is the image, and the map that takes its position to the other's.
#[derive(Clone, Copy, Debug, PartialEq, Eq)]
pub(crate) struct Original {
    pub(crate) node: u32,
    pub(crate) map: GridMap,
}

/// The first of the known nodes of whose position one of the maps makes this one, with the map of
/// the lowest number that does.
pub(crate) fn original_of(
    alloc: Global,
    tables: &[MapTable],
    known: &Known,
    position: &Position,
) -> Result<Option<Original>, Memory>
    requires ordered { AreOrdered tables.now }
    requires known { IsKnown known.now }
    ensures { IfOk result (λ first. (grid : Grid) → All (IsTable grid) tables.now
        → IsEarliest (get equal_positions known.now.places) (λ m.
        image_position (image_of (reverse_of m) grid) position.now) (maps_of tables.now) first) }
{
    let marks = marks_of(alloc, position)?;
    let mut first = None;
    for table in tables {
        let node = known.find(&table.source_of(&marks, position));
        first = earlier(first, node, table.map);
    }
    Ok(first)
}

/// What was found first, unless the node that was found next, under the map, is earlier.
fn earlier(first: Option<Original>, next: Option<u32>, map: GridMap) -> Option<Original>
    ensures { result ≡ earlier first next map }
{
    let Some(node) = next else {
        return first;
    };
    if let Some(original) = first {
        if original.node <= node {
            return first;
        }
    }
    Some(Original { node, map })
}
