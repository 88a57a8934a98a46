//! What is asked at a position: the lines that are meant.
ghost use Rattle.std.specs.Prelude.{◌≡◌, ◌<◌, ◌≤◌, not, IfOk, length, map};
ghost use Rattle.pg_match.specs.Prelude.{All, AllPairs, filter, is_touched};
ghost use Rattle.pg_match.specs.Private.{line_at, CanMatch};

use pg_base::{Lines, MAX_MEMBERS, Memory, PointSet};
use pg_game::MAX_LINES;
use std::alloc::Global;

/// The numbers of the lines without a point of the set, ascending.
///
/// # Errors
///
/// `Memory` where no memory is found.
pub fn lines_without(alloc: Global, lines: &Lines, own: &PointSet) -> Result<Vec<u32>, Memory>
    requires few { length lines.now ≤ MAX_LINES }
    requires points { All (All (λ v. v < MAX_MEMBERS)) lines.now }
    ensures lines { IfOk result (λ wanted. map (line_at lines.now) wanted.items
        ≡ filter (λ line. not (is_touched own.now line)) lines.now) }
    ensures ascending { IfOk result (λ wanted. AllPairs (λ i j. i < j) wanted.items) }
    ensures can { IfOk result (λ wanted. CanMatch lines.now wanted.items) }
{
    let lines = lines.as_slice();
    let mut wanted = Vec::new(alloc);
    for j in 0..lines.len() {
        if !own.meets(lines[j].as_slice()) {
            wanted.push(j as u32)?;
        }
    }
    Ok(wanted)
}
