//! The search beside the plain program, which tells whether the expanded positions settle the
//! question.
use crate::expanding::found;
use pg_base::Score;
use pg_game::{Game, Judge};
use pg_plain::settled;
use pg_pns::{Found, Work};
use std::alloc::Global;

/// The most positions with which a game is searched.
const MOST: u32 = 24;

/// Whether X wins as far as the expanded positions settle it by the plain program, and none within
/// where they don't.
fn known(alloc: Global, g: &Game, work: &Work) -> Option<Option<bool>> {
    let mut table = Vec::new(alloc);
    for i in 0..work.positions() {
        table.push(work.position(i)).ok()?;
    }
    let mut judge = Judge::new(alloc, g).ok()?;
    Some(settled(&mut judge, g, Score::XWins, table.as_slice(), &g.start()))
}

/// Whether the search and the plain program say the same with so many positions, and whether they
/// leave it open whether X wins.
fn agree(alloc: Global, g: &Game, positions: u32, work: &mut Work) -> Option<(bool, bool)> {
    let found = found(alloc, g, positions, work)?;
    let known = known(alloc, g, work)?;
    let same = match found {
        Found::Yes(_claim) => known == Some(true),
        Found::No(_claim) => known == Some(false),
        Found::Unknown => known.is_none(),
    };
    Some((same, known.is_none()))
}

/// Whether both say the same with each number of positions, leave it open with few whether X wins,
/// and answer with more.
pub(crate) fn is_settled(alloc: Global, g: &Game, work: &mut Work) -> Option<bool> {
    let (mut open, mut answered) = (0u32, 0u32);
    for positions in 1..MOST + 1 {
        let (same, is_open) = agree(alloc, g, positions, work)?;
        if !same || is_open && answered > 0 {
            return Some(false);
        }
        open = open.saturating_add(u32::from(is_open));
        answered = answered.saturating_add(u32::from(!is_open));
    }
    Some(open > 0 && answered > 0)
}
