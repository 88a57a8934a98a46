//! What is known of each position of a plan by itself.
ghost use Rattle.pg_join.specs.Pieces.{IsFound};

use crate::folder::{Folder, Found};
use crate::pieces::said_of;
use pg_backing::{Lack, Own, decided, is_position};
use pg_base::Memory;
use pg_game::{Game, Position};
use pg_io::Files;
use pg_plan::Place;
use pg_sessions::stand_at;
use std::alloc::Global;

/// Returns what a certificate makes known that was found for the game's position.
fn own_by(alloc: Global, game: &Game, found: &Found) -> Result<Own, Memory>
    requires { IsFound found.now }
{
    match found {
        Found::Missing => Ok(Own::Lacks(Lack::Missing)),
        Found::Faulty => Ok(Own::Lacks(Lack::Faulty)),
        Found::Certificate(certificate) => match said_of(alloc, game, certificate)? {
            Some(span) => Ok(Own::Says(span)),
            None => Ok(Own::Lacks(Lack::Foreign)),
        },
    }
}

/// Returns what the certificate of this number makes known of a position at the beginning of a
/// turn. `there` is the game at any position, and is set to this one.
fn piece_at<F: Files + Drop>(
    alloc: Global,
    there: &mut Game,
    position: &Position,
    file: u32,
    folder: &mut Folder<'_, F>,
) -> Result<Own, Memory> {
    if !is_position(there, position) || position.left != there.bias_of(position.turn) {
        return Ok(Own::Nothing);
    }
    stand_at(there, position);
    let found = folder.certificate(alloc, there, file)?;
    own_by(alloc, there, &found)
}

/// Returns what is known of a position by itself.
fn own_at<F: Files + Drop>(
    alloc: Global,
    there: &mut Game,
    place: &Place,
    position: Option<Position>,
    folder: &mut Folder<'_, F>,
) -> Result<Own, Memory> {
    let Some(position) = position else {
        return Ok(Own::Nothing);
    };
    match place {
        Place::Decided => {
            let span = decided(alloc, there, &position)?;
            Ok(Own::Says(span))
        }
        Place::Game { file, .. } => piece_at(alloc, there, &position, *file, folder),
        Place::Image { .. } | Place::Moves(_) => Ok(Own::Nothing),
    }
}

/// Returns what is known of each position by itself. Each certificate is read, judged and dropped.
/// `there` is the game at any position, and is left at another.
pub(crate) fn survey<F: Files + Drop>(
    alloc: Global,
    there: &mut Game,
    plan: &[Place],
    positions: &[Option<Position>],
    folder: &mut Folder<'_, F>,
) -> Result<Vec<Own>, Memory> {
    let mut own = Vec::with_capacity(alloc, plan.len())?;
    for i in 0..plan.len().min(positions.len()) {
        let next = own_at(alloc, there, &plan[i], positions[i], folder)?;
        own.push(next)?;
    }
    Ok(own)
}
