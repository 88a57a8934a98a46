//! The moves of a position.

use crate::outlook::Outlook;
use crate::signature::{Signature, Signatures};
use crate::survey::Survey;
use crate::table::Table;
use pg_base::{Memory, Side};
use pg_game::Position;
use std::alloc::Global;

/// A move to a free point.
#[derive(Clone, Copy, Debug)]
pub struct Move {
    /// The point.
    pub point: u8,
    /// The signature of the position after it.
    pub key: Signature,
}

/// A position with its moves, by ascending points.
#[derive(Debug, Drop)]
pub struct Moves<'a> {
    /// The side to move.
    pub turn: Side,
    /// The signature of the position.
    pub key: Signature,
    /// The moves.
    pub each: Vec<Move>,
    outlook: Outlook<'a>,
}

impl<'a> Moves<'a> {
    /// Returns the moves of a side at a position, whose signature is `key`.
    fn of(
        alloc: Global,
        outlook: Outlook<'a>,
        key: Signature,
        turn: Side,
    ) -> Result<Moves<'a>, Memory> {
        let mut each = Vec::new(alloc);
        for point in outlook.free() {
            let key = outlook.signature_after(turn, point);
            each.push(Move { point, key })?;
        }
        Ok(Moves {
            turn,
            key,
            each,
            outlook,
        })
    }

    /// Returns the moves of a position.
    ///
    /// # Errors
    ///
    /// `Memory` if an allocation fails.
    pub fn at(
        alloc: Global,
        signatures: &'a Signatures,
        p: &Position,
    ) -> Result<Moves<'a>, Memory> {
        let outlook = Outlook::new(signatures, p);
        let key = outlook.signature();
        Moves::of(alloc, outlook, key, p.turn)
    }

    /// Returns the moves of the position after one of these, at which `turn` is to move.
    ///
    /// # Errors
    ///
    /// `Memory` if an allocation fails.
    pub fn after(&self, alloc: Global, to: &Move, turn: Side) -> Result<Moves<'a>, Memory> {
        let outlook = self.outlook.after(self.turn, to.point);
        Moves::of(alloc, outlook, to.key, turn)
    }

    /// Returns what those of the moves tell that were met.
    pub fn survey(&self, table: &Table) -> Survey {
        let mut survey = Survey::new(self.turn);
        for to in &self.each {
            if let Some(numbers) = table.find(&to.key) {
                survey.put(to, &numbers);
            }
        }
        survey
    }
}

/// Returns what those of the position's moves tell that were met.
pub fn survey_at(signatures: &Signatures, p: &Position, table: &Table) -> Survey {
    let outlook = Outlook::new(signatures, p);
    let mut survey = Survey::new(p.turn);
    for point in outlook.free() {
        let key = outlook.signature_after(p.turn, point);
        if let Some(numbers) = table.find(&key) {
            survey.put(&Move { point, key }, &numbers);
        }
    }
    survey
}
