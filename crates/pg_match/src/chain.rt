//! The search for an alternating chain, which gives the next seat a point.
ghost use Rattle.std.specs.Prelude.{◌≡◌, false, IsTrue, IfSome, ℕ, ◌+◌, ◌*◌, ◌/◌, ◌<◌, ◌≤◌, []};
ghost use Rattle.std.specs.Prelude.{◌∷◌, ◌++◌, length, map, slice_get, slice_index, IfOk, OnOk};
ghost use Rattle.std.specs.Prelude.{Option, if◌then◌else◌};
ghost use Rattle.std.specs.List.{All};
ghost use Rattle.std.specs.FinSet as set;
ghost use Rattle.pg_match.specs.Private.{line_at, CanMatch, IsShort};
ghost use Rattle.pg_match.specs.declared.seats.Step.{Step};
ghost use Rattle.pg_match.specs.Chains.{may_have, place_of, IsSeated, IsTaken, CanShift, Meets};
ghost use Rattle.pg_match.specs.Chains.{IsSearch, Grows, AreScannedAt, AreScanned};

use crate::seats::{Seats, Step};
use pg_base::{Line, MAX_MEMBERS, Memory, PointSet};
use std::alloc::Global;

/// The seats that were reached from the next one, in order, and the places of their lines among the
/// wanted ones.
#[derive(Debug, Drop)]
pub(crate) struct Chain {
    pub(crate) steps: Vec<Step>,
    pub(crate) entered: PointSet,
}

/// The end of a chain: a point that no seat holds, and the step whose line may have it.
#[derive(Clone, Copy, Debug)]
pub(crate) struct End {
    pub(crate) step: usize,
    pub(crate) point: u16,
}

/// The wanted line at a place.
fn line_of<'a>(lines: &'a [Line], wanted: &[u32], place: u16) -> &'a Line
    requires place { place < length wanted.now }
    requires range { All (λ j. j < length lines.now) wanted.now }
    ensures { result.now ≡ line_at lines.now (slice_index wanted.now place) }
{
    &lines[wanted[place as usize] as usize]
}

impl Chain {
    /// No step yet.
    pub(crate) fn new(alloc: Global) -> Chain {
        Chain {
            steps: Vec::new(alloc),
            entered: PointSet::empty(),
        }
    }

    /// Forgets all steps and starts from the seat.
    fn start(&mut self, seat: u16) -> Result<(), Memory>
        requires { seat < MAX_MEMBERS }
        ensures steps { OnOk result
            (self.new.steps.items ≡ record { seat = seat; parent = 0 } ∷ []) }
        ensures entered { OnOk result (self.new.entered ≡ set.insert set.empty (seat / 2)) }
    {
        self.steps.clear();
        self.entered = PointSet::empty();
        self.enter(seat, 0)
    }

    /// Adds a step to the seat, unless its line was entered before.
    fn enter(&mut self, seat: u16, parent: usize) -> Result<(), Memory>
        requires { seat < MAX_MEMBERS }
        ensures steps { OnOk result
            (self.new.steps.items ≡ (if set.contains self.old.entered (seat / 2)
            then self.old.steps.items
            else self.old.steps.items ++ record { seat = seat; parent = parent } ∷ [])) }
        ensures entered { OnOk result
            (self.new.entered ≡ (if set.contains self.old.entered (seat / 2)
            then self.old.entered
            else set.insert self.old.entered (seat / 2))) }
    {
        if self.entered.has(seat / 2) {
            return Ok(());
        }
        self.steps.push(Step { seat, parent })?;
        self.entered.put(seat / 2);
        Ok(())
    }
}

impl Chain {
    /// Meets a point that the line of the step at a place may have: enters the seat that holds it.
    /// Tells whether none holds it.
    fn meet(&mut self, seats: &Seats, at: usize, v: u16) -> Result<bool, Memory>
        requires point { v < length seats.now.seat_of.items }
        requires seats { (s : ℕ) → slice_get seats.now.seat_of.items v ≡ Some (Some s)
            → s < MAX_MEMBERS }
        ensures vacant { IfOk result
            (λ ends. IsTrue ends → slice_get seats.now.seat_of.items v ≡ Some None) }
        ensures taken { IfOk result
            (λ ends. ends ≡ false → IsTaken seats.now.seat_of.items self.new.entered v) }
        ensures grows { OnOk result (Meets seats.now.seat_of.items at v self.old self.new) }
    {
        match seats.seat_of[v as usize] {
            None => Ok(true),
            Some(seat) => {
                self.enter(seat, at)?;
                Ok(false)
            }
        }
    }

    /// Meets each point that the line of the step at a place may have, up to one that no seat
    /// holds.
    fn scan(
        &mut self,
        lines: &[Line],
        wanted: &[u32],
        free: &PointSet,
        seats: &Seats,
        at: usize,
    ) -> Result<Option<u16>, Memory>
        requires search { IsSearch lines.now wanted.now free.now seats.now self.old }
        requires step { at < length self.old.steps.items }
        ensures grows { OnOk result
            (Grows (may_have lines.now wanted.now free.now) seats.now.held.items
            self.old.steps.items self.old.entered self.new.steps.items self.new.entered) }
        ensures scanned { IfOk result (λ found. found ≡ None
            → AreScannedAt (may_have lines.now wanted.now free.now) seats.now.seat_of.items
            self.old.steps.items self.new.entered at) }
        ensures end { IfOk result (λ found. IfSome found
            (CanShift (may_have lines.now wanted.now free.now) seats.now.held.items
            seats.now.seat_of.items self.new.steps.items at)) }
    {
        let line = line_of(lines, wanted, self.steps[at].seat / 2);
        for v in line.as_slice() {
            if free.has(*v) {
                if self.meet(seats, at, *v)? {
                    return Ok(Some(*v));
                }
            }
        }
        Ok(None)
    }

    /// Finds the end of a chain, or enters all that can be reached.
    fn find(
        &mut self,
        lines: &[Line],
        wanted: &[u32],
        free: &PointSet,
        seats: &Seats,
    ) -> Result<Option<End>, Memory>
        requires search { IsSearch lines.now wanted.now free.now seats.now self.old }
        ensures search { OnOk result (IsSearch lines.now wanted.now free.now seats.now self.new) }
        ensures scanned { IfOk result (λ found. found ≡ None
            → AreScanned (may_have lines.now wanted.now free.now) seats.now.seat_of.items
            self.new.steps.items self.new.entered (length self.new.steps.items)) }
        ensures end { IfOk result
            (λ found. IfSome found (λ end. CanShift (may_have lines.now wanted.now free.now)
            seats.now.held.items seats.now.seat_of.items self.new.steps.items end.step end.point)) }
    {
        let mut at = 0;
        while at < self.steps.len() {
            if let Some(point) = self.scan(lines, wanted, free, seats, at)? {
                return Ok(Some(End { step: at, point }));
            }
            at += 1;
        }
        Ok(None)
    }

    /// The lines that were entered.
    fn family(&self, alloc: Global, wanted: &[u32]) -> Result<Vec<u32>, Memory>
        requires { (k : ℕ) → (step : Step) → slice_get self.now.steps.items k ≡ Some step
            → place_of step < length wanted.now }
        ensures { IfOk result (λ family. family.items
            ≡ map (λ step. slice_index wanted.now (place_of step)) self.now.steps.items) }
    {
        let mut family = Vec::with_capacity(alloc, self.steps.len())?;
        for step in &self.steps {
            family.push(wanted[(step.seat / 2) as usize])?;
        }
        Ok(family)
    }

    /// Gives the next seat a point, or finds lines that hold too few.
    pub(crate) fn give_next(
        &mut self,
        alloc: Global,
        lines: &[Line],
        wanted: &[u32],
        free: &PointSet,
        seats: &mut Seats,
    ) -> Result<Option<Vec<u32>>, Memory>
        requires can { CanMatch lines.now wanted.now }
        requires few { length wanted.now ≤ 512 }
        requires room { length seats.old.held.items < 2 * length wanted.now }
        requires seated { IsSeated (may_have lines.now wanted.now free.now) seats.old.held.items
            seats.old.seat_of.items }
        ensures seated { IfOk result (λ family. family ≡ None
            → IsSeated (may_have lines.now wanted.now free.now) seats.new.held.items
            seats.new.seat_of.items) }
        ensures more { IfOk result (λ family. family ≡ None
            → length seats.new.held.items ≡ length seats.old.held.items + 1) }
        ensures short { IfOk result
            (λ family. IfSome family (λ short. IsShort lines.now wanted.now free.now short.items)) }
    {
        self.start(seats.held.len() as u16)?;
        match self.find(lines, wanted, free, seats)? {
            Some(end) => {
                seats.shift(&self.steps, end.step, end.point)?;
                Ok(None)
            }
            None => Ok(Some(self.family(alloc, wanted)?)),
        }
    }
}
