//! Expands positions: what is known before their moves are searched.
ghost use Rattle.std.specs.Prelude.{◌≡◌};
ghost use Rattle.pg_patterns.specs.Known.{limits_of};

use crate::combining::{all_pattern, move_pattern};
use crate::finder::{Finder, Manner, THREAT_STEPS, by_threat};
use crate::numbers::{first_numbers, quarters};
use pg_base::{Memory, Side};
use pg_patterns::{
    Arena, Image, Known, Numbers, Spot, Undecided, heaviest_first, total_weight, weigh,
};
use std::alloc::Global;

/// The most patterns that are looked up after a pass.
const MOST_FOUND: usize = 24;

/// The number of Breaker's moves that are tried after a pass of Maker.
const MOST_TRIED: usize = 3;

/// The most moves that are judged when a position is expanded.
const MOST_JUDGED: usize = 8;

/// The most taken points with which the symmetries of a position serve.
const FEW_TAKEN: u32 = 4;

/// The outcome of expanding a position.
#[derive(Debug, Drop)]
pub(crate) enum Expanded {
    /// The pattern of this number decides it.
    Decided(u32),
    /// It isn't decided.
    Undecided(Undecided),
}

/// Learns that a pattern of the waiter, who is to move in it, answers all moves outside its zone.
fn learn(arena: &Arena, known: &Known, image: Image, going: &mut Undecided) -> Result<(), Memory> {
    if let Some((_held, zone)) = known.parts(arena, image) {
        if !going.must.is_subset(zone) {
            going.answers.push(image)?;
            going.must = going.must.common(zone);
        }
    }
    Ok(())
}

/// Learns the pattern and, if few points are taken, its images under the maps that keep the
/// position.
pub(crate) fn learn_all(
    alloc: Global,
    arena: &Arena,
    known: &Known,
    spot: &Spot,
    pattern: u32,
    going: &mut Undecided,
) -> Result<(), Memory> {
    learn(arena, known, Image { pattern, map: 0 }, going)?;
    if spot.taken().len() > FEW_TAKEN {
        return Ok(());
    }
    let maps = arena.maps.keeping(alloc, spot)?;
    for map in &maps {
        learn(arena, known, Image { pattern, map: *map }, going)?;
    }
    Ok(())
}

/// Returns the position after a pass.
fn passed(spot: &Spot) -> Spot {
    Spot {
        x: spot.x,
        y: spot.y,
        turn: spot.turn.other(),
    }
}

impl Finder {
    /// Learns from the known patterns that the waiter has after a pass of the mover.
    fn learn_known(&self, alloc: Global, spot: &Spot, going: &mut Undecided) -> Result<(), Memory> {
        let waiter = spot.turn.other();
        let found = self.known.find(alloc, waiter, true, spot, MOST_FOUND)?;
        for pattern in &found {
            learn_all(alloc, &self.arena, &self.known, spot, *pattern, going)?;
        }
        Ok(())
    }

    /// Learns from a threat line that Maker has after a pass of Breaker.
    fn learn_threat(
        &mut self,
        alloc: Global,
        spot: &Spot,
        going: &mut Undecided,
    ) -> Result<(), Memory>
        ensures { limits_of self.new.known ≡ limits_of self.old.known }
    {
        let passed = passed(spot);
        let live = self.arena.live(alloc, spot)?;
        let found = by_threat(
            alloc,
            &self.arena,
            &passed,
            live.as_slice(),
            2 * THREAT_STEPS,
        )?;
        let Some(pattern) = found else {
            return Ok(());
        };
        if let Some(number) = self.known.add(alloc, pattern)? {
            learn_all(alloc, &self.arena, &self.known, spot, number, going)?;
        }
        Ok(())
    }

    /// Keeps the pattern of a move after which the pattern `next` stands, and returns its number.
    pub(crate) fn add_move(
        &mut self,
        alloc: Global,
        claimer: Side,
        point: u8,
        next: u32,
    ) -> Result<Option<u32>, Memory>
        ensures { limits_of self.new.known ≡ limits_of self.old.known }
    {
        let next = Image {
            pattern: next,
            map: 0,
        };
        match move_pattern(&self.arena, &self.known, claimer, point, next) {
            Some(pattern) => self.known.add(alloc, pattern),
            None => Ok(None),
        }
    }

    /// Learns from Breaker's move to the point, if Breaker wins by it after a pass of Maker.
    fn learn_move(
        &mut self,
        alloc: Global,
        spot: &Spot,
        point: u8,
        going: &mut Undecided,
    ) -> Result<(), Memory>
        ensures { limits_of self.new.known ≡ limits_of self.old.known }
    {
        let Some(next) = self.decide(alloc, &passed(spot).after(point))? else {
            return Ok(());
        };
        if self.known.claimer(next) != Some(Side::Y) {
            return Ok(());
        }
        if let Some(number) = self.add_move(alloc, Side::Y, point, next)? {
            learn_all(alloc, &self.arena, &self.known, spot, number, going)?;
        }
        Ok(())
    }

    /// Learns from Breaker's heaviest moves after a pass of Maker.
    fn learn_moves(
        &mut self,
        alloc: Global,
        spot: &Spot,
        going: &mut Undecided,
    ) -> Result<(), Memory>
        ensures { limits_of self.new.known ≡ limits_of self.old.known }
    {
        let live = self.arena.live(alloc, spot)?;
        let weights = weigh(live.as_slice(), self.arena.longest);
        let order = heaviest_first(alloc, &weights, self.arena.free(spot))?;
        for i in 0..MOST_TRIED {
            let Some(weighed) = order.get(i).copied() else {
                return Ok(());
            };
            if !going.must.is_empty() {
                self.learn_move(alloc, spot, weighed.point, going)?;
            }
        }
        Ok(())
    }

    /// Learns from what the waiter has after a pass of the mover.
    fn learn_pass(
        &mut self,
        alloc: Global,
        spot: &Spot,
        going: &mut Undecided,
    ) -> Result<(), Memory>
        ensures { limits_of self.new.known ≡ limits_of self.old.known }
    {
        self.learn_known(alloc, spot, going)?;
        if going.must.is_empty() {
            return Ok(());
        }
        match spot.turn {
            Side::X => self.learn_moves(alloc, spot, going),
            Side::Y => self.learn_threat(alloc, spot, going),
        }
    }

    /// Judges the move to the point: returns the number of the mover's pattern if it wins, and
    /// learns from it if it loses.
    fn judge_move(
        &mut self,
        alloc: Global,
        spot: &Spot,
        point: u8,
        going: &mut Undecided,
    ) -> Result<Option<u32>, Memory>
        ensures { limits_of self.new.known ≡ limits_of self.old.known }
    {
        let Some(next) = self.decide(alloc, &spot.after(point))? else {
            return Ok(None);
        };
        if self.known.claimer(next) == Some(spot.turn) {
            return self.add_move(alloc, spot.turn, point, next);
        }
        learn_all(alloc, &self.arena, &self.known, spot, next, going)?;
        Ok(None)
    }

    /// Judges the heaviest moves, until one wins; returns the number of the mover's pattern then.
    fn judge_heaviest(
        &mut self,
        alloc: Global,
        spot: &Spot,
        going: &mut Undecided,
    ) -> Result<Option<u32>, Memory>
        ensures { limits_of self.new.known ≡ limits_of self.old.known }
    {
        let live = self.arena.live(alloc, spot)?;
        let weights = weigh(live.as_slice(), self.arena.longest);
        let order = heaviest_first(alloc, &weights, going.must)?;
        for i in 0..MOST_JUDGED {
            let Some(weighed) = order.get(i).copied() else {
                return Ok(None);
            };
            if going.must.has(weighed.point) {
                let won = self.judge_move(alloc, spot, weighed.point, going)?;
                if won.is_some() {
                    return Ok(won);
                }
            }
        }
        Ok(None)
    }

    /// Keeps the pattern of the waiter who answers all moves, and returns its number.
    pub(crate) fn add_all(
        &mut self,
        alloc: Global,
        spot: &Spot,
        answers: &[Image],
    ) -> Result<Option<u32>, Memory>
        ensures { limits_of self.new.known ≡ limits_of self.old.known }
    {
        match all_pattern(alloc, &self.arena, &self.known, spot, answers)? {
            Some(pattern) => self.known.add(alloc, pattern),
            None => Ok(None),
        }
    }

    /// Returns the first numbers of the position, at which `moves` moves must be searched.
    fn numbers_at(&self, alloc: Global, spot: &Spot, moves: u32) -> Result<Numbers, Memory> {
        let live = self.arena.live(alloc, spot)?;
        let total = total_weight(live.as_slice(), self.arena.longest);
        Ok(first_numbers(total, self.total, spot.turn, quarters(moves)))
    }

    /// Decides the position, or returns which moves must be searched; None if neither may be done
    /// within the limits.
    pub(crate) fn expand(&mut self, alloc: Global, spot: &Spot) -> Result<Option<Expanded>, Memory>
        ensures { limits_of self.new.known ≡ limits_of self.old.known }
    {
        if let Some(number) = self.decide(alloc, spot)? {
            return Ok(Some(Expanded::Decided(number)));
        }
        if !self.known.may_expand() {
            return Ok(None);
        }
        let mut going = Undecided {
            numbers: Numbers {
                mover: 0,
                waiter: 0,
            },
            must: self.arena.free(spot),
            answers: Vec::new(alloc),
        };
        self.learn_pass(alloc, spot, &mut going)?;
        if self.manner == Manner::Early {
            if let Some(number) = self.judge_heaviest(alloc, spot, &mut going)? {
                return Ok(Some(Expanded::Decided(number)));
            }
        }
        self.expanded(alloc, spot, going)
    }

    /// Returns the outcome of expanding a position from what was learnt.
    fn expanded(
        &mut self,
        alloc: Global,
        spot: &Spot,
        mut going: Undecided,
    ) -> Result<Option<Expanded>, Memory>
        ensures { limits_of self.new.known ≡ limits_of self.old.known }
    {
        if going.must.is_empty() {
            return match self.add_all(alloc, spot, going.answers.as_slice())? {
                Some(number) => Ok(Some(Expanded::Decided(number))),
                None => Ok(None),
            };
        }
        let moves = going.must.len();
        self.averages.count(spot, moves);
        going.numbers = self.numbers_at(alloc, spot, moves)?;
        Ok(Some(Expanded::Undecided(going)))
    }
}
