//! The search.
ghost use Rattle.std.specs.Prelude.{◌≡◌, IfOk};
ghost use Rattle.pg_patterns.specs.Known.{limits_of};

use crate::averages::Averages;
use crate::expanding::Expanded;
use crate::finder::{Finder, Manner};
use crate::numbers::{INFINITE, of_answers};
use crate::survey::{Frame, Survey};
use crate::trials::Trials;
use pg_base::Memory;
use pg_game::Game;
use pg_limits::{Limits, Progress, Watch};
use pg_patterns::{
    Arena, Entry, Glimpse, Known, Numbers, Spot, Undecided, heaviest_first, total_weight, weigh,
};
use std::alloc::Global;

/// The most looks at positions for each position that may be expanded.
const VISITS: u64 = 256;

/// The looks from one note of how far the search is to the next.
const LOOKS_A_NOTE: u64 = 2_048;

/// The number of positions that the first round expands; each later one expands twice as many as
/// the one before.
const FIRST_ROUND: u32 = 8_192;

/// The most rounds.
const ROUNDS: u32 = 24;

/// The result of a search.
#[derive(Debug, Drop)]
pub struct Found {
    /// The game as the search sees it.
    pub arena: Arena,
    /// What the search knows.
    pub known: Known,
    /// The number of the pattern that decides the game's own position, where one is found.
    pub root: Option<u32>,
}

/// The outcome of looking at a frame.
#[derive(Debug, Drop)]
enum Looked {
    /// The pattern of this number decides its position.
    Decided(u32),
    /// Nothing more is done at it now.
    Ended,
    /// It is to be looked at again, and before it the position after a move, up to these numbers.
    Going(Spot, Numbers),
    /// It is to be looked at again.
    Again,
}

impl Finder {
    /// Returns a frame of the position.
    fn frame(
        &self,
        alloc: Global,
        spot: &Spot,
        going: Undecided,
        limits: Numbers,
    ) -> Result<Frame, Memory> {
        let live = self.arena.live(alloc, spot)?;
        let weights = weigh(live.as_slice(), self.arena.longest);
        Ok(Frame {
            spot: *spot,
            order: heaviest_first(alloc, &weights, going.must)?,
            going,
            total: weights.total,
            limits,
        })
    }

    /// Goes down to a position.
    fn enter(
        &mut self,
        alloc: Global,
        spot: &Spot,
        limits: Numbers,
        frames: &mut Vec<Frame>,
    ) -> Result<(), Memory>
        ensures { limits_of self.new.known ≡ limits_of self.old.known }
    {
        let going = match self.known.take(spot) {
            Some(Entry::Undecided(going)) => going,
            Some(Entry::Decided(number)) => {
                return self.known.put(*spot, Entry::Decided(number));
            }
            None => match self.expand(alloc, spot)? {
                Some(Expanded::Undecided(going)) => going,
                Some(Expanded::Decided(number)) => {
                    return self.known.put(*spot, Entry::Decided(number));
                }
                None => return Ok(()),
            },
        };
        let frame = self.frame(alloc, spot, going, limits)?;
        frames.push(frame)?;
        Ok(())
    }

    /// Keeps the pattern that decides the frame's position, if its moves tell one, and returns its
    /// number.
    fn decided(
        &mut self,
        alloc: Global,
        frame: &Frame,
        survey: &Survey,
    ) -> Result<Option<u32>, Memory>
        ensures { limits_of self.new.known ≡ limits_of self.old.known }
    {
        if let Some((point, next)) = survey.won {
            return self.add_move(alloc, frame.spot.turn, point, next);
        }
        if frame.going.must.is_empty() {
            return self.add_all(alloc, &frame.spot, frame.going.answers.as_slice());
        }
        Ok(None)
    }

    /// Looks at the moves of a frame.
    fn look(&mut self, alloc: Global, frame: &mut Frame) -> Result<Looked, Memory>
        ensures { limits_of self.new.known ≡ limits_of self.old.known }
    {
        let survey = self.survey(alloc, frame)?;
        if let Some(number) = self.decided(alloc, frame, &survey)? {
            return Ok(Looked::Decided(number));
        }
        let Some(best) = survey.best else {
            return Ok(Looked::Ended);
        };
        let numbers = survey.numbers();
        frame.going.numbers = numbers;
        if !frame.going.must.has(best.point) {
            return Ok(Looked::Again);
        }
        if frame.is_reached(numbers) {
            return Ok(Looked::Ended);
        }
        let below = survey.below(&best, frame.limits);
        Ok(Looked::Going(frame.spot.after(best.point), below))
    }

    /// Looks at the last frame, and goes down or up.
    fn step(&mut self, alloc: Global, frames: &mut Vec<Frame>) -> Result<(), Memory>
        ensures { limits_of self.new.known ≡ limits_of self.old.known }
    {
        let Some(mut frame) = frames.pop() else {
            return Ok(());
        };
        match self.look(alloc, &mut frame)? {
            Looked::Decided(number) => self.known.put(frame.spot, Entry::Decided(number)),
            Looked::Ended => {
                let Frame {
                    spot,
                    going,
                    order: _order,
                    total: _total,
                    limits: _limits,
                } = frame;
                self.known.put(spot, Entry::Undecided(going))
            }
            Looked::Going(spot, limits) => {
                frames.push(frame)?;
                self.enter(alloc, &spot, limits, frames)
            }
            Looked::Again => {
                frames.push(frame)?;
                Ok(())
            }
        }
    }

    /// Returns how far the search is, with the numbers of the first frame.
    fn progress(&self, frames: &[Frame]) -> Progress {
        let (proof, disproof) = match frames.first() {
            Some(frame) => of_answers(frame.going.numbers, frame.spot.turn),
            None => (0, 0),
        };
        Progress::Searching {
            expanded: self.known.expanded(),
            entries: self.known.entries(),
            proof,
            disproof,
        }
    }

    /// Searches from the game's own position until it is decided, or as much is used as may be.
    fn descend<W: Watch>(&mut self, alloc: Global, watch: &mut W) -> Result<Option<u32>, Memory>
        ensures { limits_of self.new.known ≡ limits_of self.old.known }
    {
        let start = self.arena.start;
        let whole = Numbers {
            mover: INFINITE,
            waiter: INFINITE,
        };
        let mut frames = Vec::new(alloc);
        self.enter(alloc, &start, whole, &mut frames)?;
        for step in 0..VISITS * u64::from(self.known.limits().positions) {
            if frames.is_empty() || self.is_spent() || self.is_round_over() {
                break;
            }
            if step % LOOKS_A_NOTE == 0 {
                watch.note(self.progress(frames.as_slice()));
            }
            self.step(alloc, &mut frames)?;
        }
        match self.known.glimpse(&start) {
            Glimpse::Decided(number) => Ok(Some(number)),
            _ => Ok(None),
        }
    }

    /// Begins a round that expands at most `budget` positions.
    fn begin_round(&mut self, alloc: Global, budget: u32, manner: Manner)
        ensures { limits_of self.new.known ≡ limits_of self.old.known }
    {
        self.manner = manner;
        self.round_end = self.known.expanded().saturating_add(budget);
        self.known.forget_positions(alloc);
    }

    /// Searches in rounds, each from the game's own position, with moves judged late and early in
    /// turn. Patterns stay from one round to the next.
    fn search_in_rounds<W: Watch>(
        &mut self,
        alloc: Global,
        watch: &mut W,
    ) -> Result<Option<u32>, Memory>
        ensures { limits_of self.new.known ≡ limits_of self.old.known }
    {
        let mut budget = FIRST_ROUND;
        let mut manner = Manner::Late;
        for _round in 0..ROUNDS {
            self.begin_round(alloc, budget, manner);
            let root = self.descend(alloc, watch)?;
            if root.is_some() || self.is_spent() {
                return Ok(root);
            }
            budget = budget.saturating_mul(2);
            manner = manner.other();
        }
        Ok(None)
    }

    /// Tests whether the round has expanded as many positions as it may.
    fn is_round_over(&self) -> bool {
        self.known.expanded() >= self.round_end
    }

    /// Tests whether nothing more may be kept, or no position expanded.
    fn is_spent(&self) -> bool {
        self.known.is_full() || self.known.expanded() >= self.known.limits().positions
    }
}

/// Searches from the game's own position.
///
/// It is a search by proof numbers to the depth (df-pn: A. Nagai, Df-pn Algorithm for Searching
/// AND/OR Trees and Its Applications, 2002) over a table of exact positions, of which each that is
/// decided leaves a pattern: what its winner needs. A position is decided if a pattern fits. Rounds
/// judge moves late and early in turn: the one serves more often where Maker wins, the other where
/// Breaker does. `watch` is told now and then how far the search is.
///
/// # Errors
///
/// `Memory` if an allocation fails.
pub fn search<W: Watch>(
    alloc: Global,
    g: &Game,
    limits: Limits,
    watch: &mut W,
) -> Result<Found, Memory>
    ensures { IfOk result (λ found. limits_of found.known ≡ limits) }
{
    let arena = Arena::of_game(alloc, g)?;
    let live = arena.live(alloc, &arena.start)?;
    let total = total_weight(live.as_slice(), arena.longest);
    let mut finder = Finder {
        arena,
        known: Known::new(alloc, limits)?,
        trials: Trials::new(alloc)?,
        averages: Averages::new(alloc)?,
        total,
        manner: Manner::Late,
        round_end: 0,
    };
    let root = finder.search_in_rounds(alloc, watch)?;
    let Finder {
        arena,
        known,
        trials: _trials,
        averages: _averages,
        total: _total,
        manner: _manner,
        round_end: _round_end,
    } = finder;
    Ok(Found { arena, known, root })
}
