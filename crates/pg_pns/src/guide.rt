//! What leads a search to the position that it expands next. No promise rests on it.
ghost use Rattle.std.specs.Prelude.{◌≡◌, ◌<◌, ◌≤◌, IfSome, IsTrue, None, length};
ghost use Rattle.pg_pns.specs.Prelude.{All, MAX_CLAIM_NODES};
ghost use Rattle.pg_pns.specs.Descent.{IsOpenMove};
ghost use Rattle.pg_met.specs.Known.{answer_at};

use crate::numbers::{Numbers, fresh_numbers, numbers_at};
use crate::way::Way;
use pg_base::{Memory, Side};
use pg_met::{Answered, Table};
use std::alloc::Global;

/// The numbers of the positions met, and the orders in which the moves of those that are expanded
/// are gone through, all by place; and the way to the position that was expanded last.
#[derive(Debug, Drop)]
pub(crate) struct Guide {
    numbers: Vec<Numbers>,
    /// An order has the places of the moves in the list of moves.
    orders: Vec<Vec<u16>>,
    /// The places that an update has gone through; its memory is used again by the next one.
    due: Vec<u32>,
    /// The plays on the board, as far as they were made for that position.
    pub(crate) way: Way,
}

/// Whether the place has no answer, and this number for the side.
fn is_best(
    side: Side,
    answers: &[Option<Answered>],
    numbers: &[Numbers],
    place: u32,
    least: u32,
) -> bool
    requires { place < length answers.now }
    ensures { IsTrue result → answer_at answers.now place ≡ None }
{
    if answers[place as usize].is_some() {
        return false;
    }
    numbers_at(numbers, place).of(side) == least
}

/// The first of the moves in the order that is best.
fn first_best(
    side: Side,
    order: &[u16],
    moves: &[(u16, u32)],
    answers: &[Option<Answered>],
    numbers: &[Numbers],
    least: u32,
) -> Option<(u16, u32)>
    requires { All (λ m. m.1 < length answers.now) moves.now }
    ensures { IfSome result (IsOpenMove moves.now answers.now) }
{
    for k in order {
        let Some(m) = moves.get(*k as usize) else {
            continue;
        };
        if is_best(side, answers, numbers, m.1, least) {
            return Some(*m);
        }
    }
    None
}

/// The numbers of the position at a place, from its answer or from its moves.
fn fresh_at(table: &Table, place: u32, numbers: &[Numbers]) -> Numbers {
    let i = place as usize;
    if i >= table.positions.len() {
        return Numbers::unknown();
    }
    let turn = table.positions.key(place).turn();
    let answers: &[Option<Answered>] = table.answers.as_slice();
    let Some(answer) = answers.get(i) else {
        return Numbers::unknown();
    };
    let nexts = table.moves.as_slice();
    let Some(moves) = nexts.get(i) else {
        return Numbers::unknown();
    };
    fresh_numbers(*answer, turn, moves.as_slice(), numbers)
}

/// Brings the numbers at a place up to date, and tells whether they changed.
fn renumber_at(table: &Table, place: u32, numbers: &mut [Numbers]) -> bool {
    let fresh = fresh_at(table, place, numbers);
    let i = place as usize;
    if i >= numbers.len() {
        return false;
    }
    if numbers[i] == fresh {
        return false;
    }
    numbers[i] = fresh;
    true
}

/// The place at an index, if there is one.
fn place_at(due: &[u32], i: usize) -> Option<u32> {
    match due.get(i) {
        Some(place) => Some(*place),
        None => None,
    }
}

/// Brings the numbers at the places from an index on up to date, and adds the places above those
/// whose numbers changed.
fn renumber_from(
    table: &Table,
    from: usize,
    due: &mut Vec<u32>,
    numbers: &mut [Numbers],
) -> Result<(), Memory> {
    for i in from..due.len() {
        let Some(place) = place_at(due.as_slice(), i) else {
            return Ok(());
        };
        if renumber_at(table, place, numbers) {
            let parents = table.parents.as_slice();
            if let Some(places) = parents.get(place as usize) {
                due.extend_from_slice(places.as_slice())?;
            }
        }
    }
    Ok(())
}

impl Guide {
    /// Nothing met yet.
    pub(crate) fn new(alloc: Global) -> Guide {
        Guide {
            numbers: Vec::new(alloc),
            orders: Vec::new(alloc),
            due: Vec::new(alloc),
            way: Way::new(),
        }
    }

    /// The first of the moves at a place, in their order, without an answer and of least number;
    /// None where there is none for want of an order.
    pub(crate) fn best(
        &self,
        side: Side,
        place: u32,
        moves: &[(u16, u32)],
        answers: &[Option<Answered>],
    ) -> Option<(u16, u32)>
        requires { All (λ m. m.1 < length answers.now) moves.now }
        ensures { IfSome result (IsOpenMove moves.now answers.now) }
    {
        let numbers = self.numbers.as_slice();
        let orders = self.orders.as_slice();
        let Some(order) = orders.get(place as usize) else {
            return None;
        };
        let least = numbers_at(numbers, place).of(side);
        first_best(side, order.as_slice(), moves, answers, numbers, least)
    }

    /// Keeps numbers and an empty order for the positions that are new.
    fn add_new(&mut self, alloc: Global, table: &Table) -> Result<(), Memory>
        requires { length table.now.positions.items ≤ MAX_CLAIM_NODES }
    {
        for place in self.numbers.len()..table.positions.len() {
            let fresh = fresh_at(table, place as u32, self.numbers.as_slice());
            self.numbers.push(fresh)?;
            self.orders.push(Vec::new(alloc))?;
        }
        Ok(())
    }

    /// Keeps the order of the moves at a place.
    fn set_order(&mut self, place: u32, order: Vec<u16>) {
        let orders = self.orders.as_mut_slice();
        let i = place as usize;
        if i < orders.len() {
            orders[i] = order;
        }
    }

    /// Takes the order of the moves at a place that was expanded, and brings the numbers up to
    /// date, level by level upwards: a position before another has one free point more.
    pub(crate) fn update(
        &mut self,
        alloc: Global,
        table: &Table,
        place: u32,
        order: Vec<u16>,
        levels: u16,
    ) -> Result<(), Memory>
        requires { length table.now.positions.items ≤ MAX_CLAIM_NODES }
    {
        self.add_new(alloc, table)?;
        self.set_order(place, order);
        self.due.clear();
        self.due.push(place)?;
        let mut from = 0;
        for _ in 0..levels {
            let to = self.due.len();
            if from == to {
                return Ok(());
            }
            renumber_from(table, from, &mut self.due, self.numbers.as_mut_slice())?;
            from = to;
        }
        Ok(())
    }
}
