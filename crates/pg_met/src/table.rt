//! The positions that a search has met.
ghost use Rattle.std.specs.Prelude.{◌≡◌, ◌<◌, ◌^◌, ℕ, List, [], length, IfOk, OnOk, true, false};
ghost use Rattle.pg_met.specs.Prelude.{Score, Game, IsPosition, Position, after};
ghost use Rattle.pg_met.specs.Claims.{nodes_of};
ghost use Rattle.pg_met.specs.Met.{IsLeafOf, IsMeeting, LeafAdds};
ghost use Rattle.pg_met.specs.Reading.{IsReadAt, IsExpansion, IsKept, IsMoveAt};
ghost use Rattle.pg_met.specs.Tree.{IsTreeOf, IsTreeFor, IsMetAt, IsMetFrom};

use crate::asked::Asked;
use crate::claims::Claims;
use crate::known::Answered;
use crate::lists::{Moves, Places};
use crate::met::Met;
use pg_base::Memory;
use pg_board::Board;
use pg_cert::Body;
use pg_game::Position;
use pg_leaf::{Ahead, KeptNode, Key, Told, attack_leaf, leaf_with};
use pg_match::PairCache;
use std::alloc::Global;

/// A position that is expanded, with its place, what its weights tell of those after it, and its
/// moves that are met so far.
#[derive(Debug, Drop)]
pub struct Expansion {
    /// Its place.
    pub place: u32,
    /// The position.
    pub position: Position,
    /// What its weights tell of the positions after it.
    pub ahead: Ahead,
    /// Its moves that are met so far.
    pub nexts: Moves,
}

/// The positions met, each at its place: their moves once they are expanded, the places before
/// them, and their answers.
#[derive(Debug, Drop)]
pub struct Table {
    /// The positions.
    pub positions: Met,
    /// The moves at each place; none before it is expanded.
    pub moves: Vec<Moves>,
    /// The places of which a move leads to each.
    pub parents: Vec<Places>,
    /// The answer at each place, if it is known.
    pub answers: Vec<Option<Answered>>,
    /// The nodes that show the answers.
    pub claims: Claims,
}

/// Keeps what a criterion answers at a position with a node that shows it.
pub(crate) fn keep_leaf(
    p: Key,
    found: Option<(bool, Body)>,
    claims: &mut Claims,
) -> Result<Option<Answered>, Memory>
    requires yes_room { length (nodes_of claims.old true) < 2 ^ 32 }
    requires no_room { length (nodes_of claims.old false) < 2 ^ 32 }
    ensures { IfOk result (λ a. (g : Game) → (t : Score) → IsLeafOf g t p found
        → LeafAdds g t p a (nodes_of claims.old) (nodes_of claims.new)) }
{
    match found {
        Some((answer, body)) => {
            let node = claims.add(answer, KeptNode::new(p, body))?;
            Ok(Some(Answered { answer, node }))
        }
        None => Ok(None),
    }
}

impl Table {
    /// Returns a table of no positions.
    pub fn new(alloc: Global) -> Table
        ensures tree { (g : Game) → (t : Score) → IsTreeOf g t result }
        ensures positions { result.positions.items ≡ [] }
        ensures moves { result.moves.items ≡ [] }
        ensures parents { result.parents.items ≡ [] }
    {
        Table {
            positions: Met::new(alloc),
            moves: Vec::new(alloc),
            parents: Vec::new(alloc),
            answers: Vec::new(alloc),
            claims: Claims::new(alloc),
        }
    }

    /// Adds what is kept for the position that was met last, with the leaf that a criterion gives
    /// it.
    ///
    /// # Errors
    ///
    /// `Memory` if memory runs out.
    pub fn add(
        &mut self,
        alloc: Global,
        asked: Asked<'_>,
        q: Key,
        found: Option<(bool, Body)>,
    ) -> Result<(), Memory>
        requires position { IsPosition asked.game.now q }
        requires found { IsLeafOf asked.game.now asked.question q found }
        requires tree { (before : List Position)
            × IsTreeFor asked.game.now asked.question before self.old
            × (length before < 2 ^ 32) }
        ensures { OnOk result ((before : List Position) → (place : ℕ)
            → IsTreeFor asked.entry.game.now asked.entry.question before self.old
            → IsMeeting q before self.old.positions.items place true
            → IsMetFrom asked.entry.game.now asked.entry.question before self.old self.new q
            place) }
    {
        let answer = keep_leaf(q, found, &mut self.claims)?;
        self.moves.push(Moves::new(alloc))?;
        self.parents.push(Places::new(alloc))?;
        self.answers.push(answer)?;
        Ok(())
    }
}

/// The leaf of the first criterion that decides the position after a move of the position that is
/// expanded, where the board stands. The board goes there and back only if its counts and the
/// weights don't tell it.
fn leaf_after(
    alloc: Global,
    asked: Asked<'_>,
    expansion: &Expansion,
    q: &Position,
    v: u16,
    board: &mut Board<'_>,
    cache: &mut PairCache,
) -> Result<Option<(bool, Body)>, Memory>
    requires reads { IsExpansion asked.game.now asked.question expansion.now board.old cache.old }
    requires moves { IsMoveAt asked.game.now expansion.now.position v }
    requires leads { q.now ≡ after asked.game.now expansion.now.position v }
    ensures kept { IsKept asked.entry.game.now board.old board.new cache.new }
    ensures found { IfOk result (IsLeafOf asked.entry.game.now asked.entry.question q.now) }
{
    match expansion.ahead.tells(board, q, v) {
        Told::Open => return Ok(None),
        Told::Decided(answer, body) => return Ok(Some((answer, body))),
        Told::Attack(line) => return attack_leaf(alloc, q, &line),
        Told::Unsure => {}
    }
    board.play(v);
    let next = &expansion.ahead.next;
    let found = leaf_with(alloc, asked.game, asked.question, q, board, cache, next);
    board.undo();
    found
}

/// Returns the place of the position after a move of the position that is expanded, where the board
/// stands. If it wasn't met yet, it is added with its answer, if a criterion decides it.
///
/// # Errors
///
/// `Memory` if memory runs out.
pub fn meet_after(
    alloc: Global,
    asked: Asked<'_>,
    expansion: &Expansion,
    v: u16,
    board: &mut Board<'_>,
    cache: &mut PairCache,
    table: &mut Table,
) -> Result<u32, Memory>
    requires reads { IsExpansion asked.game.now asked.question expansion.now board.old cache.old }
    requires moves { IsMoveAt asked.game.now expansion.now.position v }
    requires few { length table.old.positions.items < 2 ^ 32 }
    requires tree { IsTreeOf asked.game.now asked.question table.old }
    ensures kept { IsKept asked.entry.game.now board.old board.new cache.new }
    ensures met { IfOk result
        (λ place. IsMetAt asked.entry.game.now asked.entry.question table.old table.new
        (after asked.entry.game.now expansion.now.position v) place) }
{
    let q = asked.game.after(&expansion.position, v);
    let key = Key::of(&q);
    let (place, is_new) = table.positions.meet(key)?;
    if !is_new {
        return Ok(place);
    }
    let found = leaf_after(alloc, asked, expansion, &q, v, board, cache)?;
    table.add(alloc, asked, key, found)?;
    Ok(place)
}
