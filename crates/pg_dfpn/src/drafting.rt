//! The claim that shows an answer.
ghost use Rattle.std.specs.Prelude.{◌≡◌, ◌<◌, [], IfOk, IfSome, IsTrue, length, map};
ghost use Rattle.pg_dfpn.specs.Prelude.{All, Fits, IsReply, Reply, claimer, free_points, lines_of};
ghost use Rattle.pg_dfpn.specs.Asking.{IsRead};
ghost use Rattle.pg_dfpn.specs.Drafted.{AreFit, IsPlainBody};

use crate::judging::{Asked, judge};
use crate::moving::{play_free, undo_last};
use pg_base::{MAX_MEMBERS, Memory, Side};
use pg_board::Board;
use pg_cert::{Body, MAX_CLAIM_NODES, Node, Replies, Reply};
use pg_game::{Game, Position};
use pg_leaf::Key;
use pg_limits::{Watch, note_nodes};
use pg_match::PairCache;
use pg_transpositions::{State, Table, survey_at};
use std::alloc::Global;
use std::collections::HashMap;

/// The number of a node.
#[derive(Clone, Copy, Debug)]
struct Number {
    number: u32,
    ghost few: { number < 100000 },
}

/// The nodes so far, and the numbers of their positions.
#[derive(Debug, Drop)]
pub(crate) struct Draft {
    answer: bool,
    nodes: Vec<Node>,
    numbers: HashMap<Key, Number>,
}

/// The side for which the answer is.
pub(crate) fn claimer(answer: bool) -> Side
    ensures { result ≡ claimer answer }
{
    if answer { Side::X } else { Side::Y }
}

impl Draft {
    /// No nodes; they are to show the answer.
    pub(crate) fn new(alloc: Global, answer: bool) -> Draft
        ensures { result.nodes.items ≡ [] }
    {
        Draft {
            answer,
            nodes: Vec::new(alloc),
            numbers: HashMap::new(alloc),
        }
    }

    /// The nodes.
    pub(crate) fn into_nodes(self) -> Vec<Node>
        ensures { result.items ≡ self.nodes.items }
    {
        let Draft {
            answer: _answer,
            nodes,
            numbers: _numbers,
        } = self;
        nodes
    }

    /// The number of the node after the move to the point.
    fn number_after(&self, g: &Game, p: &Position, v: u16) -> Option<u32>
        requires { v < MAX_MEMBERS }
        ensures { IfSome result (λ n. n < MAX_CLAIM_NODES) }
    {
        match self.numbers.get(&Key::of(&g.after(p, v))) {
            Some(found) => Some(found.number),
            None => None,
        }
    }

    /// Replies to all free points, where each leads to a node.
    fn replies(&self, alloc: Global, g: &Game, p: &Position) -> Result<Option<Vec<Reply>>, Memory>
        ensures points { IfOk result (λ r. IfSome r
            (λ replies. map (λ (r : Reply). r.point) replies.items ≡ free_points g.now p.now)) }
        ensures numbers { IfOk result (λ r. IfSome r (λ replies. All IsReply replies.items)) }
    {
        let mut replies = Vec::new(alloc);
        for v in 0..g.points() {
            if p.is_free(v) {
                let Some(child) = self.number_after(g, p, v) else {
                    return Ok(None);
                };
                replies.push(Reply { point: v, child })?;
            }
        }
        Ok(Some(replies))
    }

    /// The first free point that leads to no node.
    fn first_missing(&self, g: &Game, p: &Position) -> Option<u16> {
        for v in 0..g.points() {
            if p.is_free(v) && self.number_after(g, p, v).is_none() {
                return Some(v);
            }
        }
        None
    }

    /// The first free point that leads to a node, with its number: each node is won.
    fn first_known(&self, g: &Game, p: &Position) -> Option<(u16, u32)>
        ensures point { IfSome result (λ m. m.0 < MAX_MEMBERS) }
        ensures child { IfSome result (λ m. m.1 < MAX_CLAIM_NODES) }
    {
        for v in 0..g.points() {
            if p.is_free(v) {
                if let Some(child) = self.number_after(g, p, v) {
                    return Some((v, child));
                }
            }
        }
        None
    }

    /// The point that leads to a node which must come before that of the position, and None where
    /// there is none.
    fn missing(&self, asked: Asked<'_>, p: &Position, table: &Table) -> Option<u16> {
        let numbers = table.find(&asked.signatures.at(p))?;
        if numbers.state == State::Leaf {
            return None;
        }
        if p.turn != claimer(self.answer) {
            return self.first_missing(asked.game, p);
        }
        match self.first_known(asked.game, p) {
            Some(_) => None,
            None => match survey_at(asked.signatures, p, table).winning() {
                Some(to) => Some(u16::from(to.point)),
                None => None,
            },
        }
    }

    /// The body that rests on earlier nodes.
    fn inner(&self, alloc: Global, g: &Game, p: &Position) -> Result<Option<Body>, Memory>
        ensures { IfOk result (λ r. IfSome r IsPlainBody) }
    {
        if p.turn != claimer(self.answer) {
            return match self.replies(alloc, g, p)? {
                Some(replies) => Ok(Some(Body::All(Replies::from_vec(replies)))),
                None => Ok(None),
            };
        }
        match self.first_known(g, p) {
            Some((point, child)) => Ok(Some(Body::Move { point, child })),
            None => Ok(None),
        }
    }

    /// The body of the node at the position of the board, where it has one.
    fn body(
        &self,
        alloc: Global,
        asked: Asked<'_>,
        board: &mut Board<'_>,
        cache: &mut PairCache,
        table: &Table,
    ) -> Result<Option<Body>, Memory>
        requires reads { IsRead asked.game.now asked.question board.old cache.old }
        ensures game { board.new.game ≡ board.old.game }
        ensures fits { Fits cache.new (lines_of asked.entry.game.now) }
        ensures body { IfOk result (λ r. IfSome r IsPlainBody) }
    {
        let p = board.position();
        let Some(numbers) = table.find(&asked.signatures.at(&p)) else {
            return Ok(None);
        };
        if numbers.state != State::Leaf {
            return self.inner(alloc, asked.game, &p);
        }
        let steps = asked.limits.first_steps.max(asked.limits.steps);
        match judge(alloc, asked, steps, board, cache)? {
            Some((answer, body)) => {
                if answer == self.answer {
                    Ok(Some(body))
                } else {
                    Ok(None)
                }
            }
            None => Ok(None),
        }
    }

    /// Adds the node of the position of the board, and tells whether there is one and room for it.
    fn add(
        &mut self,
        alloc: Global,
        asked: Asked<'_>,
        board: &mut Board<'_>,
        cache: &mut PairCache,
        table: &Table,
    ) -> Result<bool, Memory>
        requires reads { IsRead asked.game.now asked.question board.old cache.old }
        requires fit { AreFit self.old.nodes.items }
        ensures game { board.new.game ≡ board.old.game }
        ensures fits { Fits cache.new (lines_of asked.entry.game.now) }
        ensures fit { AreFit self.new.nodes.items }
        ensures some { IfOk result (λ b. IsTrue b → 0 < length self.new.nodes.items) }
    {
        let number = self.nodes.len();
        if number >= MAX_CLAIM_NODES as usize {
            return Ok(false);
        }
        let p = board.position();
        let Some(body) = self.body(alloc, asked, board, cache, table)? else {
            return Ok(false);
        };
        let number = Number {
            number: number as u32,
        };
        self.numbers.insert(Key::of(&p), number)?;
        self.nodes.push(Node {
            x: p.x,
            y: p.y,
            turn: p.turn,
            left: p.left,
            body,
        })?;
        Ok(true)
    }

    /// Adds the nodes down to that of the position of the board, and tells whether all are there.
    pub(crate) fn fill<W: Watch>(
        &mut self,
        alloc: Global,
        asked: Asked<'_>,
        board: &mut Board<'_>,
        cache: &mut PairCache,
        table: &Table,
        watch: &mut W,
    ) -> Result<bool, Memory>
        requires reads { IsRead asked.game.now asked.question board.old cache.old }
        requires fit { AreFit self.old.nodes.items }
        ensures fit { AreFit self.new.nodes.items }
        ensures some { IfOk result (λ b. IsTrue b → 0 < length self.new.nodes.items) }
    {
        for _step in 0..2 * MAX_CLAIM_NODES {
            let p = board.position();
            if let Some(v) = self.missing(asked, &p, table) {
                play_free(board, v);
                continue;
            }
            if !self.add(alloc, asked, board, cache, table)? {
                return Ok(false);
            }
            note_nodes(self.nodes.len(), watch);
            if board.plays() == 0 {
                return Ok(true);
            }
            undo_last(board);
        }
        Ok(false)
    }
}
