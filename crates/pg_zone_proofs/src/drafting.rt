//! The nodes of a claim.
ghost use Rattle.std.specs.Prelude.{◌≡◌, ◌<◌, [], IfOk, IfSome, length, true};
ghost use Rattle.pg_zone_proofs.specs.Prelude.{AreBelow, IsBody, ShareNone};
ghost use Rattle.pg_zone_proofs.specs.Drafted.{AreFit, IfBody};

use crate::bodies::leaf_body;
use crate::numbers::NodeNumbers;
use crate::replies::replies_to;
use crate::standing::is_over;
use crate::uses::{Uses, answer_to, spot_of, under};
use pg_base::{MAX_MEMBERS, Memory, PointSet};
use pg_cert::{Body, MAX_CLAIM_NODES, Node, Replies};
use pg_limits::{Watch, note_nodes};
use pg_patterns::{Image, Pattern, Reason, Spot};
use pg_zones::Found;
use std::alloc::Global;

/// The most steps of a draft for each node that a claim may have.
const STEPS: u32 = 64;

/// A way in which a node shows that the claimer wins.
#[derive(Clone, Copy, Debug, PartialEq, Eq)]
enum Way {
    /// Any that serves.
    Any,
    /// The pattern's own reason.
    AsPattern,
    /// A reference to the node at the pattern's own position.
    Weaker,
}

/// A node to be written.
#[derive(Clone, Copy, Debug)]
struct Task {
    spot: Spot,
    image: Image,
    way: Way,
}

/// The outcome of looking at a task.
#[derive(Debug, Drop)]
enum Outcome {
    /// The node's body.
    Body(Body),
    /// The way to take.
    Way(Way),
    /// Another node that must come first.
    First(Task),
    /// No node can be written.
    Stuck,
}

/// The nodes so far, their numbers, and how many nodes rest on each pattern.
#[derive(Debug, Drop)]
pub(crate) struct Draft<'a> {
    found: &'a Found,
    uses: Uses,
    nodes: Vec<Node>,
    numbers: NodeNumbers,
}

/// Returns the task of a node at the position, by any way.
fn any_way(spot: Spot, image: Image) -> Task {
    Task {
        spot,
        image,
        way: Way::Any,
    }
}

/// Tests whether the sets can be the points of the two sides.
fn are_marks(x: &PointSet, y: &PointSet) -> bool
    ensures x { result ≡ true → AreBelow x.now MAX_MEMBERS }
    ensures y { result ≡ true → AreBelow y.now MAX_MEMBERS }
    ensures apart { result ≡ true → ShareNone x.now y.now }
{
    x.is_below(MAX_MEMBERS) && y.is_below(MAX_MEMBERS) && x.shares_none(y)
}

impl<'a> Draft<'a> {
    /// Returns the draft without nodes.
    fn new(alloc: Global, found: &'a Found, root: Image) -> Result<Draft<'a>, Memory>
        ensures { IfOk result (λ draft. draft.nodes.items ≡ []) }
    {
        Ok(Draft {
            found,
            uses: Uses::below(alloc, found, root)?,
            nodes: Vec::new(alloc),
            numbers: NodeNumbers::new(alloc),
        })
    }

    /// Returns the outcome for a node that moves to the point, after which `next` stands.
    fn moved(&self, spot: &Spot, point: u8, next: Image) -> Outcome
        ensures { IfBody result }
    {
        let after = spot.after(point);
        match self.numbers.of(&after) {
            Some(child) => Outcome::Body(Body::Move {
                point: u16::from(point),
                child,
            }),
            None => Outcome::First(any_way(after, next)),
        }
    }

    /// Returns the task of the first reply without a node, if these patterns answer all moves.
    fn missing(&self, spot: &Spot, map: u8, answers: &[Image]) -> Option<Task> {
        for v in self.found.arena.free(spot).members() {
            let after = spot.after(v);
            if self.numbers.of(&after).is_none() {
                let image = answer_to(self.found, map, answers, v, &after)?;
                return Some(any_way(after, image));
            }
        }
        None
    }

    /// Returns the outcome for a node whose replies these patterns answer.
    fn answered(
        &self,
        alloc: Global,
        spot: &Spot,
        map: u8,
        answers: &[Image],
    ) -> Result<Outcome, Memory>
        ensures { IfOk result IfBody }
    {
        if let Some(first) = self.missing(spot, map, answers) {
            return Ok(Outcome::First(first));
        }
        let free = self.found.arena.free(spot);
        match replies_to(alloc, free, spot, &self.numbers)? {
            Some(replies) => Ok(Outcome::Body(Body::All(Replies::from_vec(replies)))),
            None => Ok(Outcome::Stuck),
        }
    }

    /// Returns the outcome for a node that shows the pattern's own reason.
    fn as_pattern(&self, alloc: Global, pattern: &Pattern, task: &Task) -> Result<Outcome, Memory>
        ensures { IfOk result IfBody }
    {
        let arena = &self.found.arena;
        let map = task.image.map;
        match &pattern.reason {
            Reason::Move { point, next } => {
                let point = arena.maps.image(map, *point);
                Ok(self.moved(&task.spot, point, under(arena, map, *next)))
            }
            Reason::All(answers) => self.answered(alloc, &task.spot, map, answers.as_slice()),
            _ => match leaf_body(alloc, arena, pattern, task.image, &task.spot)? {
                Some(body) => Ok(Outcome::Body(body)),
                None => Ok(Outcome::Stuck),
            },
        }
    }

    /// Returns the outcome for a node that refers to the one at the pattern's own position.
    fn weaker(&self, own: &Spot, image: Image) -> Outcome
        ensures { IfBody result }
    {
        match self.numbers.of(own) {
            Some(child) => Outcome::Body(Body::Weaker { child }),
            None => Outcome::First(Task {
                spot: *own,
                image,
                way: Way::AsPattern,
            }),
        }
    }

    /// Tests whether the pattern's move can be written at the better position: the point is free,
    /// and what follows stands there or serves no other node.
    fn may_move(&self, task: &Task, point: u8, next: Image) -> bool {
        let arena = &self.found.arena;
        let point = arena.maps.image(task.image.map, point);
        let next = under(arena, task.image.map, next);
        if !arena.free(&task.spot).has(point) {
            return false;
        }
        self.uses.of(next) <= 1 || spot_of(self.found, next) == Some(task.spot.after(point))
    }

    /// Returns the outcome for a node at a position better than the pattern's own. A leaf's reason
    /// is repeated there, and so is a move on which no other node rests.
    fn better(
        &self,
        alloc: Global,
        pattern: &Pattern,
        task: &Task,
        own: &Spot,
    ) -> Result<Outcome, Memory>
        ensures { IfOk result IfBody }
    {
        if is_over(&self.found.arena, &task.spot) {
            return Ok(Outcome::Body(Body::Over));
        }
        match &pattern.reason {
            Reason::Move { point, next } => {
                let is_single = self.uses.of(task.image) <= 1 && self.numbers.of(own).is_none();
                if is_single && self.may_move(task, *point, *next) {
                    return Ok(Outcome::Way(Way::AsPattern));
                }
                Ok(Outcome::Way(Way::Weaker))
            }
            Reason::All(_) => Ok(Outcome::Way(Way::Weaker)),
            _ => match leaf_body(alloc, &self.found.arena, pattern, task.image, &task.spot)? {
                Some(body) => Ok(Outcome::Body(body)),
                None => Ok(Outcome::Way(Way::Weaker)),
            },
        }
    }

    /// Returns the outcome of a task.
    fn outcome(&self, alloc: Global, task: &Task) -> Result<Outcome, Memory>
        ensures { IfOk result IfBody }
    {
        let Some(pattern) = self.found.known.pattern(task.image.pattern) else {
            return Ok(Outcome::Stuck);
        };
        let Some(own) = spot_of(self.found, task.image) else {
            return Ok(Outcome::Stuck);
        };
        match task.way {
            Way::AsPattern => self.as_pattern(alloc, pattern, task),
            Way::Weaker => Ok(self.weaker(&own, task.image)),
            Way::Any if own == task.spot => Ok(Outcome::Way(Way::AsPattern)),
            Way::Any => self.better(alloc, pattern, task, &own),
        }
    }

    /// Adds a node at the position. Returns whether there was room and its marks are disjoint.
    fn add(&mut self, spot: &Spot, body: Body) -> Result<bool, Memory>
        requires body { IsBody body }
        requires fit { AreFit self.old.nodes.items }
        ensures fit { AreFit self.new.nodes.items }
    {
        let number = self.nodes.len();
        let (x, y) = (spot.x.to_points(), spot.y.to_points());
        if number >= MAX_CLAIM_NODES as usize || !are_marks(&x, &y) {
            return Ok(false);
        }
        self.numbers.put(*spot, number as u32)?;
        self.nodes.push(Node {
            x,
            y,
            turn: spot.turn,
            left: 1,
            body,
        })?;
        Ok(true)
    }

    /// Does the last task, or puts the one before it that must come first. Returns false if it is
    /// stuck.
    fn step(&mut self, alloc: Global, tasks: &mut Vec<Task>) -> Result<bool, Memory>
        requires fit { AreFit self.old.nodes.items }
        ensures fit { AreFit self.new.nodes.items }
    {
        let Some(mut task) = tasks.pop() else {
            return Ok(true);
        };
        if self.numbers.of(&task.spot).is_some() {
            return Ok(true);
        }
        match self.outcome(alloc, &task)? {
            Outcome::Body(body) => self.add(&task.spot, body),
            Outcome::Way(way) => {
                task.way = way;
                tasks.push(task)?;
                Ok(true)
            }
            Outcome::First(first) => {
                tasks.push(task)?;
                tasks.push(first)?;
                Ok(true)
            }
            Outcome::Stuck => Ok(false),
        }
    }

    /// Adds all nodes, the last at the game's own position. Returns false if it is stuck.
    fn fill<W: Watch>(&mut self, alloc: Global, root: Image, watch: &mut W) -> Result<bool, Memory>
        requires { AreFit self.old.nodes.items }
        ensures { AreFit self.new.nodes.items }
    {
        let mut tasks = Vec::new(alloc);
        tasks.push(any_way(self.found.arena.start, root))?;
        for _step in 0..STEPS * MAX_CLAIM_NODES {
            if tasks.is_empty() {
                return Ok(true);
            }
            if !self.step(alloc, &mut tasks)? {
                return Ok(false);
            }
            note_nodes(self.nodes.len(), watch);
        }
        Ok(false)
    }
}

/// Returns nodes that show that the pattern's claimer wins from the game's own position, the last
/// of them at that position; None if there are too many.
///
/// # Errors
///
/// `Memory` if an allocation fails.
pub(crate) fn nodes_of<W: Watch>(
    alloc: Global,
    found: &Found,
    pattern: u32,
    watch: &mut W,
) -> Result<Option<Vec<Node>>, Memory>
    ensures { IfOk result (λ r. IfSome r
        (λ nodes. AreFit nodes.items × (0 < length nodes.items))) }
{
    let root = Image { pattern, map: 0 };
    let mut draft = Draft::new(alloc, found, root)?;
    if !draft.fill(alloc, root, watch)? || draft.nodes.is_empty() {
        return Ok(None);
    }
    let Draft {
        found: _found,
        uses: _uses,
        nodes,
        numbers: _numbers,
    } = draft;
    Ok(Some(nodes))
}
