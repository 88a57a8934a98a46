//! Checking a certificate part by part.
ghost use Rattle.std.specs.Prelude.{◌≡◌, ◌++◌, ◌∷◌, [], List, IfOk, None};
ghost use Rattle.pg_check.specs.Prelude.{IsWithinLimits, parts_of, Cert, Part};
ghost use Rattle.pg_check.specs.Checking.{StandsFor, AreNext, IsWhole, IsVerdict};

use crate::node::first_fault;
use crate::present::Present;
use crate::tester::Tester;
use pg_base::{Goal, Memory, Side};
use pg_cert::{Node, Part};
use pg_game::Game;
use pg_potential::Marks;
use std::alloc::Global;

/// Where a certificate isn't valid, and why.
#[derive(Clone, Copy, Debug, PartialEq, Eq)]
pub struct Rejected {
    /// The first faulty claim, counted from 0.
    pub claim: u32,
    /// The first faulty node of that claim, counted from 0.
    pub node: u32,
    /// The least number of the node's faults: 1 to 13.
    pub why: u8,
}

/// A certificate that is checked as its parts come. Of earlier nodes it keeps marks and turns
/// alone, and only those of the claim in hand.
#[derive(Debug, Drop)]
pub struct Checking<'a> {
    /// The game.
    pub(crate) game: &'a Game,
    /// What the tests of a node work with.
    pub(crate) tester: Tester,
    /// How many claims have begun, up to the first fault.
    pub(crate) begun: u32,
    /// The claim in hand.
    pub(crate) present: Option<Present>,
    /// The first fault.
    pub(crate) found: Option<Rejected>,
}

impl<'a> Checking<'a> {
    /// A checking for this game, to which no part was fed.
    pub fn begin(alloc: Global, g: &'a Game) -> Result<Checking<'a>, Memory>
        ensures game { IfOk result (λ c. c.game.now ≡ g.now) }
        ensures stands { IfOk result (λ c. StandsFor c []) }
    {
        Ok(Checking {
            game: g,
            tester: Tester::new(alloc, g)?,
            begun: 0,
            present: None,
            found: None,
        })
    }

    /// Begins the next claim, of which so many nodes will come.
    pub(crate) fn claim(&mut self, alloc: Global, turn: Side, side: Side, goal: Goal, count: u32)
        requires next { AreNext self.old (Part.Claim turn side goal count ∷ []) }
        ensures game { self.new.game ≡ self.old.game }
        ensures stands { (fed : List Part) → StandsFor self.old fed
            → StandsFor self.new (fed ++ Part.Claim turn side goal count ∷ []) }
    {
        if self.found.is_some() {
            return;
        }
        self.begun += 1;
        self.present = Some(Present {
            turn,
            side,
            goal,
            count,
            marks: Marks::new(alloc, self.game),
        });
    }

    /// Tests the next node of the claim in hand.
    fn test(&mut self, node: &Node) -> Result<(), Memory>
        requires next { AreNext self.old (Part.Node node.now ∷ []) }
        requires sound { self.old.found ≡ None }
        ensures game { self.new.game ≡ self.old.game }
        ensures stands { IfOk result (λ _. (fed : List Part) → StandsFor self.old fed
            → StandsFor self.new (fed ++ Part.Node node.now ∷ [])) }
    {
        let Some(mut present) = self.present.take() else {
            unreachable!();
        };
        let p = node.position();
        let k = present.marks.count();
        if let Some(fault) = first_fault(&mut self.tester, self.game, &present, k, node, &p) {
            self.found = Some(Rejected {
                claim: self.begun - 1,
                node: k as u32,
                why: fault.number(),
            });
            return Ok(());
        }
        present.marks.push(&p)?;
        self.present = Some(present);
        Ok(())
    }

    /// Checks the next node, unless a fault has been found.
    pub(crate) fn node(&mut self, node: &Node) -> Result<(), Memory>
        requires next { AreNext self.old (Part.Node node.now ∷ []) }
        ensures game { self.new.game ≡ self.old.game }
        ensures stands { IfOk result (λ _. (fed : List Part) → StandsFor self.old fed
            → StandsFor self.new (fed ++ Part.Node node.now ∷ [])) }
    {
        if self.found.is_some() {
            return Ok(());
        }
        self.test(node)
    }

    /// Checks the next part. After the first fault parts are taken and not looked at. After want of
    /// memory the checking can only be dropped.
    pub fn part(&mut self, alloc: Global, p: &Part) -> Result<(), Memory>
        requires next { AreNext self.old (p.now ∷ []) }
        ensures game { self.new.game ≡ self.old.game }
        ensures stands { IfOk result (λ _. (fed : List Part) → StandsFor self.old fed
            → StandsFor self.new (fed ++ p.now ∷ [])) }
    {
        match p {
            Part::Claim {
                turn,
                side,
                goal,
                nodes,
            } => {
                self.claim(alloc, *turn, *side, *goal, *nodes);
                Ok(())
            }
            Part::Node(node) => self.node(node.as_node()),
        }
    }

    /// The verdict on a certificate of which all parts have been fed: accepted exactly where it is
    /// valid, and else its first fault.
    pub fn finish(self) -> Result<(), Rejected>
        requires { IsWhole self }
        ensures { (cert : Cert) → IsWithinLimits cert
            → StandsFor self.entry (parts_of cert)
            → IsVerdict result self.entry.game.now cert }
    {
        match self.found {
            None => Ok(()),
            Some(rejected) => Err(rejected),
        }
    }
}
