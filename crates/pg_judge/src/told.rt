//! What the parts of a certificate have said.
ghost use Rattle.std.specs.Prelude.{◌≡◌, ◌++◌, [], ◌∷◌, List, IfOk, IfSome, MatchResult};
ghost use Rattle.pg_judge.specs.Prelude.{IsWithinLimits, parts_of, IsFirstFault, IsValid, Cert};
ghost use Rattle.pg_judge.specs.Prelude.{Part, listed};
ghost use Rattle.pg_judge.specs.Heads.{heads_in, heads_of};
ghost use Rattle.pg_judge.specs.Judged.{HasTold, IsComplete, IsDue};

use crate::claim_head::ClaimHead;
use pg_base::Memory;
use pg_cert::Part;
use pg_check::{Checking, Rejected};
use pg_game::Game;
use std::alloc::Global;

/// What the parts of a certificate have said.
#[derive(Drop)]
pub struct Told<'a> {
    /// What was checked of them.
    pub(crate) checking: Checking<'a>,
    /// What the claims among them say.
    pub(crate) heads: Vec<ClaimHead>,
}

impl<'a> Told<'a> {
    /// No part has come yet.
    pub(crate) fn new(alloc: Global, game: &'a Game) -> Result<Told<'a>, Memory>
        ensures game { IfOk result (λ told. told.checking.game.now ≡ game.now) }
        ensures told { IfOk result (λ told. HasTold told []) }
    {
        Ok(Told {
            checking: Checking::begin(alloc, game)?,
            heads: Vec::new(alloc),
        })
    }

    /// Keeps what a claim says.
    fn keep(&mut self, part: &Part) -> Result<(), Memory>
        ensures checking { self.new.checking ≡ self.old.checking }
        ensures heads { IfOk result
            (λ _. self.new.heads.items ≡ self.old.heads.items ++ heads_in (part.now ∷ [])) }
    {
        if let Part::Claim {
            turn,
            side,
            goal,
            nodes,
        } = part
        {
            self.heads.push(ClaimHead {
                turn: *turn,
                side: *side,
                goal: *goal,
                nodes: *nodes,
            })?;
        }
        Ok(())
    }

    /// Tells one part more.
    fn part(&mut self, alloc: Global, part: &Part) -> Result<(), Memory>
        requires { IsDue self.old part.now }
        ensures game { self.new.checking.game ≡ self.old.checking.game }
        ensures told { IfOk result (λ _. (fed : List Part) → HasTold self.old fed
            → HasTold self.new (fed ++ part.now ∷ [])) }
    {
        self.keep(part)?;
        self.checking.part(alloc, part)
    }

    /// Tells one part more, where there is one.
    pub(crate) fn take(&mut self, alloc: Global, part: Option<Part>) -> Result<(), Memory>
        requires { IfSome part (IsDue self.old) }
        ensures game { self.new.checking.game ≡ self.old.checking.game }
        ensures told { IfOk result (λ _. (fed : List Part) → HasTold self.old fed
            → HasTold self.new (fed ++ listed part)) }
    {
        match part {
            Some(part) => self.part(alloc, &part),
            None => Ok(()),
        }
    }

    /// What the claims say where all parts of a valid certificate have come, and else its first
    /// fault.
    pub(crate) fn finish(self) -> Result<Vec<ClaimHead>, Rejected>
        requires { IsComplete self }
        ensures { (cert : Cert) → IsWithinLimits cert
            → HasTold self.entry (parts_of cert)
            → MatchResult result
            (λ heads. IsValid self.entry.checking.game.now cert × (heads.items ≡ heads_of cert))
            (λ rejected. IsFirstFault self.entry.checking.game.now cert rejected.claim rejected.node
            rejected.why) }
    {
        self.checking.finish()?;
        Ok(self.heads)
    }
}
