//! The own moves of a player, in the position p that it imagines.
ghost use Rattle.std.specs.Prelude.{◌≡◌, ◌≢◌, ◌<◌, ℕ, false, Option, drop, slice_get};
ghost use Rattle.pg_player.specs.Prelude.{Switching, MAX_MEMBERS, X, Y, Claim, Potential, Trees};
ghost use Rattle.pg_player.specs.Prelude.{Cuts, Threat, is_over, after, IsPosition, TreesHold};
ghost use Rattle.pg_player.specs.Prelude.{CutsHold, HasJoiner, IsSwitchingTurn, HeldUntil};
ghost use Rattle.pg_player.specs.InPlay.{InPlay, KeepsUp};
ghost use Rattle.pg_player.specs.Stand.{body_at, threat_of, standing_of};

use crate::standing::{Rest, Stand, arrive, body_at, threat_at};
use pg_base::Kind;
use pg_cert::{Body, Claim, with_e_named};
use pg_game::{Game, Position};
use pg_graph::Joiner;
use pg_switch::{CutPlan, ShortPlan};

/// An own move, and where the player stands after it.
#[derive(Clone, Copy, Debug)]
pub(crate) struct Made {
    /// The point.
    pub(crate) point: u16,
    /// Where the player stands.
    pub(crate) stand: Stand,
}

/// A move by which the player stays at its node, with what is left of the body.
fn stay(g: &Game, p: &Position, point: u16, rest: Rest, last: Option<u16>) -> Made
    requires { point < MAX_MEMBERS }
    ensures { result ≡ record {
      point = point;
      stand = record { rest = rest; last = last; imagined = after g.now p.now point };
    } }
{
    Made {
        point,
        stand: Stand {
            rest,
            last,
            imagined: g.after(p, point),
        },
    }
}

/// The own move by the potential of the game's kind.
fn potential_point(g: &Game, claim: &Claim, p: &Position) -> u16
    requires lines { g.now.kind ≢ Switching }
    requires position { IsPosition g.now p.now }
    requires going { is_over g.now p.now ≡ false }
    requires turn { p.now.turn ≡ claim.now.side }
    ensures { (last : Option ℕ) → InPlay g.now claim.now (record {
      body = Potential;
      last = last;
      imagined = p.now;
    })
        → KeepsUp g.now claim.now (record {
          body = Potential;
          last = last;
          imagined = p.now;
        }) result (record { body = Potential; last = last; imagined = after g.now p.now result }) }
{
    match g.kind {
        Kind::AvoiderEnforcer => pg_potential::avoider::answer(g, p),
        Kind::MakerBreaker | Kind::MakerMaker => pg_potential::answer(g, p, claim.side),
        Kind::Switching => unreachable!(),
    }
}

/// Short's own move by a plan.
fn trees_move(
    g: &Game,
    joiner: &mut Option<Joiner>,
    p: &Position,
    plan: ShortPlan,
    last: Option<u16>,
) -> Made
    requires turn { IsSwitchingTurn g.now p.now X }
    requires joined { HasJoiner joiner.old g.now }
    requires held { HeldUntil g.now p.now (λ q. TreesHold g.now q plan.first plan.second) last }
    ensures keeps { (c : Claim) → InPlay g.now c (record {
      body = Trees false plan.first plan.second;
      last = last;
      imagined = p.now;
    })
        → KeepsUp g.now c (record {
          body = Trees false plan.first plan.second;
          last = last;
          imagined = p.now;
        }) result.point (standing_of c.nodes result.stand) }
    ensures joined { joiner.new ≡ joiner.old }
{
    let Some(joiner) = joiner else { unreachable!() };
    let mut plan = plan;
    let point = plan.answer(g, joiner, p, last);
    stay(g, p, point, Rest::Short(plan), last)
}

/// Cut's own move by a plan.
fn cuts_move(
    g: &Game,
    joiner: &mut Option<Joiner>,
    p: &Position,
    plan: CutPlan,
    last: Option<u16>,
) -> Made
    requires turn { IsSwitchingTurn g.now p.now Y }
    requires joined { HasJoiner joiner.old g.now }
    requires held { HeldUntil g.now p.now (λ q. CutsHold g.now q plan.first plan.second) last }
    ensures keeps { (c : Claim) → InPlay g.now c (record {
      body = Cuts false plan.first plan.second;
      last = last;
      imagined = p.now;
    })
        → KeepsUp g.now c (record {
          body = Cuts false plan.first plan.second;
          last = last;
          imagined = p.now;
        }) result.point (standing_of c.nodes result.stand) }
    ensures joined { joiner.new ≡ joiner.old }
{
    let Some(joiner) = joiner else { unreachable!() };
    let mut plan = plan;
    let point = plan.answer(g, joiner, p, last);
    stay(g, p, point, Rest::Cut(plan), last)
}

/// The next attack of the threat line of the node of that number, from a place on.
fn line_move(
    g: &Game,
    claim: &Claim,
    p: &Position,
    number: usize,
    from: usize,
    last: Option<u16>,
) -> Made
    requires playing { InPlay g.now claim.now (record {
      body = Threat (drop from (threat_of (body_at (slice_get claim.now.nodes number))));
      last = last;
      imagined = p.now;
    }) }
    requires going { is_over g.now p.now ≡ false }
    requires turn { p.now.turn ≡ claim.now.side }
    ensures { KeepsUp g.now claim.now (record {
      body = Threat (drop from (threat_of (body_at (slice_get claim.now.nodes number))));
      last = last;
      imagined = p.now;
    }) result.point (standing_of claim.now.nodes result.stand) }
{
    let point = threat_at(claim, number)[from];
    stay(g, p, point, Rest::Line(number, from + 1), last)
}

/// The own move at a node's body.
fn body_move(
    g: &Game,
    claim: &Claim,
    joiner: &mut Option<Joiner>,
    p: &Position,
    number: usize,
    body: &Body,
    last: Option<u16>,
) -> Made
    requires body { body.now ≡ body_at (slice_get claim.now.nodes number) }
    requires playing { InPlay g.now claim.now (record {
      body = body.now;
      last = last;
      imagined = p.now;
    }) }
    requires joined { HasJoiner joiner.old g.now }
    requires going { is_over g.now p.now ≡ false }
    requires turn { p.now.turn ≡ claim.now.side }
    ensures keeps { KeepsUp g.now claim.now (record {
      body = body.now;
      last = last;
      imagined = p.now;
    }) result.point (standing_of claim.now.nodes result.stand) }
    ensures joined { joiner.new ≡ joiner.old }
{
    let whole = Rest::Whole(number);
    match body {
        Body::Move { point, child } => Made {
            point: *point,
            stand: arrive(claim, *child as usize),
        },
        Body::Pairs(pairs) => {
            let point = pg_pairing::answer(g, p, pairs.as_slice(), last);
            stay(g, p, point, whole, last)
        }
        Body::Potential => stay(g, p, potential_point(g, claim, p), whole, last),
        Body::Trees {
            with_e,
            first,
            second,
        } => {
            let plan = ShortPlan::start(with_e_named(g, *with_e, first.as_set()), *second.as_set());
            trees_move(g, joiner, p, plan, last)
        }
        Body::Cuts {
            with_e,
            first,
            second,
        } => {
            let plan = CutPlan::start(with_e_named(g, *with_e, first.as_set()), *second.as_set());
            cuts_move(g, joiner, p, plan, last)
        }
        Body::Threat(_) => line_move(g, claim, p, number, 0, last),
        Body::Over | Body::All(_) | Body::Weaker { .. } => unreachable!(),
    }
}

/// The player's own move where it stands, in an imagined game that goes on, and where it stands
/// after it. It takes no memory, and leaves the joiner as it was.
pub(crate) fn own_move(g: &Game, claim: &Claim, joiner: &mut Option<Joiner>, stand: Stand) -> Made
    requires playing { InPlay g.now claim.now (standing_of claim.now.nodes stand) }
    requires joined { HasJoiner joiner.old g.now }
    requires going { is_over g.now stand.imagined ≡ false }
    requires turn { stand.imagined.turn ≡ claim.now.side }
    ensures keeps { KeepsUp g.now claim.now (standing_of claim.now.nodes stand) result.point
        (standing_of claim.now.nodes result.stand) }
    ensures joined { joiner.new ≡ joiner.old }
{
    let Stand {
        rest,
        last,
        imagined,
    } = stand;
    let p = &imagined;
    match rest {
        Rest::Whole(number) => {
            let body = body_at(claim, number);
            body_move(g, claim, joiner, p, number, body, last)
        }
        Rest::Short(plan) => trees_move(g, joiner, p, plan, last),
        Rest::Cut(plan) => cuts_move(g, joiner, p, plan, last),
        Rest::Line(number, from) => line_move(g, claim, p, number, from, last),
        Rest::Last(point) => stay(g, p, point, Rest::Won, last),
        Rest::Won => unreachable!(),
    }
}
