//! Where a player stands, and where it goes.
ghost use Rattle.std.specs.Prelude.{◌≡◌, ◌==◌, ◌<◌, ◌-◌, Some, drop, length, find, option_map};
ghost use Rattle.std.specs.Prelude.{slice_get};
ghost use Rattle.pg_player.specs.Prelude.{MAX_MEMBERS, settled, arrives, replied_by, Threat, after};
ghost use Rattle.pg_player.specs.Prelude.{Game, Position};
ghost use Rattle.pg_player.specs.Stand.{body_at, body_of, threat_of, standing_of, Settles, LeadsOn};

use pg_cert::{Body, Claim, Reply};
use pg_game::{Game, Position};
use pg_switch::{CutPlan, ShortPlan};

/// What is left of the body of the node where the player stands.
#[derive(Clone, Copy, Debug)]
pub(crate) enum Rest {
    /// The body as the node of that number has it.
    Whole(usize),
    /// The trees that Short's answers have left.
    Short(ShortPlan),
    /// The cuts that Cut's answers have left.
    Cut(CutPlan),
    /// The threat line of the node of that number, from that place on.
    Line(usize, usize),
    /// The point that the other side left, as the last attack.
    Last(u16),
    /// Nothing of a threat line.
    Won,
}

/// Where the player stands.
#[derive(Clone, Copy, Debug)]
pub(crate) struct Stand {
    /// What is left of the body.
    pub(crate) rest: Rest,
    /// The last imagined reply since the player came to the node, and none where none has come.
    pub(crate) last: Option<u16>,
    /// The position that the player imagines.
    pub(crate) imagined: Position,
}

/// The number of the first node from that one on, from `weaker` to its child, that has another
/// body. Children are earlier, so no node is met twice.
fn settle(claim: &Claim, number: usize) -> usize
    requires { Settles claim.now.nodes number }
    ensures { slice_get claim.now.nodes result ≡ settled claim.now.nodes number }
{
    let nodes = claim.nodes.as_slice();
    let mut at = number;
    for _step in 0..nodes.len() {
        let Body::Weaker { child } = &nodes[at].body else {
            return at;
        };
        at = *child as usize;
    }
    unreachable!()
}

/// Where a player stands that comes to the node of that number: it goes on to the first node with
/// another body than `weaker`, and imagines its position.
pub(crate) fn arrive(claim: &Claim, number: usize) -> Stand
    requires { Settles claim.now.nodes number }
    ensures { arrives claim.now.nodes number ≡ Some (standing_of claim.now.nodes result) }
{
    let settled = settle(claim, number);
    Stand {
        rest: Rest::Whole(settled),
        last: None,
        imagined: claim.nodes.as_slice()[settled].position(),
    }
}

/// Where a player stands at first: it comes to the last node of its claim.
pub(crate) fn root(claim: &Claim) -> Stand
    requires some { 0 < length claim.now.nodes }
    requires settles { Settles claim.now.nodes (length claim.now.nodes - 1) }
    ensures { arrives claim.now.nodes (length claim.now.nodes - 1)
        ≡ Some (standing_of claim.now.nodes result) }
{
    arrive(claim, claim.nodes.as_slice().len() - 1)
}

/// Where a player stands that stays after the reply w, which it imagines in the position q.
fn stay(g: &Game, rest: Rest, q: &Position, w: u16) -> Stand
    requires { w < MAX_MEMBERS }
    ensures { result ≡ record { rest = rest; last = Some w; imagined = after g.now q.now w } }
{
    Stand {
        rest,
        last: Some(w),
        imagined: g.after(q, w),
    }
}

/// The reply that takes the point.
fn find_reply(replies: &[Reply], v: u16) -> Option<&Reply>
    ensures { option_map (λ r. r.now) result ≡ find (λ r. r.point == v) replies.now }
{
    replies.iter().find(|reply| reply.point == v)
}

/// The body of the node of that number.
pub(crate) fn body_at(claim: &Claim, number: usize) -> &Body
    requires { number < length claim.now.nodes }
    ensures { result.now ≡ body_at (slice_get claim.now.nodes number) }
{
    &claim.nodes.as_slice()[number].body
}

/// The points of the threat line of the node of that number, and none where it has another body.
pub(crate) fn threat_at(claim: &Claim, number: usize) -> &[u16]
    ensures { result.now ≡ threat_of (body_at (slice_get claim.now.nodes number)) }
{
    let Some(node) = claim.nodes.as_slice().get(number) else {
        return &[];
    };
    match &node.body {
        Body::Threat(points) => points.as_slice(),
        _ => &[],
    }
}

/// What is left of the threat line from a place on after a reply: the rest where the point there
/// was taken, and else that point.
fn line_replied(claim: &Claim, number: usize, from: usize, w: u16) -> Rest
    requires { LeadsOn claim.now.nodes
        (Threat (drop from (threat_of (body_at (slice_get claim.now.nodes number))))) w }
    ensures { (g : Game) → (q : Position)
        → replied_by (Threat (drop from (threat_of (body_at (slice_get claim.now.nodes number))))) g
        claim.now.nodes q w ≡ Some (record {
          body = body_of claim.now.nodes result;
          last = Some w;
          imagined = after g q w;
        }) }
{
    let u = threat_at(claim, number)[from];
    if u == w {
        Rest::Line(number, from + 1)
    } else {
        Rest::Last(u)
    }
}

/// Where the player stands at a node's body after the reply w, which it imagines in the position q:
/// on at the child where all replies are named, else it stays.
fn body_replied(g: &Game, claim: &Claim, number: usize, body: &Body, q: &Position, w: u16) -> Stand
    requires body { body.now ≡ body_at (slice_get claim.now.nodes number) }
    requires leads { LeadsOn claim.now.nodes body.now w }
    requires small { w < MAX_MEMBERS }
    ensures { replied_by body.now g.now claim.now.nodes q.now w
        ≡ Some (standing_of claim.now.nodes result) }
{
    match body {
        Body::All(replies) => match find_reply(replies.as_slice(), w) {
            Some(reply) => arrive(claim, reply.child as usize),
            None => unreachable!(),
        },
        Body::Threat(_) => stay(g, line_replied(claim, number, 0, w), q, w),
        _ => stay(g, Rest::Whole(number), q, w),
    }
}

/// Where the player stands after a reply w that is legal in the position that it imagines, and that
/// it imagines there.
pub(crate) fn replied(g: &Game, claim: &Claim, stand: Stand, w: u16) -> Stand
    requires leads { LeadsOn claim.now.nodes (body_of claim.now.nodes stand.rest) w }
    requires small { w < MAX_MEMBERS }
    ensures { replied_by (body_of claim.now.nodes stand.rest) g.now claim.now.nodes stand.imagined w
        ≡ Some (standing_of claim.now.nodes result) }
{
    let Stand { rest, imagined, .. } = stand;
    let q = &imagined;
    match rest {
        Rest::Whole(number) => body_replied(g, claim, number, body_at(claim, number), q, w),
        Rest::Line(number, from) => stay(g, line_replied(claim, number, from, w), q, w),
        Rest::Last(u) => stay(g, if u == w { Rest::Won } else { rest }, q, w),
        Rest::Short(_) | Rest::Cut(_) | Rest::Won => stay(g, rest, q, w),
    }
}
