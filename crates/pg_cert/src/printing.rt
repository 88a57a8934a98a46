//! The text of a certificate.

ghost use Rattle.std.specs.Prelude.{◌≡◌, ◌++◌, ◌∷◌, [], map, OnOk, IfOk, string_bytes};
ghost use Rattle.pg_cert.specs.Prelude.{decimal, flat_map, BAR, spaced, behind_spaces};
ghost use Rattle.pg_cert.specs.Limits.{IsNode, IsWithinLimits};
ghost use Rattle.pg_cert.specs.Print.{set_words, reply_word, pair_word, e_words};
ghost use Rattle.pg_cert.specs.Print.{edge_words, body_name, body_words, body_text, turn_word};
ghost use Rattle.pg_cert.specs.Print.{node_text, claim_text, header, printed_certificate};

use crate::cert::{Cert, Claim, Version};
use crate::node::{Body, Node};
use crate::reply::Reply;
use pg_base::{Members, Memory, Pair, PointSet, Side};
use std::alloc::{AllocError, Global};
use std::fmt::Write;

/// Puts the points of a set, with a space between each two.
pub fn put_field(out: &mut String, set: &PointSet) -> Result<(), AllocError>
    ensures { OnOk result
        (string_bytes out.new ≡ string_bytes out.old ++ spaced (set_words set.now)) }
{
    let mut members = Members::of(set);
    let Some(first) = members.next() else {
        return Ok(());
    };
    write!(out, "{first}")?;
    put_members(out, members)
}

/// Puts the points of a set, each after a space.
pub fn put_set(out: &mut String, set: &PointSet) -> Result<(), AllocError>
    ensures { OnOk result
        (string_bytes out.new ≡ string_bytes out.old ++ behind_spaces (set_words set.now)) }
{
    put_members(out, Members::of(set))
}

/// Puts members of a set, each after a space.
fn put_members(out: &mut String, members: Members) -> Result<(), AllocError>
    ensures { OnOk result
        (string_bytes out.new
        ≡ string_bytes out.old ++ behind_spaces (map decimal members.entry)) }
{
    for v in members {
        write!(out, " {v}")?;
    }
    Ok(())
}

/// Puts points, each after a space.
fn put_points(out: &mut String, points: &[u16]) -> Result<(), AllocError>
    ensures { OnOk result
        (string_bytes out.new ≡ string_bytes out.old ++ behind_spaces (map decimal points.now)) }
{
    for p in points {
        write!(out, " {p}")?;
    }
    Ok(())
}

/// Puts replies, each after a space.
fn put_replies(out: &mut String, replies: &[Reply]) -> Result<(), AllocError>
    ensures { OnOk result
        (string_bytes out.new
        ≡ string_bytes out.old ++ behind_spaces (map reply_word replies.now)) }
{
    for reply in replies {
        let point = reply.point;
        let child = reply.child;
        write!(out, " {point}:{child}")?;
    }
    Ok(())
}

/// Puts pairs, each after a space.
fn put_pairs(out: &mut String, pairs: &[Pair]) -> Result<(), AllocError>
    ensures { OnOk result
        (string_bytes out.new ≡ string_bytes out.old ++ behind_spaces (map pair_word pairs.now)) }
{
    for pair in pairs {
        let a = pair.a;
        let b = pair.b;
        write!(out, " {a}-{b}")?;
    }
    Ok(())
}

/// Puts the word that says that the first set holds the further edge.
fn put_e(out: &mut String, with_e: bool) -> Result<(), AllocError>
    ensures { OnOk result
        (string_bytes out.new ≡ string_bytes out.old ++ behind_spaces (e_words with_e)) }
{
    if with_e {
        out.push_str(" e")?;
    }
    Ok(())
}

/// Puts two sets of edges.
fn put_edges(
    out: &mut String,
    with_e: bool,
    first: &PointSet,
    second: &PointSet,
) -> Result<(), AllocError>
    ensures { OnOk result
        (string_bytes out.new
        ≡ string_bytes out.old ++ behind_spaces (edge_words with_e first.now second.now)) }
{
    put_e(out, with_e)?;
    put_set(out, first)?;
    out.push_str(" /")?;
    put_set(out, second)
}

/// The first word of a body.
fn body_name(body: &Body) -> &'static str
    ensures { result.now ≡ body_name body.now }
{
    match body {
        Body::Over => "over",
        Body::Move { .. } => "move",
        Body::All(_) => "all",
        Body::Pairs(_) => "pairs",
        Body::Potential => "potential",
        Body::Trees { .. } => "trees",
        Body::Cuts { .. } => "cuts",
        Body::Threat(_) => "threat",
        Body::Weaker { .. } => "weaker",
    }
}

/// Puts the words of a body after the first.
fn put_words(out: &mut String, body: &Body) -> Result<(), AllocError>
    ensures { OnOk result
        (string_bytes out.new ≡ string_bytes out.old ++ behind_spaces (body_words body.now)) }
{
    match body {
        Body::Over | Body::Potential => Ok(()),
        Body::Move { point, child } => put_move(out, *point, *child),
        Body::All(replies) => put_replies(out, replies.as_slice()),
        Body::Pairs(pairs) => put_pairs(out, pairs.as_slice()),
        Body::Trees {
            with_e,
            first,
            second,
        }
        | Body::Cuts {
            with_e,
            first,
            second,
        } => put_edges(out, *with_e, first.as_set(), second.as_set()),
        Body::Threat(points) => put_points(out, points.as_slice()),
        Body::Weaker { child } => put_child(out, *child),
    }
}

/// Puts a child after a space.
fn put_child(out: &mut String, child: u32) -> Result<(), AllocError>
    ensures { OnOk result
        (string_bytes out.new ≡ string_bytes out.old ++ behind_spaces (decimal child ∷ [])) }
{
    write!(out, " {child}")?;
    Ok(())
}

/// Puts a point and a child, each after a space.
fn put_move(out: &mut String, point: u16, child: u32) -> Result<(), AllocError>
    ensures { OnOk result
        (string_bytes out.new
        ≡ string_bytes out.old ++ behind_spaces (decimal point ∷ decimal child ∷ [])) }
{
    write!(out, " {point} {child}")?;
    Ok(())
}

/// Puts a turn: the side, and how many points it still claims, where these are several.
#[tactic(auto, unfolding(crate::specs::Print::turn_word))]
pub fn put_turn(out: &mut String, turn: Side, left: u8) -> Result<(), AllocError>
    ensures { OnOk result (string_bytes out.new ≡ string_bytes out.old ++ turn_word turn left) }
{
    let side = turn.word();
    if left > 1 {
        write!(out, "{side}{left}")?;
        return Ok(());
    }
    out.push_str(side)
}

/// Puts a body.
fn put_body(out: &mut String, body: &Body) -> Result<(), AllocError>
    ensures { OnOk result (string_bytes out.new ≡ string_bytes out.old ++ body_text body.now) }
{
    out.push_str(body_name(body))?;
    put_words(out, body)
}

/// Puts the points of both sides, with a bar between them.
fn put_sides(out: &mut String, x: &PointSet, y: &PointSet) -> Result<(), AllocError>
    ensures { OnOk result
        (string_bytes out.new
        ≡ string_bytes out.old ++ (spaced (set_words x.now) ++ BAR ∷ spaced (set_words y.now))) }
{
    put_field(out, x)?;
    out.push_str("|")?;
    put_field(out, y)
}

/// Puts a node line.
#[tactic(auto, unfolding(crate::specs::Print::node_text))]
fn put_node(out: &mut String, n: &Node) -> Result<(), AllocError>
    ensures { OnOk result (string_bytes out.new ≡ string_bytes out.old ++ node_text n.now) }
{
    put_sides(out, &n.x, &n.y)?;
    out.push_str("|")?;
    put_turn(out, n.turn, n.left)?;
    out.push_str("|")?;
    put_body(out, &n.body)?;
    out.push_str("\n")?;
    Ok(())
}

/// Puts node lines.
fn put_nodes(out: &mut String, nodes: &[Node]) -> Result<(), AllocError>
    ensures { OnOk result
        (string_bytes out.new ≡ string_bytes out.old ++ flat_map node_text nodes.now) }
{
    for node in nodes {
        put_node(out, node)?;
    }
    Ok(())
}

/// Puts a claim with its nodes.
#[tactic(auto, unfolding(crate::specs::Print::claim_text))]
fn put_claim(out: &mut String, claim: &Claim) -> Result<(), AllocError>
    ensures { OnOk result (string_bytes out.new ≡ string_bytes out.old ++ claim_text claim.now) }
{
    let turn = claim.turn.word();
    let side = claim.side.word();
    let goal = claim.goal.word();
    let nodes = claim.nodes.as_slice();
    let count = nodes.len();
    write!(out, "claim {turn} {side} {goal}\nnodes {count}\n")?;
    put_nodes(out, nodes)
}

/// Puts claims with their nodes.
fn put_claims(out: &mut String, claims: &[Claim]) -> Result<(), AllocError>
    ensures { OnOk result
        (string_bytes out.new ≡ string_bytes out.old ++ flat_map claim_text claims.now) }
{
    for claim in claims {
        put_claim(out, claim)?;
    }
    Ok(())
}

/// The first line of a certificate of the version.
fn header(version: Version) -> &'static str
    ensures { result.now ≡ header version }
{
    match version {
        Version::One => "posgame-cert 1",
        Version::Two => "posgame-cert 2",
    }
}

/// The text of a certificate within the limits of the format, with a line feed after every line.
#[tactic(auto, unfolding(crate::specs::Print::printed_certificate))]
pub fn print_cert(alloc: Global, c: &Cert) -> Result<Vec<u8>, Memory>
    requires { IsWithinLimits c.now }
    ensures { IfOk result (λ text. text.items ≡ printed_certificate c.now) }
{
    let mut out = String::new(alloc);
    out.push_str(header(c.version))?;
    out.push_str("\n")?;
    put_claims(&mut out, c.claims.as_slice())?;
    Ok(out.into_bytes())
}

/// The line of a node of a certificate, with its line feed.
pub fn print_node(alloc: Global, n: &Node) -> Result<Vec<u8>, Memory>
    requires { IsNode n.now }
    ensures { IfOk result (λ text. text.items ≡ node_text n.now) }
{
    let mut out = String::new(alloc);
    put_node(&mut out, n)?;
    Ok(out.into_bytes())
}
