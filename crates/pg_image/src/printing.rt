//! The text of a certificate with images.
ghost use Rattle.std.specs.Prelude.{◌≡◌, ◌++◌, ◌∷◌, [], length, OnOk, IfOk, string_bytes};
ghost use Rattle.pg_image.specs.Prelude.{All, flat_map, LINE_FEED, spaced, count_words};
ghost use Rattle.pg_image.specs.Limits.{IsImageNode, IsImageClaim, IsImageWithinLimits};
ghost use Rattle.pg_image.specs.Print.{position_fields, image_words, image_node_text};
ghost use Rattle.pg_image.specs.Print.{image_claim_words, image_claim_text};
ghost use Rattle.pg_image.specs.Print.{printed_image_certificate};

use crate::cert::{ImageCert, ImageClaim};
use crate::node::ImageNode;
use pg_base::{Memory, PointSet, Side};
use pg_cert::{print_node, put_field, put_turn};
use pg_maps::GridMap;
use std::alloc::{AllocError, Global};
use std::fmt::Write;

/// Puts the three fields of a position, each with a bar after it.
#[tactic(auto, unfolding(crate::specs::Print::position_fields))]
fn put_fields(
    out: &mut String,
    x: &PointSet,
    y: &PointSet,
    turn: Side,
    left: u8,
) -> Result<(), AllocError>
    ensures { OnOk result
        (string_bytes out.new ≡ string_bytes out.old ++ position_fields x.now y.now turn left) }
{
    put_field(out, x)?;
    out.push_str("|")?;
    put_field(out, y)?;
    out.push_str("|")?;
    put_turn(out, turn, left)?;
    out.push_str("|")?;
    Ok(())
}

/// Puts the body of an image with its line feed.
fn put_body(out: &mut String, map: GridMap, child: u32) -> Result<(), AllocError>
    ensures { OnOk result
        (string_bytes out.new
        ≡ string_bytes out.old ++ (spaced (image_words map child) ++ LINE_FEED ∷ [])) }
{
    let number = map.number();
    write!(out, "image {number} {child}\n")?;
    Ok(())
}

/// Puts the line of a node; that of an image is written on `line` first.
fn put_node(
    alloc: Global,
    out: &mut Vec<u8>,
    line: &mut String,
    node: &ImageNode,
) -> Result<(), Memory>
    requires { IsImageNode node.now }
    ensures { OnOk result (out.new.items ≡ out.old.items ++ image_node_text node.now) }
{
    match node {
        ImageNode::Plain(node) => {
            let text = print_node(alloc, node)?;
            out.extend_from_slice(&text)?;
        }
        ImageNode::Image {
            x,
            y,
            turn,
            left,
            map,
            child,
        } => {
            line.clear();
            put_fields(line, x, y, *turn, *left)?;
            put_body(line, *map, *child)?;
            out.extend_from_slice(line.as_bytes())?;
        }
    }
    Ok(())
}

/// Puts node lines.
fn put_nodes(alloc: Global, out: &mut Vec<u8>, nodes: &[ImageNode]) -> Result<(), Memory>
    requires { All IsImageNode nodes.now }
    ensures { OnOk result (out.new.items ≡ out.old.items ++ flat_map image_node_text nodes.now) }
{
    let mut line = String::new(alloc);
    for node in nodes {
        put_node(alloc, out, &mut line, node)?;
    }
    Ok(())
}

/// The claim line and the `nodes` line of a claim.
fn claim_head(alloc: Global, claim: &ImageClaim) -> Result<String, AllocError>
    ensures { IfOk result (λ text. string_bytes text ≡ spaced (image_claim_words claim.now)
        ++ LINE_FEED ∷ (spaced (count_words (length claim.now.nodes)) ++ LINE_FEED ∷ [])) }
{
    let mut out = String::new(alloc);
    let turn = claim.turn.word();
    let side = claim.side.word();
    let goal = claim.goal.word();
    let count = claim.nodes.as_slice().len();
    write!(out, "claim {turn} {side} {goal}\nnodes {count}\n")?;
    Ok(out)
}

/// Puts a claim with its nodes.
#[tactic(auto, unfolding(crate::specs::Print::image_claim_text))]
fn put_claim(alloc: Global, out: &mut Vec<u8>, claim: &ImageClaim) -> Result<(), Memory>
    requires { IsImageClaim claim.now }
    ensures { OnOk result (out.new.items ≡ out.old.items ++ image_claim_text claim.now) }
{
    let head = claim_head(alloc, claim)?;
    out.extend_from_slice(head.as_bytes())?;
    put_nodes(alloc, out, claim.nodes.as_slice())
}

/// Puts claims with their nodes.
fn put_claims(alloc: Global, out: &mut Vec<u8>, claims: &[ImageClaim]) -> Result<(), Memory>
    requires { All IsImageClaim claims.now }
    ensures { OnOk result (out.new.items ≡ out.old.items ++ flat_map image_claim_text claims.now) }
{
    for claim in claims {
        put_claim(alloc, out, claim)?;
    }
    Ok(())
}

/// The text of a certificate within the limits of the format, with a line feed after every line.
///
/// `Memory` means that memory was refused.
#[tactic(auto, unfolding(crate::specs::Print::printed_image_certificate))]
pub fn print_image(alloc: Global, c: &ImageCert) -> Result<Vec<u8>, Memory>
    requires { IsImageWithinLimits c.now }
    ensures { IfOk result (λ text. text.items ≡ printed_image_certificate c.now) }
{
    let mut out = Vec::new(alloc);
    out.extend_from_slice(b"posgame-cert 3\n")?;
    put_claims(alloc, &mut out, c.claims.as_slice())?;
    Ok(out)
}
