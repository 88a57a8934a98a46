//! Pictures of connectivity games and of claims of their certificates.
ghost use Rattle.std.specs.Prelude.{◌≡◌, IfNone, IfOk, IfSome, None, slice_get, string_bytes};
ghost use Rattle.pg_family_files.specs.SpanCertPrint.{IsWithinRanges};
ghost use Rattle.pg_span.specs.Valid.{IsFirstFlaw};
ghost use Rattle.pg_drawing.specs.Due.{DrawsSpanGame, DrawsSpanNode, IsFaultDue, IsFirstSpanNode};
ghost use Rattle.pg_drawing.specs.Due.{IsNodeDue, IsSpanCertDue, LacksSpanNode};
ghost use Rattle.pg_drawing.specs.Orders.{chosen_claim, node_of};

use crate::name::{NodeName, chosen_claim};
use crate::picturing::{Telling, no_node, text_of};
use pg_base::Memory;
use pg_captions::Look;
use pg_messages::{DONE, REFUSED};
use pg_scene::{scene_of_span_claim, scene_of_span_game, span_scenes_can_be_laid_out};
use pg_span::{SpanCert, SpanFault, SpanFlaw, SpanGame, span_check};
use std::alloc::Global;

/// The text of the picture of a connectivity game.
pub(crate) fn span_game_text(alloc: Global, look: Look, game: &SpanGame) -> Result<String, Memory>
    ensures { IfOk result (λ text. DrawsSpanGame look game.now (string_bytes text)) }
{
    span_scenes_can_be_laid_out();
    let scene = scene_of_span_game(alloc, game, look)?;
    Ok(text_of(alloc, look, &scene)?)
}

/// The text of the picture of a claim with its fault, and None exactly where the certificate has no
/// such claim.
fn claim_text(
    alloc: Global,
    look: Look,
    game: &SpanGame,
    cert: &SpanCert,
    claim: u32,
    fault: Option<u8>,
) -> Result<Option<String>, Memory>
    ensures drawn { IfOk result (λ found. IfSome found
        (λ text. DrawsSpanNode look game.now cert.now (node_of claim 0) fault
        (string_bytes text))) }
    ensures none { IfOk result (λ found. IfNone found (slice_get cert.now.claims claim ≡ None)) }
{
    span_scenes_can_be_laid_out();
    match scene_of_span_claim(alloc, game, cert, claim, fault, look)? {
        Some(scene) => Ok(Some(text_of(alloc, look, &scene)?)),
        None => Ok(None),
    }
}

/// The picture of the first faulty claim.
fn flawed(
    alloc: Global,
    look: Look,
    game: &SpanGame,
    cert: &SpanCert,
    claim: u32,
    why: SpanFlaw,
) -> Result<Telling, Memory>
    requires { IsFirstFlaw game.now cert.now claim why }
    ensures { IfOk result
        (λ told. IsFaultDue (DrawsSpanNode look game.now cert.now)
        (IsFirstSpanNode game.now cert.now) (string_bytes told.words) told.status) }
{
    let Some(words) = claim_text(alloc, look, game, cert, claim, Some(why.number()))? else {
        unreachable!();
    };
    Ok(Telling {
        words,
        status: REFUSED,
    })
}

/// The picture of a claim of a valid certificate, by the name of its one node, or that there is no
/// such node.
fn sound_claim(
    alloc: Global,
    look: Look,
    game: &SpanGame,
    cert: &SpanCert,
    name: NodeName,
) -> Result<Telling, Memory>
    ensures { IfOk result
        (λ told. IsNodeDue (DrawsSpanNode look game.now cert.now) (LacksSpanNode cert.now) name
        (string_bytes told.words) told.status) }
{
    if name.node != 0 {
        return no_node(alloc);
    }
    match claim_text(alloc, look, game, cert, name.claim, None)? {
        Some(words) => Ok(Telling {
            words,
            status: DONE,
        }),
        None => no_node(alloc),
    }
}

/// The picture of a claim of a certificate, which is checked first: the first faulty claim where it
/// isn't valid.
pub(crate) fn tell_span_certificate(
    alloc: Global,
    look: Look,
    game: &SpanGame,
    cert: &SpanCert,
    name: Option<NodeName>,
) -> Result<Telling, Memory>
    requires { IsWithinRanges cert.now }
    ensures { IfOk result (λ told. IsSpanCertDue look game.now cert.now (chosen_claim name)
        (string_bytes told.words) told.status) }
{
    match span_check(alloc, game, cert) {
        Ok(_) => sound_claim(alloc, look, game, cert, chosen_claim(name)),
        Err(SpanFault::Reject { claim, why }) => flawed(alloc, look, game, cert, claim, why),
        Err(SpanFault::Memory) => Err(Memory),
    }
}
