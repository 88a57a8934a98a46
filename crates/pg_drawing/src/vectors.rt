//! Pictures of games on vectors and of nodes of their certificates.
ghost use Rattle.std.specs.Prelude.{◌≡◌, IfNone, IfOk, IfSome, string_bytes};
ghost use Rattle.pg_drawing.specs.Prelude.{IsFirstVecFault, IsWithinLimits};
ghost use Rattle.pg_drawing.specs.Due.{DrawsVectorGame, DrawsVectorNode, IsFaultDue};
ghost use Rattle.pg_drawing.specs.Due.{IsFirstVectorNode, IsNodeDue, IsVectorCertDue, LacksNamed};
ghost use Rattle.pg_drawing.specs.Orders.{chosen};

use crate::name::{NodeName, chosen};
use crate::picturing::{Telling, no_node, text_of};
use pg_base::Memory;
use pg_captions::Look;
use pg_cert::Cert;
use pg_gf2::{VecFault, VecFlaw, VecGame, vec_check};
use pg_messages::{DONE, REFUSED};
use pg_scene::{scene_of_vector_game, scene_of_vector_node, vector_scenes_can_be_laid_out};
use std::alloc::Global;

/// Returns the text of the picture of a game on vectors.
pub(crate) fn vector_game_text(alloc: Global, look: Look, game: &VecGame) -> Result<String, Memory>
    ensures { IfOk result (λ text. DrawsVectorGame look game.now (string_bytes text)) }
{
    vector_scenes_can_be_laid_out();
    let scene = scene_of_vector_game(alloc, game, look)?;
    Ok(text_of(alloc, look, &scene)?)
}

/// Returns the text of the picture of a node with its fault, and None exactly if the certificate
/// has no such node.
fn vector_node_text(
    alloc: Global,
    look: Look,
    game: &VecGame,
    cert: &Cert,
    name: NodeName,
    fault: Option<u8>,
) -> Result<Option<String>, Memory>
    ensures drawn { IfOk result (λ found. IfSome found
        (λ text. DrawsVectorNode look game.now cert.now name fault (string_bytes text))) }
    ensures none { IfOk result (λ found. IfNone found (LacksNamed cert.now name)) }
{
    vector_scenes_can_be_laid_out();
    match scene_of_vector_node(alloc, game, cert, name.claim, name.node, fault, look)? {
        Some(scene) => Ok(Some(text_of(alloc, look, &scene)?)),
        None => Ok(None),
    }
}

/// Returns the picture of the first faulty node.
fn faulty(
    alloc: Global,
    look: Look,
    game: &VecGame,
    cert: &Cert,
    name: NodeName,
    why: VecFlaw,
) -> Result<Telling, Memory>
    requires limits { IsWithinLimits cert.now }
    requires first { IsFirstVecFault game.now cert.now name.claim name.node why }
    ensures { IfOk result
        (λ told. IsFaultDue (DrawsVectorNode look game.now cert.now)
        (IsFirstVectorNode game.now cert.now) (string_bytes told.words) told.status) }
{
    let Some(words) = vector_node_text(alloc, look, game, cert, name, Some(why.number()))? else {
        unreachable!();
    };
    Ok(Telling {
        words,
        status: REFUSED,
    })
}

/// Returns the picture of a node of a valid certificate, or that there is no such node.
fn sound(
    alloc: Global,
    look: Look,
    game: &VecGame,
    cert: &Cert,
    name: NodeName,
) -> Result<Telling, Memory>
    ensures { IfOk result
        (λ told. IsNodeDue (DrawsVectorNode look game.now cert.now) (LacksNamed cert.now) name
        (string_bytes told.words) told.status) }
{
    match vector_node_text(alloc, look, game, cert, name, None)? {
        Some(words) => Ok(Telling {
            words,
            status: DONE,
        }),
        None => no_node(alloc),
    }
}

/// Returns the picture of a node of a certificate, which is checked first: the first faulty node if
/// it isn't valid.
pub(crate) fn tell_vector_certificate(
    alloc: Global,
    look: Look,
    game: &VecGame,
    cert: &Cert,
    name: Option<NodeName>,
) -> Result<Telling, Memory>
    requires { IsWithinLimits cert.now }
    ensures { IfOk result (λ told. IsVectorCertDue look game.now cert.now (chosen cert.now name)
        (string_bytes told.words) told.status) }
{
    match vec_check(alloc, game, cert) {
        Ok(_) => sound(alloc, look, game, cert, chosen(cert, name)),
        Err(VecFault::Reject { claim, node, why }) => {
            faulty(alloc, look, game, cert, NodeName { claim, node }, why)
        }
        Err(VecFault::Memory) => Err(Memory),
    }
}
