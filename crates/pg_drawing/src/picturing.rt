//! Pictures of games and of nodes, with what else there may be to say of a certificate.
ghost use Rattle.std.specs.Prelude.{◌≡◌, IfNone, IfOk, IfSome, string_bytes};
ghost use Rattle.pg_drawing.specs.Prelude.{IsWithinLimits, IsFirstFault};
ghost use Rattle.pg_scene.specs.Limits.{IsScene};
ghost use Rattle.pg_drawing.specs.Due.{DrawsGame, DrawsNode, IsCertDue, IsFaultDue, IsFirstNamed};
ghost use Rattle.pg_drawing.specs.Due.{IsNodeDue, LacksNamed, SaysNoNode, scene_text};
ghost use Rattle.pg_drawing.specs.Orders.{chosen};

use crate::name::{NodeName, chosen};
use pg_base::Memory;
use pg_captions::Look;
use pg_cert::Cert;
use pg_check::{CheckFault, check};
use pg_game::Game;
use pg_messages::{DONE, NO_MEANING, REFUSED};
use pg_picture::print_picture;
use pg_scene::{Scene, scene_of_game, scene_of_node, scenes_can_be_laid_out};
use std::alloc::Global;

/// What is said where the certificate has no such node.
pub const NO_NODE: &str = "words: no such node\n";

/// What there is to say, and the status that goes with it.
#[derive(Debug, Drop)]
pub struct Telling {
    /// The text.
    pub words: String,
    /// The status.
    pub status: u8,
}

/// The text of the picture of a scene.
pub(crate) fn text_of(alloc: Global, look: Look, scene: &Scene) -> Result<String, Memory>
    requires { IsScene scene.now }
    ensures { IfOk result (λ text. string_bytes text ≡ scene_text look scene.now) }
{
    let picture = pg_draw::draw(alloc, scene, look)?;
    Ok(print_picture(alloc, &picture)?)
}

/// That there is no such node.
pub(crate) fn no_node(alloc: Global) -> Result<Telling, Memory>
    ensures { IfOk result (λ told. SaysNoNode (string_bytes told.words) told.status) }
{
    Ok(Telling {
        words: String::from_str(alloc, NO_NODE)?,
        status: NO_MEANING,
    })
}

/// The text of the picture of a game.
pub(crate) fn game_text(alloc: Global, look: Look, game: &Game) -> Result<String, Memory>
    ensures { IfOk result (λ text. DrawsGame look game.now (string_bytes text)) }
{
    scenes_can_be_laid_out();
    let scene = scene_of_game(alloc, game, look)?;
    Ok(text_of(alloc, look, &scene)?)
}

/// The text of the picture of a node with its fault, and None exactly where the certificate has no
/// such node.
fn node_text(
    alloc: Global,
    look: Look,
    game: &Game,
    cert: &Cert,
    name: NodeName,
    fault: Option<u8>,
) -> Result<Option<String>, Memory>
    ensures drawn { IfOk result (λ found. IfSome found
        (λ text. DrawsNode look game.now cert.now name fault (string_bytes text))) }
    ensures none { IfOk result (λ found. IfNone found (LacksNamed cert.now name)) }
{
    scenes_can_be_laid_out();
    match scene_of_node(alloc, game, cert, name.claim, name.node, fault, look)? {
        Some(scene) => Ok(Some(text_of(alloc, look, &scene)?)),
        None => Ok(None),
    }
}

/// The picture of the first faulty node.
fn faulty(
    alloc: Global,
    look: Look,
    game: &Game,
    cert: &Cert,
    name: NodeName,
    why: u8,
) -> Result<Telling, Memory>
    requires { IsFirstFault game.now cert.now name.claim name.node why }
    ensures { IfOk result
        (λ told. IsFaultDue (DrawsNode look game.now cert.now) (IsFirstNamed game.now cert.now)
        (string_bytes told.words) told.status) }
{
    let Some(words) = node_text(alloc, look, game, cert, name, Some(why))? else {
        unreachable!();
    };
    Ok(Telling {
        words,
        status: REFUSED,
    })
}

/// The picture of a node of a valid certificate, or that there is no such node.
fn sound(
    alloc: Global,
    look: Look,
    game: &Game,
    cert: &Cert,
    name: NodeName,
) -> Result<Telling, Memory>
    ensures { IfOk result
        (λ told. IsNodeDue (DrawsNode look game.now cert.now) (LacksNamed cert.now) name
        (string_bytes told.words) told.status) }
{
    match node_text(alloc, look, game, cert, name, None)? {
        Some(words) => Ok(Telling {
            words,
            status: DONE,
        }),
        None => no_node(alloc),
    }
}

/// The picture of a node of a certificate, which is checked first: the first faulty node where it
/// isn't valid.
pub(crate) fn tell_certificate(
    alloc: Global,
    look: Look,
    game: &Game,
    cert: &Cert,
    name: Option<NodeName>,
) -> Result<Telling, Memory>
    requires { IsWithinLimits cert.now }
    ensures { IfOk result (λ told. IsCertDue look game.now cert.now (chosen cert.now name)
        (string_bytes told.words) told.status) }
{
    match check(alloc, game, cert) {
        Ok(_) => sound(alloc, look, game, cert, chosen(cert, name)),
        Err(CheckFault::Reject { claim, node, why }) => {
            faulty(alloc, look, game, cert, NodeName { claim, node }, why)
        }
        Err(CheckFault::Memory) => Err(Memory),
    }
}
