//! Checking what a certificate with images stands for, of which each node is made, checked and
//! dropped.
ghost use Rattle.std.specs.Prelude.{◌≡◌, ◌++◌, ◌∷◌, [], List, map, IfOk, IfSome};
ghost use Rattle.pg_evidence.specs.Prelude.{Claim, IsImageWithinLimits, Part, all_parts};
ghost use Rattle.pg_check.specs.Checking.{AreNext, StandsFor as IsChecked};
ghost use Rattle.pg_evidence.specs.Feeding.{AreFed, FindsInFolded, HasFed, HasRoomFor, IsFedClaim};
ghost use Rattle.pg_evidence.specs.Feeding.{IsOpenFor, listed};
ghost use Rattle.pg_evidence.specs.Standing.{CameFrom, HasOrigin};
ghost use Rattle.pg_unfold.specs.Flaws.{IsFaultless, IsSoundClaim};
ghost use Rattle.pg_unfold.specs.Layouts.{AreLaidOut, IsLaidOut, copy_count, size_in};

use pg_base::Memory;
use pg_cert::{Node, NodePart, Part};
use pg_check::{Checking, Rejected};
use pg_game::Game;
use pg_image::{ImageCert, ImageClaim};
use pg_unfold::{Layout, Origins};
use std::alloc::Global;

/// Feeds a checking with a node, where there is one, which is dropped with that.
fn feed_node(alloc: Global, checking: &mut Checking<'_>, next: Option<Node>) -> Result<(), Memory>
    requires { IfSome next (λ node. AreNext checking.old (Part.Node node ∷ [])) }
    ensures game { checking.new.game ≡ checking.old.game }
    ensures fed { IfOk result (λ _. (fed : List Part) → IsChecked checking.old fed
        → IsChecked checking.new (fed ++ map Part.Node (listed next))) }
{
    match next {
        Some(node) => checking.part(alloc, &Part::Node(NodePart::new(alloc, node)?)),
        None => Ok(()),
    }
}

/// Feeds a checking with the nodes of a claim's unfolding, one after the other.
fn feed_copies(
    alloc: Global,
    checking: &mut Checking<'_>,
    game: &Game,
    claim: &ImageClaim,
    layout: &Layout,
) -> Result<(), Memory>
    requires laid { IsLaidOut claim.now layout.now }
    requires sound { IsSoundClaim game.now claim.now }
    requires next { IsOpenFor checking.old (size_in layout.now) }
    ensures game { checking.new.game ≡ checking.old.game }
    ensures fed { IfOk result (λ _. HasFed game.now claim.now layout.now checking.old
        (copy_count layout.now) checking.new) }
{
    for key in 0..layout.copies() {
        let next = layout.copied(alloc, game, claim, key)?;
        feed_node(alloc, checking, next)?;
    }
    Ok(())
}

/// Feeds a checking with a claim's unfolding.
fn feed_claim(
    alloc: Global,
    checking: &mut Checking<'_>,
    game: &Game,
    claim: &ImageClaim,
    layout: &Layout,
) -> Result<(), Memory>
    requires laid { IsLaidOut claim.now layout.now }
    requires sound { IsSoundClaim game.now claim.now }
    requires room { HasRoomFor checking.old (size_in layout.now) }
    ensures game { checking.new.game ≡ checking.old.game }
    ensures fed { IfOk result (λ _. (whole : List Claim) → IsChecked checking.old (all_parts whole)
        → IsFedClaim game.now claim.now layout.now whole checking.new) }
{
    let head = Part::Claim {
        turn: claim.turn,
        side: claim.side,
        goal: claim.goal,
        nodes: layout.size(),
    };
    checking.part(alloc, &head)?;
    feed_copies(alloc, checking, game, claim, layout)
}

/// Feeds a checking with the unfolding of all claims, and tells from which node each of its nodes
/// came.
fn feed_claims(
    alloc: Global,
    checking: &mut Checking<'_>,
    game: &Game,
    certificate: &ImageCert,
    layouts: &[Layout],
) -> Result<Vec<Origins>, Memory>
    requires limits { IsImageWithinLimits certificate.now }
    requires laid { AreLaidOut certificate.now layouts.now }
    requires sound { IsFaultless game.now certificate.now }
    requires first { IsChecked checking.old [] }
    ensures game { checking.new.game ≡ checking.old.game }
    ensures fed { IfOk result (λ sources. AreFed game.now certificate.now.claims layouts.now
        sources.items checking.new) }
{
    let claims = certificate.claims.as_slice();
    let mut sources = Vec::new(alloc);
    for i in 0..claims.len() {
        let claim = &claims[i];
        let layout = &layouts[i];
        feed_claim(alloc, checking, game, claim, layout)?;
        let origins = layout.origins(alloc, claim)?;
        sources.push(origins)?;
    }
    Ok(sources)
}

/// The number of the node from which the one at this place of an unfolded claim came.
fn origin_of(sources: &[Origins], claim: u32, place: u32) -> u32
    requires { HasOrigin sources.now claim place }
    ensures { CameFrom sources.now claim place result }
{
    sources[claim as usize].as_slice()[place as usize]
}

/// The verdict on the unfolding of a certificate with images that has no fault of these. A fault is
/// reported at the node from which the faulty one came.
pub(crate) fn check_folded(
    alloc: Global,
    game: &Game,
    certificate: &ImageCert,
    layouts: &[Layout],
) -> Result<Result<(), Rejected>, Memory>
    requires limits { IsImageWithinLimits certificate.now }
    requires laid { AreLaidOut certificate.now layouts.now }
    requires sound { IsFaultless game.now certificate.now }
    ensures { IfOk result (FindsInFolded game.now certificate.now) }
{
    let mut checking = Checking::begin(alloc, game)?;
    let sources = feed_claims(alloc, &mut checking, game, certificate, layouts)?;
    let origins = sources.as_slice();
    match checking.finish() {
        Ok(()) => Ok(Ok(())),
        Err(rejected) => Ok(Err(Rejected {
            claim: rejected.claim,
            node: origin_of(origins, rejected.claim, rejected.node),
            why: rejected.why,
        })),
    }
}
