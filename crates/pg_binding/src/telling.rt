//! What there is to print of a game and a certificate that were read.
ghost use Rattle.std.specs.Prelude.{◌≡◌, IfErr, IfOk};
ghost use Rattle.pg_binding.specs.Prelude.{DONE, IsFound, IsInnerHalt, IsWithinItsLimits};
ghost use Rattle.pg_binding.specs.Prelude.{IsWithinLimits, IsWithinRanges, book_text};
ghost use Rattle.pg_binding.specs.Prelude.{span_book_text, vector_book_text};
ghost use Rattle.pg_binding.specs.Due.{AreVectorsDue, IsEvidenceDue, IsShownBook, IsSpanDue};
ghost use Rattle.pg_binding.specs.Due.{IsWholeBook};

use pg_book::print_book;
use pg_cert::Cert;
use pg_check::{CheckFault, Checked};
use pg_drawing::Telling;
use pg_evidence::{Evidence, check_standing, standing_of};
use pg_family_book::{print_span_book, print_vector_book};
use pg_game::Game;
use pg_gf2::{VecFault, VecGame, vec_check};
use pg_io::Stop;
use pg_layout::Chart;
use pg_messages::{DONE, Refusal};
use pg_play_tree::play_tree;
use pg_span::{SpanCert, SpanFault, SpanGame, span_check};
use pg_talk::Halt;
use std::alloc::Global;

/// The most nodes of the trees of play that a book shows in place of trees and cuts.
const MAX_PAGES: u32 = 400;

/// Returns the book of a certificate, with that layout and to that depth if there are such.
fn whole_book(
    alloc: Global,
    game: &Game,
    cert: &Cert,
    layout: Option<Chart>,
    depth: Option<u32>,
) -> Result<Telling, Halt>
    requires { IsWithinLimits cert.now }
    ensures { IsWholeBook (book_text layout game.now cert.now depth) result }
{
    let words = print_book(alloc, layout, game, cert, depth)?;
    Ok(Telling {
        words,
        status: DONE,
    })
}

/// Returns the book of a valid certificate, with that layout and to that depth if there are such.
/// If the certificate rests on trees or cuts, and its tree of play has at most `MAX_PAGES` nodes,
/// it is the book of that.
fn shown_book(
    alloc: Global,
    checked: Checked<'_>,
    layout: Option<Chart>,
    depth: Option<u32>,
) -> Result<Telling, Halt>
    requires { IsWithinLimits checked.cert.now }
    ensures { IsShownBook checked.entry.game.now checked.entry.cert.now layout depth result }
{
    match play_tree(alloc, checked, MAX_PAGES)? {
        Some(tree) => whole_book(alloc, checked.game, &tree, layout, depth),
        None => whole_book(alloc, checked.game, checked.cert, layout, depth),
    }
}

/// Returns the book of the certificate for which this one stands, with that layout and to that
/// depth, if that is valid. Trees and cuts are shown move by move if that has few pages.
///
/// # Errors
///
/// `Halt::Refused` with `Rejected` or `RejectedImage` if it isn't valid, with its first fault.
/// `Halt::Stopped` with `Stop::Memory` if no memory is found.
pub(crate) fn tell_evidence(
    alloc: Global,
    game: &Game,
    evidence: Evidence,
    layout: Option<Chart>,
    depth: Option<u32>,
) -> Result<Telling, Halt>
    requires { IsWithinItsLimits evidence }
    ensures found { IsFound (IsEvidenceDue game.now evidence layout depth) result }
    ensures status { IfOk result (λ told. told.status ≡ DONE) }
    ensures halts { IfErr result IsInnerHalt }
{
    let standing = standing_of(alloc, game, evidence)?;
    match check_standing(alloc, game, &standing) {
        Ok(checked) => shown_book(alloc, checked, layout, depth),
        Err(CheckFault::Reject { claim, node, why }) => {
            Err(Halt::Refused(Refusal::Rejected { claim, node, why }))
        }
        Err(CheckFault::Memory) => Err(Halt::Stopped(Stop::Memory)),
    }
}

/// Returns the book of a connectivity game's certificate.
fn whole_span_book(alloc: Global, game: &SpanGame, cert: &SpanCert) -> Result<Telling, Halt>
    requires { IsWithinRanges cert.now }
    ensures { IsWholeBook (span_book_text game.now cert.now) result }
{
    let words = print_span_book(alloc, game, cert)?;
    Ok(Telling {
        words,
        status: DONE,
    })
}

/// Returns the book of a connectivity game's certificate, if that is valid.
///
/// # Errors
///
/// `Halt::Refused` with `RejectedSpan` if it isn't valid, with its first fault. `Halt::Stopped`
/// with `Stop::Memory` if no memory is found.
pub(crate) fn tell_span(alloc: Global, game: &SpanGame, cert: &SpanCert) -> Result<Telling, Halt>
    requires { IsWithinRanges cert.now }
    ensures found { IsFound (IsSpanDue game.now cert.now) result }
    ensures status { IfOk result (λ told. told.status ≡ DONE) }
    ensures halts { IfErr result IsInnerHalt }
{
    match span_check(alloc, game, cert) {
        Ok(_) => whole_span_book(alloc, game, cert),
        Err(SpanFault::Reject { claim, why }) => Err(Halt::Refused(Refusal::RejectedSpan {
            claim,
            why: why.number(),
        })),
        Err(SpanFault::Memory) => Err(Halt::Stopped(Stop::Memory)),
    }
}

/// Returns the book of a certificate of a game on vectors.
fn whole_vector_book(alloc: Global, game: &VecGame, cert: &Cert) -> Result<Telling, Halt>
    requires { IsWithinLimits cert.now }
    ensures { IsWholeBook (vector_book_text game.now cert.now) result }
{
    let words = print_vector_book(alloc, game, cert)?;
    Ok(Telling {
        words,
        status: DONE,
    })
}

/// Returns the book of a certificate of a game on vectors, if that is valid.
///
/// # Errors
///
/// `Halt::Refused` with `RejectedVectors` if it isn't valid, with its first fault. `Halt::Stopped`
/// with `Stop::Memory` if no memory is found.
pub(crate) fn tell_vectors(alloc: Global, game: &VecGame, cert: &Cert) -> Result<Telling, Halt>
    requires { IsWithinLimits cert.now }
    ensures found { IsFound (AreVectorsDue game.now cert.now) result }
    ensures status { IfOk result (λ told. told.status ≡ DONE) }
    ensures halts { IfErr result IsInnerHalt }
{
    match vec_check(alloc, game, cert) {
        Ok(_) => whole_vector_book(alloc, game, cert),
        Err(VecFault::Reject { claim, node, why }) => Err(Halt::Refused(
            Refusal::RejectedVectors {
                claim,
                node,
                why: why.number(),
            },
        )),
        Err(VecFault::Memory) => Err(Halt::Stopped(Stop::Memory)),
    }
}
