//! Reading the game and the certificate, and what there is to print of them.
ghost use Rattle.std.specs.Prelude.{◌≡◌, ℕ, Option, Ok, IfErr, IfOk};
ghost use Rattle.pg_binding.specs.Prelude.{Chart, DONE, Finds, HaltCauses, IsLackingOne};
ghost use Rattle.pg_binding.specs.Prelude.{IsLackingTwo, IsReadHalt, ReadsOnly, entry, span_entry};
ghost use Rattle.pg_binding.specs.Prelude.{vector_entry};
ghost use Rattle.pg_drawing.specs.Boards.{any_entry};
ghost use Rattle.pg_drawing.specs.Boards.AnyEntry.{Connectivity, Positional, Vectors};
ghost use Rattle.pg_binding.specs.Books.{book_held, with_evidence};
ghost use Rattle.pg_binding.specs.Due.{IsBookDue};

use crate::order::BookOrder;
use crate::telling::{tell_evidence, tell_span, tell_vectors};
use pg_drawing::{Board, Telling, open_board};
use pg_evidence::open_evidence;
use pg_families::open_span_cert;
use pg_game::Game;
use pg_gf2::VecGame;
use pg_io::Files;
use pg_layout::Chart;
use pg_span::SpanGame;
use pg_talk::{Halt, open_certificate};
use std::alloc::Global;

/// Returns the book of the certificate under a name for a game on lines or a switching game.
fn tell_on_game<F: Files>(
    alloc: Global,
    files: &mut F,
    game: &Game,
    certificate: &str,
    layout: Option<Chart>,
    depth: Option<u32>,
) -> Result<Telling, Halt>
    ensures found { Finds (F.told files.old).held
        (λ held. IsBookDue layout depth
        (with_evidence (Ok (Positional (entry game.now))) (held certificate.now))) result }
    ensures status { IfOk result (λ told. told.status ≡ DONE) }
    ensures halts { IfErr result IsReadHalt }
    ensures causes { HaltCauses (IsLackingOne (with_evidence (Ok (Positional (entry game.now))))
        (F.told files.old).held certificate.now)
        (F.told files.old).faults (F.told files.new).faults result }
    ensures kept { ReadsOnly (F.told files.old) (F.told files.new) }
{
    let evidence = open_evidence(alloc, files, certificate)?;
    tell_evidence(alloc, game, evidence, layout, depth)
}

/// Returns the book of the certificate under a name for a connectivity game.
fn tell_on_span<F: Files>(
    alloc: Global,
    files: &mut F,
    game: &SpanGame,
    certificate: &str,
) -> Result<Telling, Halt>
    ensures found { (layout : Option Chart) → (depth : Option ℕ) → Finds (F.told files.old).held
        (λ held. IsBookDue layout depth
        (with_evidence (Ok (Connectivity (span_entry game.now))) (held certificate.now))) result }
    ensures status { IfOk result (λ told. told.status ≡ DONE) }
    ensures halts { IfErr result IsReadHalt }
    ensures causes { HaltCauses
        (IsLackingOne (with_evidence (Ok (Connectivity (span_entry game.now))))
        (F.told files.old).held certificate.now)
        (F.told files.old).faults (F.told files.new).faults result }
    ensures kept { ReadsOnly (F.told files.old) (F.told files.new) }
{
    let cert = open_span_cert(alloc, files, certificate)?;
    tell_span(alloc, game, &cert)
}

/// Returns the book of the certificate under a name for a game on vectors.
fn tell_on_vectors<F: Files>(
    alloc: Global,
    files: &mut F,
    game: &VecGame,
    certificate: &str,
) -> Result<Telling, Halt>
    ensures found { (layout : Option Chart) → (depth : Option ℕ) → Finds (F.told files.old).held
        (λ held. IsBookDue layout depth
        (with_evidence (Ok (Vectors (vector_entry game.now))) (held certificate.now))) result }
    ensures status { IfOk result (λ told. told.status ≡ DONE) }
    ensures halts { IfErr result IsReadHalt }
    ensures causes { HaltCauses
        (IsLackingOne (with_evidence (Ok (Vectors (vector_entry game.now))))
        (F.told files.old).held certificate.now)
        (F.told files.old).faults (F.told files.new).faults result }
    ensures kept { ReadsOnly (F.told files.old) (F.told files.new) }
{
    let cert = open_certificate(alloc, files, certificate)?;
    tell_vectors(alloc, game, &cert)
}

/// Returns the book of the certificate under a name for this game. The certificate is read as one
/// of the game's kind.
fn tell_on<F: Files>(
    alloc: Global,
    files: &mut F,
    game: &Board,
    certificate: &str,
    layout: Option<Chart>,
    depth: Option<u32>,
) -> Result<Telling, Halt>
    ensures found { Finds (F.told files.old).held
        (λ held. IsBookDue layout depth
        (with_evidence (Ok (any_entry game.now)) (held certificate.now))) result }
    ensures status { IfOk result (λ told. told.status ≡ DONE) }
    ensures halts { IfErr result IsReadHalt }
    ensures causes { HaltCauses (IsLackingOne (with_evidence (Ok (any_entry game.now)))
        (F.told files.old).held certificate.now)
        (F.told files.old).faults (F.told files.new).faults result }
    ensures kept { ReadsOnly (F.told files.old) (F.told files.new) }
{
    match game {
        Board::Positional(on) => tell_on_game(alloc, files, on, certificate, layout, depth),
        Board::Connectivity(on) => tell_on_span(alloc, files, on, certificate),
        Board::Vectors(on) => tell_on_vectors(alloc, files, on, certificate),
    }
}

/// Returns what there is to print to an order for a book.
pub(crate) fn tell<F: Files>(
    alloc: Global,
    order: BookOrder<'_>,
    files: &mut F,
) -> Result<Telling, Halt>
    ensures found { Finds (F.told files.old).held
        (λ held. IsBookDue order.entry.layout order.entry.depth
        (book_held (held order.entry.game.now) (held order.entry.certificate.now))) result }
    ensures status { IfOk result (λ told. told.status ≡ DONE) }
    ensures halts { IfErr result IsReadHalt }
    ensures causes { HaltCauses (IsLackingTwo book_held (F.told files.old).held
        order.entry.game.now order.entry.certificate.now)
        (F.told files.old).faults (F.told files.new).faults result }
    ensures kept { ReadsOnly (F.told files.old) (F.told files.new) }
{
    let game = open_board(alloc, files, order.game)?;
    tell_on(
        alloc,
        files,
        &game,
        order.certificate,
        order.layout,
        order.depth,
    )
}
