//! What there is to say to what the words ask for.
ghost use Rattle.std.specs.Prelude.{◌≡◌, [], ◌∷◌, Some, Ok, IfErr, IfOk, map, string_bytes};
ghost use Rattle.pg_drawing.specs.Prelude.{IsAbsent, ReadsOnly, entry, span_entry, HaltCauses};
ghost use Rattle.pg_drawing.specs.Prelude.{IsGameHalt, IsReadHalt, IsLackingOne, IsLackingTwo};
ghost use Rattle.pg_drawing.specs.Prelude.{DONE, evidence_held, vector_entry};
ghost use Rattle.pg_drawing.specs.Boards.{any_entry, any_held, both_held, with_certificate};
ghost use Rattle.pg_drawing.specs.Boards.AnyEntry.{Positional, Connectivity, Vectors};
ghost use Rattle.pg_drawing.specs.Due.{Finds, IsDue, IsDueOfBoth, IsDueOfGame, IsFormDue};
ghost use Rattle.pg_drawing.specs.Orders.{order_of};
ghost use Rattle.pg_drawing.specs.Runs.{Gives, IsCertEnd, IsLacking};

use crate::board::Board;
use crate::claims::{span_game_text, tell_span_certificate};
use crate::name::{NodeName, node_named};
use crate::opening::{begins_otherwise, open_board, open_certificate};
use crate::picturing::{Telling, game_text, tell_certificate};
use crate::standing::tell_evidence;
use crate::vectors::{tell_vector_certificate, vector_game_text};
use pg_base::Memory;
use pg_captions::Look;
use pg_evidence::open_evidence;
use pg_families::open_span_cert;
use pg_game::Game;
use pg_gf2::VecGame;
use pg_io::Files;
use pg_messages::{DONE, Refusal};
use pg_span::SpanGame;
use pg_talk::Halt;
use std::alloc::Global;

/// The text of the picture of a game.
fn board_text(alloc: Global, look: Look, board: &Board) -> Result<String, Memory>
    ensures { IfOk result
        (λ text. IsDueOfGame look (Ok (any_entry board.now)) (string_bytes text) DONE) }
{
    match board {
        Board::Positional(game) => game_text(alloc, look, game),
        Board::Connectivity(game) => span_game_text(alloc, look, game),
        Board::Vectors(game) => vector_game_text(alloc, look, game),
    }
}

/// The picture of the game under a name.
fn tell_game<F: Files>(
    alloc: Global,
    look: Look,
    files: &mut F,
    game: &str,
) -> Result<Telling, Halt>
    ensures found { Finds (F.told files.old).held
        (λ held. IsDueOfGame look (any_held (held game.now))) result }
    ensures done { IfOk result (λ told. told.status ≡ DONE) }
    ensures halts { IfErr result IsGameHalt }
    ensures causes { HaltCauses (IsLackingOne any_held (F.told files.old).held game.now)
        (F.told files.old).faults (F.told files.new).faults result }
    ensures kept { ReadsOnly (F.told files.old) (F.told files.new) }
{
    let board = open_board(alloc, files, game)?;
    let words = board_text(alloc, look, &board)?;
    Ok(Telling {
        words,
        status: DONE,
    })
}

/// The picture of a node of the certificate under a name in either form.
fn tell_node_in<F: Files>(
    alloc: Global,
    look: Look,
    files: &mut F,
    game: &Game,
    certificate: &str,
    name: Option<NodeName>,
) -> Result<Telling, Halt>
    ensures found { Finds (F.told files.old).held
        (λ held. IsFormDue look game.now name (evidence_held (held certificate.now))) result }
    ensures done { IfOk result (λ told. IsCertEnd told.status) }
    ensures halts { IfErr result IsReadHalt }
    ensures causes { HaltCauses (IsAbsent (F.told files.old).held certificate.now)
        (F.told files.old).faults (F.told files.new).faults result }
    ensures kept { ReadsOnly (F.told files.old) (F.told files.new) }
{
    let evidence = open_evidence(alloc, files, certificate)?;
    tell_evidence(alloc, look, game, evidence, name)
}

/// The picture of a node of the certificate under a name for a game on lines or a switching game.
/// It is read as one of plain nodes, and once more in either form where it doesn't begin as that.
fn tell_node_of<F: Files>(
    alloc: Global,
    look: Look,
    files: &mut F,
    game: &Game,
    certificate: &str,
    name: Option<NodeName>,
) -> Result<Telling, Halt>
    ensures found { Finds (F.told files.old).held
        (λ held. IsDueOfBoth look name
        (with_certificate (Ok (Positional (entry game.now))) (held certificate.now))) result }
    ensures done { IfOk result (λ told. IsCertEnd told.status) }
    ensures halts { IfErr result IsReadHalt }
    ensures causes { HaltCauses (IsAbsent (F.told files.old).held certificate.now)
        (F.told files.old).faults (F.told files.new).faults result }
    ensures kept { ReadsOnly (F.told files.old) (F.told files.new) }
{
    match open_certificate(alloc, files, certificate) {
        Ok(cert) => Ok(tell_certificate(alloc, look, game, &cert, name)?),
        Err(halt) => {
            if begins_otherwise(&halt) {
                return tell_node_in(alloc, look, files, game, certificate, name);
            }
            Err(halt)
        }
    }
}

/// The picture of a claim of the certificate under a name for a connectivity game.
fn tell_claim_of<F: Files>(
    alloc: Global,
    look: Look,
    files: &mut F,
    game: &SpanGame,
    certificate: &str,
    name: Option<NodeName>,
) -> Result<Telling, Halt>
    ensures found { Finds (F.told files.old).held
        (λ held. IsDueOfBoth look name
        (with_certificate (Ok (Connectivity (span_entry game.now))) (held certificate.now)))
        result }
    ensures done { IfOk result (λ told. IsCertEnd told.status) }
    ensures halts { IfErr result IsReadHalt }
    ensures causes { HaltCauses (IsAbsent (F.told files.old).held certificate.now)
        (F.told files.old).faults (F.told files.new).faults result }
    ensures kept { ReadsOnly (F.told files.old) (F.told files.new) }
{
    let cert = open_span_cert(alloc, files, certificate)?;
    Ok(tell_span_certificate(alloc, look, game, &cert, name)?)
}

/// Returns the picture of a node of the certificate under a name for a game on vectors.
fn tell_vector_node_of<F: Files>(
    alloc: Global,
    look: Look,
    files: &mut F,
    game: &VecGame,
    certificate: &str,
    name: Option<NodeName>,
) -> Result<Telling, Halt>
    ensures found { Finds (F.told files.old).held
        (λ held. IsDueOfBoth look name
        (with_certificate (Ok (Vectors (vector_entry game.now))) (held certificate.now))) result }
    ensures done { IfOk result (λ told. IsCertEnd told.status) }
    ensures halts { IfErr result IsReadHalt }
    ensures causes { HaltCauses (IsAbsent (F.told files.old).held certificate.now)
        (F.told files.old).faults (F.told files.new).faults result }
    ensures kept { ReadsOnly (F.told files.old) (F.told files.new) }
{
    let cert = pg_talk::open_certificate(alloc, files, certificate)?;
    Ok(tell_vector_certificate(alloc, look, game, &cert, name)?)
}

/// The picture of a node of the certificate under a name for this game. The certificate is read as
/// one of the game's family.
fn tell_node_on<F: Files>(
    alloc: Global,
    look: Look,
    files: &mut F,
    board: &Board,
    certificate: &str,
    name: Option<NodeName>,
) -> Result<Telling, Halt>
    ensures found { Finds (F.told files.old).held
        (λ held. IsDueOfBoth look name
        (with_certificate (Ok (any_entry board.now)) (held certificate.now))) result }
    ensures done { IfOk result (λ told. IsCertEnd told.status) }
    ensures halts { IfErr result IsReadHalt }
    ensures causes { HaltCauses (IsAbsent (F.told files.old).held certificate.now)
        (F.told files.old).faults (F.told files.new).faults result }
    ensures kept { ReadsOnly (F.told files.old) (F.told files.new) }
{
    match board {
        Board::Positional(game) => tell_node_of(alloc, look, files, game, certificate, name),
        Board::Connectivity(game) => tell_claim_of(alloc, look, files, game, certificate, name),
        Board::Vectors(game) => tell_vector_node_of(alloc, look, files, game, certificate, name),
    }
}

/// The picture of a node of the certificate under one name for the game under another. The
/// certificate is opened only where the game is taken.
fn tell_node<F: Files>(
    alloc: Global,
    look: Look,
    files: &mut F,
    game: &str,
    certificate: &str,
    name: Option<NodeName>,
) -> Result<Telling, Halt>
    ensures found { Finds (F.told files.old).held
        (λ held. IsDueOfBoth look name
        (both_held (held game.now) (held certificate.now))) result }
    ensures done { IfOk result (λ told. IsCertEnd told.status) }
    ensures halts { IfErr result IsReadHalt }
    ensures causes { HaltCauses
        (IsLackingTwo both_held (F.told files.old).held game.now certificate.now)
        (F.told files.old).faults (F.told files.new).faults result }
    ensures kept { ReadsOnly (F.told files.old) (F.told files.new) }
{
    let board = open_board(alloc, files, game)?;
    tell_node_on(alloc, look, files, &board, certificate, name)
}

/// Returns what there is to say of the node that a word names.
fn tell_named<F: Files>(
    alloc: Global,
    look: Look,
    files: &mut F,
    game: &str,
    certificate: &str,
    word: &[u8],
) -> Result<Telling, Halt>
    ensures found { Finds (F.told files.old).held
        (IsDue look (order_of (game.now ∷ certificate.now ∷ word.now ∷ []))) result }
    ensures gives { Gives (order_of (game.now ∷ certificate.now ∷ word.now ∷ [])) result }
    ensures causes { HaltCauses (IsLacking (F.told files.old).held
        (order_of (game.now ∷ certificate.now ∷ word.now ∷ [])))
        (F.told files.old).faults (F.told files.new).faults result }
    ensures kept { ReadsOnly (F.told files.old) (F.told files.new) }
{
    match node_named(word) {
        Some(name) => tell_node(alloc, look, files, game, certificate, Some(name)),
        None => Err(Halt::Refused(Refusal::NoMeaning)),
    }
}

/// What there is to say to what the words ask for.
pub(crate) fn tell<F: Files>(
    alloc: Global,
    words: &[String],
    look: Look,
    files: &mut F,
) -> Result<Telling, Halt>
    ensures found { Finds (F.told files.old).held
        (IsDue look (order_of (map string_bytes words.now))) result }
    ensures gives { Gives (order_of (map string_bytes words.now)) result }
    ensures causes { HaltCauses
        (IsLacking (F.told files.old).held (order_of (map string_bytes words.now)))
        (F.told files.old).faults (F.told files.new).faults result }
    ensures kept { ReadsOnly (F.told files.old) (F.told files.new) }
{
    match words {
        [game] => tell_game(alloc, look, files, game.as_str()),
        [game, certificate] => {
            tell_node(
                alloc,
                look,
                files,
                game.as_str(),
                certificate.as_str(),
                None,
            )
        }
        [game, certificate, word] => {
            tell_named(
                alloc,
                look,
                files,
                game.as_str(),
                certificate.as_str(),
                word.as_bytes(),
            )
        }
        _ => Err(Halt::Refused(Refusal::NoMeaning)),
    }
}
