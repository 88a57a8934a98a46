//! Reading games of all kinds, and certificates.
ghost use Rattle.std.specs.Prelude.{◌≡◌, Some, IfErr, IfOk};
ghost use Rattle.pg_drawing.specs.Prelude.{IsAbsent, IsWithinLimits, ReadsOnly, HaltCauses};
ghost use Rattle.pg_drawing.specs.Prelude.{IsGameHalt, IsReadHalt, Opens, vectors_held};
ghost use Rattle.pg_drawing.specs.Incoming.{OpensAlike};
ghost use Rattle.pg_drawing.specs.Boards.{IsBoardRead, any_entry, any_held, begins_otherwise};
ghost use Rattle.pg_drawing.specs.Boards.{family_held, is_other_kind, read_into};
ghost use Rattle.pg_drawing.specs.Boards.AnyEntry.{Vectors};

use crate::board::Board;
use crate::incoming::Incoming;
use pg_cert::Cert;
use pg_cert_files::{CertFault, Fault as FormFault, MAX_CERT_BYTES};
use pg_family_files::{read_span, read_vectors};
use pg_files::{Fault, MAX_GAME_BYTES, read_game};
use pg_io::{Files, Stop, pour, read_whole};
use pg_messages::Refusal;
use pg_talk::Halt;
use pg_text::{FileError, Numbered};
use std::alloc::Global;

/// Whether the fault is that the file doesn't begin as one of the kind that was tried.
fn is_other_kind(number: u8) -> bool
    ensures { result ≡ is_other_kind number }
{
    number == Fault::Header.number()
}

/// The game on vectors that the text says.
fn read_vector_board(alloc: Global, text: &[u8]) -> Result<Board, FileError>
    ensures { IsBoardRead result (read_into Vectors (vectors_held (Some text.now))) }
{
    match read_vectors(alloc, text) {
        Ok(game) => Ok(Board::Vectors(game)),
        Err(FileError::Bad { number, line }) => Err(FileError::Bad { number, line }),
        Err(FileError::Memory) => Err(FileError::Memory),
    }
}

/// The connectivity game that the text says, or the game on vectors if it doesn't begin as one of
/// the former.
fn read_family_board(alloc: Global, text: &[u8]) -> Result<Board, FileError>
    ensures { IsBoardRead result (family_held (Some text.now)) }
{
    match read_span(alloc, text) {
        Ok(game) => Ok(Board::Connectivity(game)),
        Err(FileError::Bad { number, line }) => {
            if is_other_kind(number) {
                return read_vector_board(alloc, text);
            }
            Err(FileError::Bad { number, line })
        }
        Err(FileError::Memory) => Err(FileError::Memory),
    }
}

/// The game that the text says. It is read as one of another kind if it doesn't begin as a game on
/// lines or a switching game.
fn read_board(alloc: Global, text: &[u8]) -> Result<Board, FileError>
    ensures { IsBoardRead result (any_held (Some text.now)) }
{
    match read_game(alloc, text) {
        Ok(game) => Ok(Board::Positional(game)),
        Err(FileError::Bad { number, line }) => {
            if is_other_kind(number) {
                return read_family_board(alloc, text);
            }
            Err(FileError::Bad { number, line })
        }
        Err(FileError::Memory) => Err(FileError::Memory),
    }
}

/// Returns the game of the file under this name, of whatever kind it is.
pub fn open_board<F: Files>(alloc: Global, files: &mut F, name: &str) -> Result<Board, Halt>
    ensures opened { Opens any_entry any_held (F.told files.old).held name.now result }
    ensures halts { IfErr result IsGameHalt }
    ensures causes { HaltCauses (IsAbsent (F.told files.old).held name.now)
        (F.told files.old).faults (F.told files.new).faults result }
    ensures kept { ReadsOnly (F.told files.old) (F.told files.new) }
{
    let text = read_whole(alloc, files, name, MAX_GAME_BYTES)?;
    match read_board(alloc, &text) {
        Ok(board) => Ok(board),
        Err(FileError::Bad { number, line }) => Err(Halt::Refused(Refusal::Game { number, line })),
        Err(FileError::Memory) => Err(Halt::Stopped(Stop::Memory)),
    }
}

/// Whether a file doesn't begin as a certificate of plain nodes.
pub(crate) fn begins_otherwise(halt: &Halt) -> bool
    ensures { result ≡ begins_otherwise halt.now }
{
    match halt {
        Halt::Refused(Refusal::Certificate { number, .. }) => *number == FormFault::Header.number(),
        _ => false,
    }
}

/// The certificate under this name, cut short: of pairs of which two share a point only the first
/// may be kept. It is gathered as it comes.
pub(crate) fn open_certificate<F: Files>(
    alloc: Global,
    files: &mut F,
    name: &str,
) -> Result<Cert, Halt>
    ensures opened { OpensAlike (F.told files.old).held name.now result }
    ensures limits { IfOk result IsWithinLimits }
    ensures halts { IfErr result IsReadHalt }
    ensures causes { HaltCauses (IsAbsent (F.told files.old).held name.now)
        (F.told files.old).faults (F.told files.new).faults result }
    ensures kept { ReadsOnly (F.told files.old) (F.told files.new) }
{
    let mut incoming = Incoming::begin(alloc);
    pour(alloc, files, name, MAX_CERT_BYTES, &mut incoming)?;
    match incoming.end(alloc) {
        Ok(certificate) => Ok(certificate),
        Err(CertFault::Bad { number, line }) => {
            Err(Halt::Refused(Refusal::Certificate { number, line }))
        }
        Err(CertFault::Memory) => Err(Halt::Stopped(Stop::Memory)),
    }
}
