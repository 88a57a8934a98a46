//! Judging a certificate as its bytes come.
ghost use Rattle.std.specs.Prelude.{◌≡◌, ◌++◌, [], List, ℕ, length, IfOk, MatchResult};
ghost use Rattle.pg_cert_files.specs.Pieces.{size_of};
ghost use Rattle.pg_judge.specs.Judged.{AreFed, HasCome, HaveBeenFed, IsReady, SaysValid};
ghost use Rattle.pg_judge.specs.Judged.{StandsAgainst, StandsFor};

use crate::claim_head::ClaimHead;
use crate::fault::JudgeFault;
use crate::feeding::feed_piece;
use crate::told::Told;
use pg_base::Memory;
use pg_cert_files::{CertReader, Fault, MAX_CERT_BYTES};
use pg_game::Game;
use pg_io::Sink;
use pg_text::Numbered;
use std::alloc::Global;

/// A certificate for a game that comes piece by piece: a sink of its bytes.
///
/// Of what came it keeps the line in hand, what the claims say before their nodes, and the marks
/// and turns of the nodes of the claim in hand. A long line of pairs is cut short while it comes,
/// as far as that changes no verdict.
#[derive(Drop)]
pub struct Judging<'a> {
    /// What the bytes have said.
    pub(crate) reader: CertReader,
    /// What the parts have said.
    pub(crate) told: Told<'a>,
    /// How many bytes came, and one more than the limit for all that are more.
    pub(crate) size: usize,
}

/// How many bytes have come with so many more, and one more than the limit for all that are more.
pub fn size_with(size: usize, more: usize) -> usize
    ensures { (text bytes : List ℕ) → size ≡ size_of text
        → more ≡ length bytes
        → result ≡ size_of (text ++ bytes) }
{
    if size > MAX_CERT_BYTES {
        return size;
    }
    if more > MAX_CERT_BYTES - size {
        return MAX_CERT_BYTES + 1;
    }
    size + more
}

/// What the claims say where all parts of a valid certificate have come, and else its first fault,
/// or the text's fault of form.
fn conclude(alloc: Global, reader: CertReader, told: Told<'_>) -> Result<Vec<ClaimHead>, JudgeFault>
    requires { HaveBeenFed reader told }
    ensures { (text : List ℕ) → AreFed reader told.entry text → MatchResult result
        (λ heads. SaysValid told.entry.checking.game.now text heads.items)
        (StandsAgainst told.entry.checking.game.now text) }
{
    let last = reader.end(alloc)?;
    let mut told = told;
    told.take(alloc, last)?;
    Ok(told.finish()?)
}

impl<'a> Judging<'a> {
    /// Nothing came yet.
    ///
    /// `Memory` means that memory was refused.
    pub fn begin(alloc: Global, game: &'a Game) -> Result<Judging<'a>, Memory>
        ensures game { IfOk result (λ judging. judging.told.checking.game.now ≡ game.now) }
        ensures stands { IfOk result (λ judging. StandsFor judging []) }
    {
        Ok(Judging {
            reader: CertReader::new(alloc),
            told: Told::new(alloc, game)?,
            size: 0,
        })
    }

    /// Ends the text: what its claims say where it says a certificate that is valid for the game,
    /// and else its first fault of form, or the certificate's first fault.
    pub fn end(self, alloc: Global) -> Result<Vec<ClaimHead>, JudgeFault>
        requires { IsReady self }
        ensures { (text : List ℕ) → StandsFor self.entry text → MatchResult result
            (λ heads. SaysValid self.entry.told.checking.game.now text heads.items)
            (StandsAgainst self.entry.told.checking.game.now text) }
    {
        if self.size > MAX_CERT_BYTES {
            return Err(JudgeFault::Form {
                number: Fault::Size.number(),
                line: 0,
            });
        }
        conclude(alloc, self.reader, self.told)
    }
}

impl<'a> Sink for Judging<'a> {
    ghost ready = { λ judging. IsReady judging };

    ghost took = { λ first judging bytes. HasCome first judging bytes };

    fn take(&mut self, alloc: Global, piece: &[u8]) -> Result<(), Memory> {
        self.size = size_with(self.size, piece.len());
        feed_piece(alloc, &mut self.reader, &mut self.told, piece)?;
        self.reader.shorten(alloc)
    }
}
