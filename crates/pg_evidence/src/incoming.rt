//! A certificate whose bytes come piece by piece, in either form, and which is judged.
ghost use Rattle.std.specs.Prelude.{◌≡◌, [], IfOk};
ghost use Rattle.pg_evidence.specs.Incoming.{HasCome, HasTaken, IsComing, game_of};

use crate::kept::Kept;
use pg_base::Memory;
use pg_game::Game;
use pg_io::Sink;
use pg_judge::Judging;
use std::alloc::Global;

/// A certificate for a game whose bytes come piece by piece, in either form: a sink of its bytes.
///
/// It is judged as one of plain nodes as it comes, and gathered while it may be one with images,
/// which its first line shows. A long line of pairs is cut short while it comes, as far as that
/// changes no verdict.
#[derive(Drop)]
pub(crate) struct Incoming<'a> {
    /// What the bytes say as those of a certificate of plain nodes.
    pub(crate) judging: Judging<'a>,
    /// What they say as those of one with images.
    pub(crate) kept: Kept,
}

impl<'a> Incoming<'a> {
    /// Nothing came yet.
    ///
    /// `Memory` means that memory was refused.
    pub(crate) fn begin(alloc: Global, game: &'a Game) -> Result<Incoming<'a>, Memory>
        ensures game { IfOk result (λ incoming. game_of incoming ≡ game.now) }
        ensures ready { IfOk result (λ incoming. IsComing incoming) }
        ensures taken { IfOk result (λ incoming. HasTaken incoming []) }
    {
        Ok(Incoming {
            judging: Judging::begin(alloc, game)?,
            kept: Kept::new(alloc),
        })
    }
}

impl<'a> Sink for Incoming<'a> {
    ghost ready = { λ incoming. IsComing incoming };

    ghost took = { λ first now bytes. HasCome first now bytes };

    fn take(&mut self, alloc: Global, piece: &[u8]) -> Result<(), Memory> {
        self.judging.take(alloc, piece)?;
        self.kept.take(alloc, piece)?;
        self.kept.shorten(alloc)
    }
}
