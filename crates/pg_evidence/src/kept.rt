//! What is kept of a certificate while it may be one with images.
ghost use Rattle.std.specs.Prelude.{◌≡◌, ◌++◌, [], List, ℕ, take, IfOk};
ghost use Rattle.pg_evidence.specs.Incoming.{IsCut, IsGathered, IsKept, IsKeptShort, IsShown};
ghost use Rattle.pg_evidence.specs.declared.first_line.TheConstants.{FIRST_LINE_BYTES};

use crate::first_line::{add_first, has_images, may_have_images};
use pg_base::Memory;
use pg_image::ImageGathering;
use std::alloc::Global;

/// What is kept of a certificate while it may be one with images, which its first line shows.
#[derive(Drop)]
pub(crate) struct Kept {
    /// The first bytes, which show it.
    pub(crate) first: Vec<u8>,
    /// What all bytes say, unless they have no images.
    pub(crate) gathering: Option<ImageGathering>,
}

/// What was gathered with this piece behind it, unless these first bytes have no images.
fn gather(
    alloc: Global,
    gathering: Option<ImageGathering>,
    first: &[u8],
    piece: &[u8],
) -> Result<Option<ImageGathering>, Memory>
    ensures { IfOk result (λ now. (text short : List ℕ)
        → first.now ≡ take FIRST_LINE_BYTES (text ++ piece.now)
        → IsGathered gathering text short
        → IsGathered now (text ++ piece.now) (short ++ piece.now)) }
{
    let Some(mut images) = gathering else {
        return Ok(None);
    };
    if !may_have_images(first) {
        return Ok(None);
    }
    images.take(alloc, piece)?;
    Ok(Some(images))
}

/// What was gathered with the line in hand cut short.
fn cut_short(
    alloc: Global,
    gathering: Option<ImageGathering>,
) -> Result<Option<ImageGathering>, Memory>
    ensures { IfOk result (λ now. (text short : List ℕ) → IsGathered gathering text short
        → IsCut now text short) }
{
    let Some(mut images) = gathering else {
        return Ok(None);
    };
    images.shorten(alloc)?;
    Ok(Some(images))
}

impl Kept {
    /// Nothing came yet.
    pub(crate) fn new(alloc: Global) -> Kept
        ensures { IsKept result [] [] }
    {
        Kept {
            first: Vec::new(alloc),
            gathering: Some(ImageGathering::new(alloc)),
        }
    }

    /// Takes the next bytes.
    pub(crate) fn take(&mut self, alloc: Global, piece: &[u8]) -> Result<(), Memory>
        ensures { IfOk result (λ _. (text short : List ℕ) → IsKept self.old text short
            → IsKept self.new (text ++ piece.now) (short ++ piece.now)) }
    {
        add_first(&mut self.first, piece)?;
        self.gathering = gather(alloc, self.gathering.take(), &self.first, piece)?;
        Ok(())
    }

    /// Cuts the line in hand short, if it is long and has pairs that no certificate needs.
    pub(crate) fn shorten(&mut self, alloc: Global) -> Result<(), Memory>
        ensures { IfOk result (λ _. (text short : List ℕ) → IsKept self.old text short
            → IsKeptShort self.new text short) }
    {
        self.gathering = cut_short(alloc, self.gathering.take())?;
        Ok(())
    }

    /// What was gathered, where the bytes have images.
    pub(crate) fn with_images(self) -> Option<ImageGathering>
        ensures { (text short : List ℕ) → IsKept self text short → IsShown result text short }
    {
        if has_images(&self.first) {
            self.gathering
        } else {
            None
        }
    }
}
