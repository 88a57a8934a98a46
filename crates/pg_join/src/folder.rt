//! The certificates in a folder.
ghost use Rattle.std.specs.Prelude.{◌≡◌, IfOk, IfSome};
ghost use Rattle.pg_cert.specs.Limits.{IsWithinLimits};
ghost use Rattle.pg_io.specs.Files.{ReadsOnly};
ghost use Rattle.pg_join.specs.Pieces.{IsFound};

use pg_base::Memory;
use pg_cert::Cert;
use pg_cert_files::{CertFault, MAX_CERT_BYTES, read_cert};
use pg_game::Game;
use pg_image::read_image;
use pg_io::{Files, Stop, read_whole};
use pg_plan::cert_name;
use pg_unfold::{ImageFault, unfold};
use std::alloc::Global;

/// A folder, and the files by which it is read. Only `certificate` uses these, so no name in them
/// changes.
#[derive(Drop)]
pub(crate) struct Folder<'a, F: Files + Drop> {
    /// The files of the system, or those of a test.
    files: F,
    /// The name of the folder.
    name: &'a str,
}

/// What is under the name of a certificate.
#[derive(Debug, Drop)]
pub(crate) enum Found {
    /// Nothing that can be read.
    Missing,
    /// What is no certificate.
    Faulty,
    /// A certificate of plain nodes, of the file or what it stands for.
    Certificate(Cert),
}

/// Returns the certificate for which one with images stands, if the text is such a one.
fn unfolded(alloc: Global, game: &Game, text: &[u8]) -> Result<Option<Cert>, Memory>
    ensures { IfOk result (λ found. IfSome found IsWithinLimits) }
{
    let folded = match read_image(alloc, text) {
        Ok(folded) => folded,
        Err(CertFault::Bad { .. }) => return Ok(None),
        Err(CertFault::Memory) => return Err(Memory),
    };
    match unfold(alloc, game, &folded) {
        Ok(unfolded) => Ok(Some(unfolded.cert)),
        Err(ImageFault::Bad { .. }) => Ok(None),
        Err(ImageFault::Memory) => Err(Memory),
    }
}

/// Returns the certificate that the text is, in either form.
fn certificate_of(alloc: Global, game: &Game, text: &[u8]) -> Result<Option<Cert>, Memory>
    ensures { IfOk result (λ found. IfSome found IsWithinLimits) }
{
    match read_cert(alloc, text) {
        Ok(certificate) => Ok(Some(certificate)),
        Err(CertFault::Bad { .. }) => unfolded(alloc, game, text),
        Err(CertFault::Memory) => Err(Memory),
    }
}

impl<'a, F: Files + Drop> Folder<'a, F> {
    /// Returns the folder of this name, read by these files.
    pub(crate) fn new(name: &'a str, files: F) -> Folder<'a, F>
        ensures { result.files ≡ files }
    {
        Folder { files, name }
    }

    /// Returns what is under the name of the certificate of this number, for the game.
    pub(crate) fn certificate(
        &mut self,
        alloc: Global,
        game: &Game,
        file: u32,
    ) -> Result<Found, Memory>
        ensures found { IfOk result IsFound }
        ensures kept { ReadsOnly (F.told self.old.files) (F.told self.new.files) }
    {
        let name = cert_name(alloc, self.name, file)?;
        match read_whole(alloc, &mut self.files, name.as_str(), MAX_CERT_BYTES) {
            Ok(text) => match certificate_of(alloc, game, &text)? {
                Some(certificate) => Ok(Found::Certificate(certificate)),
                None => Ok(Found::Faulty),
            },
            Err(Stop::Memory) => Err(Memory),
            Err(_) => Ok(Found::Missing),
        }
    }
}
