//! Reading the games and certificates of families.
ghost use Rattle.std.specs.Prelude.{IfErr, IfOk};
ghost use Rattle.pg_families.specs.Prelude.{IsAbsent, ReadsOnly, IsWithinRanges, HaltCauses};
ghost use Rattle.pg_families.specs.Prelude.{IsGameHalt, IsReadHalt, IsWithinLimits};
ghost use Rattle.pg_families.specs.Connectivity.{AreSpansLacking, OpensSpan, OpensSpanBoth};
ghost use Rattle.pg_families.specs.Connectivity.{OpensSpanCert};
ghost use Rattle.pg_families.specs.Vectors.{AreVectorsLacking, OpensVectors, OpensVectorsBoth};

use pg_cert::Cert;
use pg_family_files::{MAX_SPAN_CERT_BYTES, read_span, read_span_cert, read_vectors};
use pg_files::MAX_GAME_BYTES;
use pg_gf2::VecGame;
use pg_io::{Files, Stop, read_whole};
use pg_messages::Refusal;
use pg_span::{SpanCert, SpanGame};
use pg_talk::{Halt, open_certificate};
use pg_text::FileError;
use std::alloc::Global;

/// The connectivity game under this name.
pub fn open_span<F: Files>(alloc: Global, files: &mut F, name: &str) -> Result<SpanGame, Halt>
    ensures opened { OpensSpan (F.told files.old).held name.now result }
    ensures halts { IfErr result IsGameHalt }
    ensures causes { HaltCauses (IsAbsent (F.told files.old).held name.now)
        (F.told files.old).faults (F.told files.new).faults result }
    ensures kept { ReadsOnly (F.told files.old) (F.told files.new) }
{
    let text = read_whole(alloc, files, name, MAX_GAME_BYTES)?;
    match read_span(alloc, &text) {
        Ok(game) => Ok(game),
        Err(FileError::Bad { number, line }) => Err(Halt::Refused(Refusal::Game { number, line })),
        Err(FileError::Memory) => Err(Halt::Stopped(Stop::Memory)),
    }
}

/// The certificate of a connectivity game under this name.
pub fn open_span_cert<F: Files>(alloc: Global, files: &mut F, name: &str) -> Result<SpanCert, Halt>
    ensures opened { OpensSpanCert (F.told files.old).held name.now result }
    ensures ranges { IfOk result IsWithinRanges }
    ensures halts { IfErr result IsReadHalt }
    ensures causes { HaltCauses (IsAbsent (F.told files.old).held name.now)
        (F.told files.old).faults (F.told files.new).faults result }
    ensures kept { ReadsOnly (F.told files.old) (F.told files.new) }
{
    let text = read_whole(alloc, files, name, MAX_SPAN_CERT_BYTES)?;
    match read_span_cert(alloc, &text) {
        Ok(certificate) => Ok(certificate),
        Err(FileError::Bad { number, line }) => {
            Err(Halt::Refused(Refusal::Certificate { number, line }))
        }
        Err(FileError::Memory) => Err(Halt::Stopped(Stop::Memory)),
    }
}

/// The connectivity game and the certificate under these names. The certificate is opened only
/// where the game is taken.
pub fn open_span_both<F: Files>(
    alloc: Global,
    files: &mut F,
    game: &str,
    certificate: &str,
) -> Result<(SpanGame, SpanCert), Halt>
    ensures opened { OpensSpanBoth (F.told files.old).held game.now certificate.now result }
    ensures ranges { IfOk result (λ both. IsWithinRanges both.1) }
    ensures halts { IfErr result IsReadHalt }
    ensures causes { HaltCauses (AreSpansLacking (F.told files.old).held game.now certificate.now)
        (F.told files.old).faults (F.told files.new).faults result }
    ensures kept { ReadsOnly (F.told files.old) (F.told files.new) }
{
    let game = open_span(alloc, files, game)?;
    let certificate = open_span_cert(alloc, files, certificate)?;
    Ok((game, certificate))
}

/// The game on vectors under this name.
pub fn open_vectors<F: Files>(alloc: Global, files: &mut F, name: &str) -> Result<VecGame, Halt>
    ensures opened { OpensVectors (F.told files.old).held name.now result }
    ensures halts { IfErr result IsGameHalt }
    ensures causes { HaltCauses (IsAbsent (F.told files.old).held name.now)
        (F.told files.old).faults (F.told files.new).faults result }
    ensures kept { ReadsOnly (F.told files.old) (F.told files.new) }
{
    let text = read_whole(alloc, files, name, MAX_GAME_BYTES)?;
    match read_vectors(alloc, &text) {
        Ok(game) => Ok(game),
        Err(FileError::Bad { number, line }) => Err(Halt::Refused(Refusal::Game { number, line })),
        Err(FileError::Memory) => Err(Halt::Stopped(Stop::Memory)),
    }
}

/// The game on vectors and the certificate under these names. The certificate is opened only where
/// the game is taken.
pub fn open_vectors_both<F: Files>(
    alloc: Global,
    files: &mut F,
    game: &str,
    certificate: &str,
) -> Result<(VecGame, Cert), Halt>
    ensures opened { OpensVectorsBoth (F.told files.old).held game.now certificate.now result }
    ensures limits { IfOk result (λ both. IsWithinLimits both.1) }
    ensures halts { IfErr result IsReadHalt }
    ensures causes { HaltCauses (AreVectorsLacking (F.told files.old).held game.now certificate.now)
        (F.told files.old).faults (F.told files.new).faults result }
    ensures kept { ReadsOnly (F.told files.old) (F.told files.new) }
{
    let game = open_vectors(alloc, files, game)?;
    let certificate = open_certificate(alloc, files, certificate)?;
    Ok((game, certificate))
}
