//! A certificate from the bytes of its file.

ghost use Rattle.std.specs.Prelude.{IfOk};
ghost use Rattle.pg_cert_files.specs.Prelude.{IsReadAs};
ghost use Rattle.pg_cert_files.specs.CertFile.{certificate};
ghost use Rattle.pg_cert.specs.Limits.{IsWithinLimits};

use crate::cert_gathering::CertGathering;
use pg_cert::Cert;
use pg_text::FileError;
use std::alloc::Global;

/// The certificate of a file.
pub fn read_cert(alloc: Global, bytes: &[u8]) -> Result<Cert, FileError>
    ensures read { IsReadAs result (certificate bytes.now) }
    ensures limits { IfOk result IsWithinLimits }
{
    let mut gathering = CertGathering::new(alloc);
    gathering.take(alloc, bytes)?;
    gathering.end(alloc)
}
