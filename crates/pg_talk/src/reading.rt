//! Reading a certificate.
ghost use Rattle.std.specs.Prelude.{IfErr, IfOk};
ghost use Rattle.pg_io.specs.Files.{IsAbsent, ReadsOnly};
ghost use Rattle.pg_cert.specs.Limits.{IsWithinLimits};
ghost use Rattle.pg_talk.specs.Halts.{HaltCauses, IsReadHalt};
ghost use Rattle.pg_talk.specs.Reading.{OpensCertificate};

use crate::halt::Halt;
use pg_cert::Cert;
use pg_cert_files::{CertFault, MAX_CERT_BYTES, read_cert};
use pg_io::{Files, Stop, read_whole};
use pg_messages::Refusal;
use std::alloc::Global;

/// The certificate under this name.
pub fn open_certificate<F: Files>(alloc: Global, files: &mut F, name: &str) -> Result<Cert, Halt>
    ensures opened { OpensCertificate (F.told files.old).held name.now result }
    ensures limits { IfOk result (λ certificate. IsWithinLimits certificate) }
    ensures halts { IfErr result IsReadHalt }
    ensures causes { HaltCauses (IsAbsent (F.told files.old).held name.now)
        (F.told files.old).faults (F.told files.new).faults result }
    ensures kept { ReadsOnly (F.told files.old) (F.told files.new) }
{
    let text = read_whole(alloc, files, name, MAX_CERT_BYTES)?;
    match read_cert(alloc, &text) {
        Ok(certificate) => Ok(certificate),
        Err(CertFault::Bad { number, line }) => {
            Err(Halt::Refused(Refusal::Certificate { number, line }))
        }
        Err(CertFault::Memory) => Err(Halt::Stopped(Stop::Memory)),
    }
}
