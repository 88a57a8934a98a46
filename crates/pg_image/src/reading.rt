//! A certificate with images from the bytes of its file.
ghost use Rattle.std.specs.Prelude.{IfOk};
ghost use Rattle.pg_cert_lines.specs.Views.{IsReadAs};
ghost use Rattle.pg_image.specs.Limits.{IsImageWithinLimits};
ghost use Rattle.pg_image.specs.ImageFile.{image_certificate};

use crate::cert::ImageCert;
use crate::image_gathering::ImageGathering;
use pg_cert_files::CertFault;
use std::alloc::Global;

/// The certificate that a file of version 3 says, or its first fault with the number of the line.
///
/// # Errors
///
/// `Bad` with the number of the fault: 1 for a file of more than `MAX_CERT_BYTES` bytes, with line
/// 0; 2 where the first line isn't `posgame-cert 3`; 3 for a line that isn't of the form that is
/// due, also for `image` without exactly two words after it, and for an end where a first claim
/// line or a `nodes` line is due; 4 for a number's place that holds none or one out of range, also
/// for a map above 7; 5 for a node where none is due, or none where one is; 6 for too many claims
/// or nodes. `Memory` where no memory is left.
#[tactic(auto, unfolding(crate::specs::ImageFile::image_certificate))]
pub fn read_image(alloc: Global, bytes: &[u8]) -> Result<ImageCert, CertFault>
    ensures read { IsReadAs result (image_certificate bytes.now) }
    ensures limits { IfOk result IsImageWithinLimits }
{
    let mut gathering = ImageGathering::new(alloc);
    gathering.take(alloc, bytes)?;
    gathering.end(alloc)
}
