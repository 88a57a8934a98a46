//! Files that need not be there.
ghost use Rattle.std.specs.Prelude.{IfOk};
ghost use Rattle.pg_io.specs.Files.{ReadsOnly};
ghost use Rattle.pg_splitting.specs.Looking.{IsFoundAt, LookCauses};

use pg_io::{Files, Stop, read_whole};
use std::alloc::Global;

/// Reads the file of this name to its end, or to one byte more than the limit. None if it can't be
/// opened.
///
/// # Errors
///
/// `Stop::Read` if a read failed after the file was opened, and `Stop::Memory` if memory ran out.
pub(crate) fn read_if_there<F: Files>(
    alloc: Global,
    files: &mut F,
    name: &str,
    limit: usize,
) -> Result<Option<Vec<u8>>, Stop>
    ensures found { IfOk result
        (λ found. IsFoundAt (F.told files.old) (F.told files.new) name.now limit found) }
    ensures causes { LookCauses (F.told files.old).faults (F.told files.new).faults result }
    ensures kept { ReadsOnly (F.told files.old) (F.told files.new) }
{
    match files.open(name) {
        Ok(()) => {
            let bytes = read_whole(alloc, files, name, limit)?;
            Ok(Some(bytes))
        }
        Err(_) => Ok(None),
    }
}
