//! Reading a file, and storing one.
ghost use Rattle.std.specs.Prelude.{◌≡◌, ◌≢◌, false, Err, ◌+◌, ◌<◌, length, take, IfOk, IfSome};
ghost use Rattle.pg_io.specs.Files.{IsAbsent, ReadsOnly};
ghost use Rattle.pg_io.specs.Stop.{Causes};
ghost use Rattle.pg_io.specs.Reading.{Goes, IsFile, Pours, Stored};

use crate::files::Files;
use crate::sink::Sink;
use crate::stop::Stop;
use std::alloc::{AllocError, Global};

/// The most bytes that are asked for at a time.
pub const MAX_PIECE_BYTES: usize = 65_536;

/// Room for a piece of a file. The length is given by a limit alone, so that no proof unfolds the
/// list.
fn piece(alloc: Global) -> Result<Vec<u8>, AllocError>
    ensures { IfOk result (λ buf. 0 < length buf.items) }
{
    vec![in alloc; 0; MAX_PIECE_BYTES]
}

/// Pours the open file into the sink, to its end or to one byte more than the limit.
fn pour_open<F: Files, S: Sink>(
    alloc: Global,
    files: &mut F,
    limit: usize,
    buf: &mut [u8],
    sink: &mut S,
) -> Result<(), Stop>
    requires room { 0 < length buf.old }
    requires ready { S.ready sink.old }
    ensures ready { IfOk result (λ _. S.ready sink.new) }
    ensures poured { IfOk result (λ _. IfSome (F.told files.old).left
        (λ left. Goes S.took sink.old sink.new (take (limit + 1) left))) }
    ensures causes { Causes ⊥ (F.told files.old).faults (F.told files.new).faults result }
    ensures kept { ReadsOnly (F.told files.old) (F.told files.new) }
{
    let mut spare = Some(limit);
    while let Some(within) = spare {
        let room = buf.len().min(within.saturating_add(1));
        let Ok(count) = files.next(&mut buf[..room]) else {
            return Err(Stop::Read);
        };
        if count == 0 {
            break;
        }
        sink.take(alloc, &buf[..count])?;
        spare = within.checked_sub(count);
    }
    Ok(())
}

/// Pours the file of this name into a sink as it comes, to its end or to one byte more than the
/// limit.
///
/// The sink gets pieces of up to `MAX_PIECE_BYTES` bytes, and more bytes than the limit only where
/// the file is too long. `Stop::Read` means that a call has failed, or that the name isn't held;
/// `Stop::Memory` means that memory was refused.
pub fn pour<F: Files, S: Sink>(
    alloc: Global,
    files: &mut F,
    name: &str,
    limit: usize,
    sink: &mut S,
) -> Result<(), Stop>
    requires { S.ready sink.old }
    ensures ready { IfOk result (λ _. S.ready sink.new) }
    ensures poured { IfOk result
        (λ _. Pours (F.told files.old).held name.now limit S.took sink.old sink.new) }
    ensures causes { Causes (IsAbsent (F.told files.old).held name.now)
        (F.told files.old).faults (F.told files.new).faults result }
    ensures kept { ReadsOnly (F.told files.old) (F.told files.new) }
{
    let mut buf = piece(alloc)?;
    if files.open(name).is_err() {
        return Err(Stop::Read);
    }
    pour_open(alloc, files, limit, &mut buf, sink)
}

/// Reads the file of this name to its end, or to one byte more than the limit.
///
/// More bytes than the limit mean that the file is too long. `Stop::Read` means that a call has
/// failed, or that the name isn't held; `Stop::Memory` means that memory was refused.
pub fn read_whole<F: Files>(
    alloc: Global,
    files: &mut F,
    name: &str,
    limit: usize,
) -> Result<Vec<u8>, Stop>
    ensures bytes { IfOk result
        (λ bytes. IsFile (F.told files.old).held name.now limit bytes.items) }
    ensures causes { Causes (IsAbsent (F.told files.old).held name.now)
        (F.told files.old).faults (F.told files.new).faults result }
    ensures kept { ReadsOnly (F.told files.old) (F.told files.new) }
{
    let mut bytes = Vec::new(alloc);
    pour(alloc, files, name, limit, &mut bytes)?;
    Ok(bytes)
}

/// Stores these bytes under the name, in place of what it held.
///
/// `Stop::Write` means that a call has failed, and it is the only error; then the name holds what
/// it held before or these bytes. However it ends, no file is being made afterwards.
pub fn store<F: Files>(files: &mut F, name: &str, bytes: &[u8]) -> Result<(), Stop>
    ensures stored { Stored (F.told files.old).held (F.told files.new).held
        (name.now, bytes.now) result }
    ensures idle { (F.told files.new).busy ≡ false }
    ensures causes { Causes ⊥ (F.told files.old).faults (F.told files.new).faults result }
    ensures fed { result ≢ Err Stop.Memory }
    ensures written { result ≢ Err Stop.Read }
{
    if files.create(name).is_err() {
        return Err(Stop::Write);
    }
    if files.append(bytes).is_err() {
        return Err(Stop::Write);
    }
    if files.finish().is_err() {
        return Err(Stop::Write);
    }
    Ok(())
}
