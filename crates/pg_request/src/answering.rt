//! An answer: a status, a log and files.
ghost use Rattle.std.specs.Prelude.{◌≡◌, ◌++◌, ◌∷◌, length, map, string_bytes, IfOk, OnOk};
ghost use Rattle.pg_io.specs.Memory.{held_in};
ghost use Rattle.pg_request.specs.Answer.{answer, entry_part, frame, held_frame, part};

use pg_base::Memory;
use pg_io::{Entry, MemFiles};
use std::alloc::Global;

/// The sign of bytes that were printed.
pub const SAID: u8 = b'<';

/// The sign of a line that was read.
pub const HEARD: u8 = b'>';

/// The sign of the beginning of a line that is too long, which was read.
pub const SKIPPED: u8 = b'!';

/// The sign of the end of the input.
pub const ENDED: u8 = b'.';

/// Adds a part: its length in eight bytes, the lowest first, and its bytes.
#[tactic(auto, unfolding(crate::specs::Answer::part))]
fn put_part(answer: &mut Vec<u8>, bytes: &[u8]) -> Result<(), Memory>
    ensures { OnOk result (answer.new.items ≡ answer.old.items ++ part bytes.now) }
{
    answer.extend_from_slice(&(bytes.len() as u64).to_le_bytes())?;
    answer.extend_from_slice(bytes)?;
    Ok(())
}

/// Returns the bytes of an entry of a log, after the sign of what it is.
fn entry_part(alloc: Global, entry: &Entry) -> Result<Vec<u8>, Memory>
    ensures { IfOk result (λ part. part.items ≡ entry_part entry.now) }
{
    let (sign, bytes): (u8, &[u8]) = match entry {
        Entry::Said(text) => (SAID, text.as_slice()),
        Entry::Heard(text) => (HEARD, text.as_slice()),
        Entry::Skipped(text) => (SKIPPED, text.as_slice()),
        Entry::Ended => (ENDED, &[]),
    };
    let mut part = Vec::new(alloc);
    part.push(sign)?;
    part.extend_from_slice(bytes)?;
    Ok(part)
}

/// Returns the entries of a log, a part each.
fn log_frame(alloc: Global, log: &[Entry]) -> Result<Vec<u8>, Memory>
    ensures { IfOk result (λ bytes. bytes.items ≡ frame (map entry_part log.now)) }
{
    let mut bytes = Vec::new(alloc);
    for entry in log {
        let part = entry_part(alloc, entry)?;
        put_part(&mut bytes, &part)?;
    }
    Ok(bytes)
}

/// Adds two parts for each of the names that has a file: the name, and the file's bytes.
fn put_files(answer: &mut Vec<u8>, files: &MemFiles, names: &[String]) -> Result<(), Memory>
    ensures { OnOk result (answer.new.items ≡ answer.old.items
        ++ held_frame (held_in files.now) (map string_bytes names.now)) }
{
    for name in names {
        if let Some(bytes) = files.bytes_of(name) {
            put_part(answer, name.as_bytes())?;
            put_part(answer, bytes)?;
        }
    }
    Ok(())
}

/// Returns an answer: the status in one byte, the log, and the files of these names.
///
/// # Errors
///
/// `Memory` if memory runs out.
pub fn answer(
    alloc: Global,
    status: u8,
    log: &[Entry],
    files: &MemFiles,
    names: &[String],
) -> Result<Vec<u8>, Memory>
    ensures { IfOk result (λ bytes. bytes.items
        ≡ answer status log.now (held_in files.now) (map string_bytes names.now)) }
{
    let log = log_frame(alloc, log)?;
    let mut bytes = Vec::new(alloc);
    put_part(&mut bytes, &[status])?;
    put_part(&mut bytes, &log)?;
    put_files(&mut bytes, files, names)?;
    Ok(bytes)
}
