//! Plain files that are written in place.
use crate::place::{is_at, open_to_write};
use std::alloc::Allocator;
use std::fs::File;
use std::io;
use std::io::ErrorKind;
use std::os::unix::fs::FileExt;
use std::path::PathBuf;
use std::rt::Files as FileSystem;

/// A plain file whose place no other may take, and the bytes that it gets when they are all there.
#[derive(Drop)]
pub(crate) struct Inside<A: Allocator> {
    file: File,
    place: PathBuf<A>,
    bytes: Vec<u8, A>,
}

impl<A: Allocator> Inside<A> {
    /// Opens the plain file at this place, which keeps its bytes, and takes the first bytes for it.
    ///
    /// A file without permission to write, and one that has taken the place of another meanwhile,
    /// is an error.
    pub(crate) fn begin<R: FileSystem<File = File>>(
        rt: &R,
        place: PathBuf<A>,
        bytes: Vec<u8, A>,
    ) -> io::Result<Inside<A>> {
        let file = open_to_write(rt, place.as_path().as_str())?;
        let inside = Inside { file, place, bytes };
        if inside.is_there(rt) {
            Ok(inside)
        } else {
            Err(io::Error::from(ErrorKind::NotFound))
        }
    }

    /// Adds bytes to those that the file gets.
    pub(crate) fn add(&mut self, bytes: &[u8]) -> io::Result<()> {
        Ok(self.bytes.extend_from_slice(bytes)?)
    }

    /// Writes the bytes in place of those of the file.
    pub(crate) fn write<R: FileSystem>(self, rt: &R) -> io::Result<()> {
        if self.is_there(rt) {
            replace_bytes(&self.file, self.bytes.as_slice())
        } else {
            Err(io::Error::from(ErrorKind::NotFound))
        }
    }

    /// Returns whether the file is plain and is at its place.
    fn is_there<R: FileSystem>(&self, rt: &R) -> bool {
        let is_plain = match self.file.metadata() {
            Ok(found) => found.is_file(),
            Err(_) => false,
        };
        is_plain && is_at(rt, &self.file, self.place.as_path().as_str())
    }
}

/// Gives the file these bytes in place of those that it has.
///
/// What goes after the old bytes is written first. If there is no room for it, the old bytes stay.
fn replace_bytes(file: &File, bytes: &[u8]) -> io::Result<()> {
    let old = file.metadata()?.len();
    let both = usize::try_from(old).unwrap_or(usize::MAX).min(bytes.len());
    if let Err(error) = file.write_all_at(&bytes[both..], old) {
        let _ = file.set_len(old);
        return Err(error);
    }
    file.write_all_at(&bytes[..both], 0)?;
    file.set_len(bytes.len() as u64)?;
    file.sync_all()
}
