//! New files that aren't finished, in the folders of those whose places they take.
use crate::place::is_at;
use std::alloc::Allocator;
use std::fs::{File, Metadata, OpenOptions, Permissions, TryLockError};
use std::io;
use std::io::{ErrorKind, Read, Seek, SeekFrom};
use std::os::unix::fs::{MetadataExt, OpenOptionsExt, PermissionsExt, fchown};
use std::path::{Path, PathBuf};
use std::rt::Files as FileSystem;

/// The most names that are tried for a file that isn't finished.
pub const MAX_PART_NAMES: u8 = 100;

/// The most bytes of a file's name that the name of its part repeats, so that this has at most 255.
const MAX_KEPT_BYTES: usize = 240;

/// The bits of a mode that say who may read, write and run a file.
const PERMISSION_BITS: u32 = 0o777;

/// The mode of a new file, from which the system takes what the user's mask names.
const NEW_MODE: u32 = 0o666;

/// The mode of a part until it has that of the file whose place it takes.
const OWN_MODE: u32 = 0o600;

/// A new file that isn't finished, and is locked as long as it is open.
#[derive(Drop)]
pub(crate) struct Part<A: Allocator> {
    pub(crate) file: File,
    /// Where it is written.
    path: PathBuf<A>,
    /// The path that it takes when it is finished.
    place: PathBuf<A>,
}

impl<A: Allocator> Part<A> {
    /// Begins an empty file in the folder of the place, with owner and mode of the old file there.
    ///
    /// Parts of this place that no run is writing any more are removed on the way.
    pub(crate) fn begin<R: FileSystem<File = File> + Alloc<A = A>>(
        rt: &R,
        place: PathBuf<A>,
        old: Option<&Metadata>,
    ) -> io::Result<Part<A>> {
        for number in 0..MAX_PART_NAMES {
            let path = part_path(rt, place.as_path(), number)?;
            remove_stale(rt, path.as_path().as_str());
            if let Some(file) = open_new(rt, path.as_path().as_str(), old.is_some())? {
                if let Some(old) = old {
                    keep_owner_and_mode(&file, old);
                }
                return Ok(Part { file, path, place });
            }
        }
        Err(io::Error::from(ErrorKind::AlreadyExists))
    }

    /// The path that the file takes when it is finished.
    pub(crate) fn place(&self) -> &str {
        self.place.as_path().as_str()
    }

    /// Gives the file the path that it takes, in place of a plain file there.
    pub(crate) fn rename<R: FileSystem>(&self, rt: &R) -> io::Result<()> {
        match rt.symlink_metadata(self.place()) {
            Ok(there) if !there.is_file() => Err(io::Error::from(ErrorKind::AlreadyExists)),
            Err(error) if error.kind() != ErrorKind::NotFound => Err(error),
            _ => rt.rename(self.path.as_path().as_str(), self.place()),
        }
    }

    /// Reads all bytes of the file.
    pub(crate) fn read_back(&mut self, alloc: A) -> io::Result<Vec<u8, A>> {
        let mut bytes = Vec::new(alloc);
        self.file.seek(SeekFrom::Start(0))?;
        self.file.read_to_end(&mut bytes)?;
        Ok(bytes)
    }

    /// Removes the file, if that is possible.
    pub(crate) fn remove<R: FileSystem>(self, rt: &R) {
        let _ = rt.remove_file(self.path.as_path().as_str());
    }
}

/// Returns the path of the part with this number, for a file at the place.
fn part_path<R: Alloc>(rt: &R, place: Path<'_>, number: u8) -> io::Result<PathBuf<R::A>> {
    let Some(name) = place.file_name() else {
        return Err(io::Error::from(ErrorKind::InvalidInput));
    };
    let kept = if name.len() <= MAX_KEPT_BYTES {
        name
    } else {
        ""
    };
    let part = format!(in rt.alloc(); "{kept}.posgame-part{number}")?;
    Ok(place.with_file_name(rt.alloc(), part.as_str())?)
}

/// Removes the part at this path, if it is a plain file that no run holds locked.
fn remove_stale<R: FileSystem<File = File>>(rt: &R, path: &str) {
    match rt.symlink_metadata(path) {
        Ok(there) if there.is_file() => {}
        _ => return,
    }
    let Ok(file) = File::open(rt, path) else {
        return;
    };
    if file.try_lock().is_ok() && is_at(rt, &file, path) {
        let _ = rt.remove_file(path);
    }
}

/// Makes a new file at this path and locks it. None means that another file is there.
fn open_new<R: FileSystem<File = File>>(
    rt: &R,
    path: &str,
    replaces: bool,
) -> io::Result<Option<File>> {
    let mut options = OpenOptions::new();
    options
        .read(true)
        .write(true)
        .create_new(true)
        .mode(if replaces { OWN_MODE } else { NEW_MODE });
    let file: File = match options.open(rt, path) {
        Ok(file) => file,
        Err(error) if error.kind() == ErrorKind::AlreadyExists => return Ok(None),
        Err(error) => return Err(error),
    };
    // Another run may take a file for stale until it is locked.
    match file.try_lock() {
        Err(TryLockError::WouldBlock) => Ok(None),
        _ => Ok(is_at(rt, &file, path).then_some(file)),
    }
}

/// Gives the file the owner, the group and the mode of the old one, as far as that is allowed.
fn keep_owner_and_mode(file: &File, old: &Metadata) {
    let (owner, group) = (old.uid(), old.gid());
    if fchown(file, Some(owner), Some(group)).is_err() {
        let _ = fchown(file, None, Some(group));
    }
    let mode = old.mode() & PERMISSION_BITS;
    let _ = file.set_permissions(Permissions::from_mode(mode));
}
