//! Files that have their places, and the folders of these.
use crate::part::Part;
use crate::place::{are_same, is_at};
use std::alloc::Allocator;
use std::fs::{File, TryLockError};
use std::path::Path;
use std::rt::Files as FileSystem;

/// The most tries to lock a folder. Runs of this program lock one for two calls of the system.
const MAX_LOCK_TRIES: u32 = 200_000;

/// The folder of a file that is stored, open where that is allowed.
#[derive(Drop)]
pub(crate) struct Folder {
    file: Option<File>,
}

impl Folder {
    /// Opens the folder of the place.
    pub(crate) fn of<R: FileSystem<File = File>>(rt: &R, place: &str) -> Folder {
        let path = match Path::new(place).parent() {
            Some(path) if !path.as_str().is_empty() => path.as_str(),
            _ => ".",
        };
        Folder {
            file: File::open(rt, path).ok(),
        }
    }

    /// Locks the folder, unless another program keeps it locked.
    pub(crate) fn lock(&self) {
        let Some(file) = &self.file else {
            return;
        };
        for _ in 0..MAX_LOCK_TRIES {
            match file.try_lock() {
                Err(TryLockError::WouldBlock) => {}
                _ => return,
            }
        }
    }

    /// Unlocks the folder.
    pub(crate) fn unlock(&self) {
        if let Some(file) = &self.file {
            let _ = file.unlock();
        }
    }

    /// Returns whether both are known to be the same folder.
    pub(crate) fn is_same(&self, other: &Folder) -> bool {
        let (Some(one), Some(other)) = (&self.file, &other.file) else {
            return false;
        };
        match (one.metadata(), other.metadata()) {
            (Ok(one), Ok(other)) => are_same(&one, &other),
            _ => false,
        }
    }

    /// Has the system keep the folder's names, as far as it can.
    pub(crate) fn sync(&self) {
        if let Some(file) = &self.file {
            let _ = file.sync_all();
        }
    }
}

/// A file that has its place. It stays open, so that the system gives its number to no other.
#[derive(Drop)]
pub(crate) struct Stored<A: Allocator> {
    pub(crate) part: Part<A>,
    pub(crate) folder: Folder,
}

impl<A: Allocator> Stored<A> {
    /// Returns whether the file still is at its place.
    pub(crate) fn is_there<R: FileSystem>(&self, rt: &R) -> bool {
        is_at(rt, &self.part.file, self.part.place())
    }
}
