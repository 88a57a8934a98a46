//! What the names of the system lead to.
use std::alloc::Allocator;
use std::fs::{File, Metadata, OpenOptions};
use std::io;
use std::io::ErrorKind;
use std::os::unix::fs::MetadataExt;
use std::path::PathBuf;
use std::rt::Files as FileSystem;

/// The most links that are followed from one name.
const MAX_LINKS: u8 = 40;

/// A name that leads to what standard output writes to.
const OUTPUT: &str = "/proc/self/fd/1";

/// What a name leads to.
#[derive(Drop)]
pub(crate) enum Target<A: Allocator> {
    /// What standard output writes to, by a link.
    Output,
    /// A device, a pipe or a folder.
    Stream,
    /// A plain file at this path, which is no link.
    Plain(PathBuf<A>, Metadata),
    /// Nothing: no file has this path.
    Free(PathBuf<A>),
}

/// Looks at what the name leads to.
///
/// A name that can't be looked at, and one that is changed meanwhile, is an error.
pub(crate) fn look<R: FileSystem + Alloc>(rt: &R, name: &str) -> io::Result<Target<R::A>> {
    let found = match rt.metadata(name) {
        Ok(found) => found,
        Err(error) if error.kind() == ErrorKind::NotFound => {
            return Ok(Target::Free(follow(rt, name)?));
        }
        Err(error) => return Err(error),
    };
    if is_link(rt, name) && is_output(rt, &found) {
        return Ok(Target::Output);
    }
    if !found.is_file() {
        return Ok(Target::Stream);
    }
    let path = follow(rt, name)?;
    if leads_to(rt, path.as_path().as_str(), &found) {
        Ok(Target::Plain(path, found))
    } else {
        Err(io::Error::from(ErrorKind::NotFound))
    }
}

/// Opens what is there for writing: nothing is made, and nothing is cut.
pub(crate) fn open_to_write<R: FileSystem<File = File>>(rt: &R, path: &str) -> io::Result<File> {
    let mut options = OpenOptions::new();
    options.write(true);
    options.open(rt, path)
}

/// Returns whether both are the same file of the system.
pub fn are_same(one: &Metadata, other: &Metadata) -> bool {
    one.dev() == other.dev() && one.ino() == other.ino()
}

/// Returns whether the path is the open file, and no link to it.
pub(crate) fn is_at<R: FileSystem>(rt: &R, file: &File, path: &str) -> bool {
    match file.metadata() {
        Ok(found) => leads_to(rt, path, &found),
        Err(_) => false,
    }
}

/// Returns whether the path is the file that was found, and no link to it.
fn leads_to<R: FileSystem>(rt: &R, path: &str, found: &Metadata) -> bool {
    match rt.symlink_metadata(path) {
        Ok(there) => are_same(&there, found),
        Err(_) => false,
    }
}

/// Returns whether the name is a link.
fn is_link<R: FileSystem>(rt: &R, name: &str) -> bool {
    match rt.symlink_metadata(name) {
        Ok(there) => there.is_symlink(),
        Err(_) => false,
    }
}

/// Returns whether standard output writes to what was found.
fn is_output<R: FileSystem>(rt: &R, found: &Metadata) -> bool {
    match rt.metadata(OUTPUT) {
        Ok(output) => are_same(&output, found),
        Err(_) => false,
    }
}

/// Follows the links at the end of the name, and returns the first path that is none.
///
/// More than `MAX_LINKS` links are an error.
fn follow<R: FileSystem + Alloc>(rt: &R, name: &str) -> io::Result<PathBuf<R::A>> {
    let mut path = PathBuf::from_str(rt.alloc(), name)?;
    for _ in 0..MAX_LINKS {
        match rt.read_link(rt.alloc(), path.as_path().as_str()) {
            Ok(next) => path.set_file_name(next.as_path().as_str())?,
            Err(error) if is_no_link(&error) => return Ok(path),
            Err(error) => return Err(error),
        }
    }
    Err(io::Error::from(ErrorKind::FilesystemLoop))
}

/// Returns whether no link could be read because there is none.
fn is_no_link(error: &io::Error) -> bool {
    matches!(error.kind(), ErrorKind::NotFound | ErrorKind::InvalidInput)
}
