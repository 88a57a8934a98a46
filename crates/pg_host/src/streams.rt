//! The standard streams of a program.
use std::fs::File;
use std::os::fd::{AsRawFd, IntoRawFd, RawFd};
use std::rt::Files as FileSystem;

/// How many standard streams there are: input, output and errors.
const STREAMS: u8 = 3;

/// The number of the last standard stream.
const LAST_STREAM: RawFd = 2;

/// A folder: no byte can be read from it, and none written to it.
const NO_STREAM: &str = "/";

/// Keeps each standard stream that is closed from being taken by a file that is opened later.
///
/// Reading from such a stream, and writing to it, then fails until the program ends. A program
/// calls this before it opens any file.
pub fn guard_streams<R: FileSystem<File = File>>(rt: &R) {
    for _ in 0..STREAMS {
        let Ok(folder) = File::open(rt, NO_STREAM) else {
            return;
        };
        if folder.as_raw_fd() > LAST_STREAM {
            return;
        }
        let _ = folder.into_raw_fd();
    }
}
