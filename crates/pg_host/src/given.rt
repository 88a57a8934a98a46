//! What a program is given on its command line.
use pg_messages::{NO_MEMORY, NO_WORDS};
use std::env;
use std::env::Env;
use std::fs::File;
use std::io::{Eprint, ErrorKind};
use std::rt::Files as FileSystem;

/// Returns the words of the command line after the program's name, or the status without them.
pub fn words_given<R: Env + Alloc>(rt: &R) -> Result<Vec<String<R::A>, R::A>, u8> {
    let arguments = env::args(rt).map_err(|error| {
        if error.kind() == ErrorKind::OutOfMemory {
            NO_MEMORY
        } else {
            NO_WORDS
        }
    })?;
    let mut words = Vec::new(rt.alloc());
    for word in arguments.skip(1) {
        if words.push(word).is_err() {
            return Err(NO_MEMORY);
        }
    }
    Ok(words)
}

/// Prints to standard error why the program can't open a file, and returns whether it can't.
pub fn say_unreadable<R: FileSystem<File = File> + Eprint>(
    rt: &R,
    program: &str,
    name: &str,
) -> bool {
    let Err(error) = File::open(rt, name) else {
        return false;
    };
    let _ = eprintln!(rt; "{program}: {name}: {error}");
    true
}
