//! Files in memory, which come in pieces.
use pg_io::{Failed, Files, MemFiles, Text};
use std::alloc::{AllocError, Global};

/// Files in memory of which a read may give few bytes at a time.
#[derive(Drop)]
pub(crate) struct Held {
    /// The files.
    pub(crate) files: MemFiles,
    /// How many bytes the first read of a file gives at most.
    pub(crate) first: usize,
    /// How many bytes each other read gives at most.
    pub(crate) others: usize,
    /// How many bytes the next read gives at most.
    room: usize,
}

impl Files for Held {
    ghost use Rattle.pg_io.specs.Memory.{told_by};

    ghost told = { λ held. told_by held.files };

    fn open(&mut self, name: &str) -> Result<(), Failed> {
        self.room = self.first;
        self.files.open(name)
    }

    fn next(&mut self, buf: &mut [u8]) -> Result<usize, Failed> {
        let room = buf.len().min(self.room.max(1));
        self.room = self.others;
        self.files.next(&mut buf[..room])
    }

    fn create(&mut self, name: &str) -> Result<(), Failed> {
        self.files.create(name)
    }

    fn append(&mut self, bytes: &[u8]) -> Result<(), Failed> {
        self.files.append(bytes)
    }

    fn finish(&mut self) -> Result<(), Failed> {
        self.files.finish()
    }
}

/// These files, of whose calls those with these numbers fail. A read gives as many bytes as there
/// is room for.
pub(crate) fn held_files(
    alloc: Global,
    files: Vec<(Text, Text)>,
    fails: &[u64],
) -> Result<Held, AllocError> {
    Ok(Held {
        files: MemFiles::new(alloc, files, fails.to_vec(alloc)?),
        first: usize::MAX,
        others: usize::MAX,
        room: usize::MAX,
    })
}

/// A file of this name, with a line feed for each `;` of the text.
pub(crate) fn file(alloc: Global, name: &str, text: &str) -> Result<(Text, Text), AllocError> {
    let text = text.replace(alloc, ";", "\n")?;
    let name = Text::from_vec(name.as_bytes().to_vec(alloc)?);
    Ok((name, Text::from_vec(text.as_bytes().to_vec(alloc)?)))
}

/// Files that hold the game as G and the certificate as C.
pub(crate) fn holding(alloc: Global, game: &str, certificate: &str) -> Result<Held, AllocError> {
    let mut files = Vec::new(alloc);
    files.push(file(alloc, "G", game)?)?;
    files.push(file(alloc, "C", certificate)?)?;
    held_files(alloc, files, &[])
}
