//! The files of the system. They tell no bytes.
ghost use Rattle.std.specs.Prelude.{◌≡◌, is_some, false};

use crate::inside::Inside;
use crate::part::Part;
use crate::place::{Target, are_same, look, open_to_write};
use crate::stored::{Folder, Stored};
use pg_io::{Failed, Files};
use std::alloc::Allocator;
use std::fs::{File, Metadata};
use std::io;
use std::io::{ErrorKind, Print, Read, Write};
use std::path::PathBuf;
use std::rt::Files as FileSystem;

/// Where the bytes of a file that is being made go.
#[derive(Drop)]
enum Draft<A: Allocator> {
    /// To standard output, at once.
    Output,
    /// To a device or a pipe, at once.
    Stream(File),
    /// Into a new file, which takes its place at the end.
    Beside(Part<A>),
    /// Into memory, and at the end into a file that keeps its place.
    Within(Inside<A>),
}

/// The files of the system, by their paths.
///
/// A file is made in the folder of its name, under the first of `NAME.posgame-part0`,
/// `NAME.posgame-part1` and so on that no other run has, and takes its name when it is finished:
/// until then the name keeps what it held. If the name is a link, the plain file that it leads to
/// is replaced. A device, a pipe, and what standard output writes to, if a link leads there, get
/// the bytes at once. A plain file that no other may replace is written in place, when all its
/// bytes are there.
#[derive(Drop)]
pub struct HostFiles<'a, R: FileSystem<File = File> + Alloc> {
    rt: &'a R,
    opened: Option<File>,
    draft: Option<Draft<R::A>>,
    /// The first file that took its place in this run.
    stored: Option<Stored<R::A>>,
    /// Whether the open file is never replaced.
    spares_opened: bool,
    /// The name whose file is the last one of a batch.
    last: Option<&'a str>,
    /// Whether the file that is being made is one of a batch before the last.
    is_early: bool,
    reads: u64,
    writes: u64,
}

impl<'a, R: FileSystem<File = File> + Alloc> HostFiles<'a, R> {
    /// The files of this system. None is open, none is being made, and no fault is counted. It
    /// takes no memory.
    pub fn new(rt: &'a R) -> HostFiles<'a, R>
        ensures busy { is_some result.draft ≡ false }
        ensures faults { (result.reads ≡ 0) × (result.writes ≡ 0) }
    {
        HostFiles {
            rt,
            opened: None,
            draft: None,
            stored: None,
            spares_opened: false,
            last: None,
            is_early: false,
            reads: 0,
            writes: 0,
        }
    }

    /// As [`HostFiles::new`], but the file that is open for reading is never replaced: a `create`
    /// for its name fails.
    pub fn sparing_opened(rt: &'a R) -> HostFiles<'a, R>
        ensures busy { is_some result.draft ≡ false }
        ensures faults { (result.reads ≡ 0) × (result.writes ≡ 0) }
    {
        let mut files = HostFiles::new(rt);
        files.spares_opened = true;
        files
    }

    /// As [`HostFiles::new`], but the files that are stored are a batch, of which the one with this
    /// name is the last. The folder of the batch is synced before this takes its place, and then
    /// once more, and not with each file. So if the last file is there after the machine was
    /// stopped, all are; if it isn't, some of the others may be lost.
    pub fn ending_with(rt: &'a R, last: &'a str) -> HostFiles<'a, R>
        ensures busy { is_some result.draft ≡ false }
        ensures faults { (result.reads ≡ 0) × (result.writes ≡ 0) }
    {
        let mut files = HostFiles::new(rt);
        files.last = Some(last);
        files
    }

    /// Begins an empty file for the name, where its bytes are to go.
    fn begin(&self, name: &str) -> io::Result<Draft<R::A>> {
        match look(self.rt, name)? {
            Target::Output => Ok(Draft::Output),
            Target::Stream => self.begin_stream(name),
            Target::Plain(place, found) => self.begin_plain(place, found),
            Target::Free(place) => Ok(Draft::Beside(Part::begin(self.rt, place, None)?)),
        }
    }

    /// Opens a device or a pipe.
    fn begin_stream(&self, name: &str) -> io::Result<Draft<R::A>> {
        let file = open_to_write(self.rt, name)?;
        if file.metadata()?.is_file() {
            return Err(io::Error::from(ErrorKind::NotFound));
        }
        Ok(Draft::Stream(file))
    }

    /// Begins a file that takes the place of a plain one, or is to be written into it.
    fn begin_plain(&self, place: PathBuf<R::A>, found: Metadata) -> io::Result<Draft<R::A>> {
        if self.spares(&found) {
            return Err(io::Error::from(ErrorKind::AlreadyExists));
        }
        let path = PathBuf::from_str(self.rt.alloc(), place.as_path().as_str())?;
        match Part::begin(self.rt, path, Some(&found)) {
            Ok(part) => Ok(Draft::Beside(part)),
            Err(error) if keeps_place(&error) => {
                let inside = Inside::begin(self.rt, place, Vec::new(self.rt.alloc()))?;
                Ok(Draft::Within(inside))
            }
            Err(error) => Err(error),
        }
    }

    /// Returns whether this file is open for reading and is not to be replaced.
    fn spares(&self, found: &Metadata) -> bool {
        match &self.opened {
            Some(file) if self.spares_opened => match file.metadata() {
                Ok(opened) => are_same(&opened, found),
                Err(_) => true,
            },
            _ => false,
        }
    }

    /// Writes bytes to where the file that is being made has them.
    fn write(&self, draft: &mut Draft<R::A>, bytes: &[u8]) -> io::Result<()>
    where
        R: Print,
    {
        match draft {
            Draft::Output => io::writer(self.rt).write_all(bytes),
            Draft::Stream(file) => file.write_all(bytes),
            Draft::Beside(part) => part.file.write_all(bytes),
            Draft::Within(inside) => inside.add(bytes),
        }
    }

    /// Stores the file that was being made, and returns it if it has taken its place.
    fn settle(&self, draft: Draft<R::A>) -> io::Result<Option<Stored<R::A>>> {
        match draft {
            Draft::Output => {}
            Draft::Stream(mut file) => file.flush()?,
            Draft::Beside(part) => return self.settle_part(part),
            Draft::Within(inside) => inside.write(self.rt)?,
        }
        Ok(None)
    }

    /// Gives the part its place, or writes its bytes into the file that keeps the place.
    fn settle_part(&self, mut part: Part<R::A>) -> io::Result<Option<Stored<R::A>>> {
        let folder = Folder::of(self.rt, part.place());
        self.sync_batch();
        let outcome = match self.rename(&part, &folder) {
            Ok(()) => {
                self.sync_after(&folder);
                return Ok(Some(Stored { part, folder }));
            }
            Err(error) if keeps_place(&error) => self.write_within(&mut part),
            Err(error) => Err(error),
        };
        part.remove(self.rt);
        outcome?;
        Ok(None)
    }

    /// Syncs the folder of the batch before its last file.
    fn sync_batch(&self) {
        if self.last.is_some() && !self.is_early {
            if let Some(first) = &self.stored {
                first.folder.sync();
            }
        }
    }

    /// Syncs the folder in which a file was stored, unless that is done before the last one.
    fn sync_after(&self, folder: &Folder) {
        let is_of_batch = match &self.stored {
            Some(first) => first.folder.is_same(folder),
            None => true,
        };
        if !(self.is_early && is_of_batch) {
            folder.sync();
        }
    }

    /// Gives the part its place, if what this run has stored first is still there.
    ///
    /// No other run can store a file in the same folder between the look and the renaming.
    fn rename(&self, part: &Part<R::A>, folder: &Folder) -> io::Result<()> {
        part.file.sync_all()?;
        let Some(stored) = &self.stored else {
            folder.lock();
            let outcome = part.rename(self.rt);
            folder.unlock();
            return outcome;
        };
        stored.folder.lock();
        let outcome = if stored.is_there(self.rt) {
            part.rename(self.rt)
        } else {
            Err(io::Error::from(ErrorKind::NotFound))
        };
        stored.folder.unlock();
        outcome
    }

    /// Writes the bytes of the part into the file that keeps the place.
    fn write_within(&self, part: &mut Part<R::A>) -> io::Result<()> {
        let place = PathBuf::from_str(self.rt.alloc(), part.place())?;
        let bytes = part.read_back(self.rt.alloc())?;
        Inside::begin(self.rt, place, bytes)?.write(self.rt)
    }

    /// Removes a file that isn't finished, if that is possible.
    fn discard(&self, draft: Draft<R::A>) {
        if let Draft::Beside(part) = draft {
            part.remove(self.rt);
        }
    }
}

/// Returns whether an error says that no other file may take the place of the one there.
fn keeps_place(error: &io::Error) -> bool {
    matches!(
        error.kind(),
        ErrorKind::PermissionDenied
            | ErrorKind::ReadOnlyFilesystem
            | ErrorKind::ResourceBusy
            | ErrorKind::CrossesDevices
    )
}

impl<'a, R: FileSystem<File = File> + Alloc + Print> Files for HostFiles<'a, R> {
    ghost use Rattle.std.specs.Prelude.{None, is_some};
    ghost use Rattle.pg_io.specs.Causes.{faults};

    ghost told = { λ h. record {
      held = None;
      left = None;
      making = None;
      busy = is_some h.draft;
      faults = faults h.reads h.writes;
    } };

    fn open(&mut self, name: &str) -> Result<(), Failed> {
        match File::open(self.rt, name) {
            Ok(file) => {
                self.opened = Some(file);
                Ok(())
            }
            Err(_) => {
                self.reads = self.reads.saturating_add(1);
                Err(Failed)
            }
        }
    }

    fn next(&mut self, buf: &mut [u8]) -> Result<usize, Failed> {
        let Some(file) = &mut self.opened else {
            return Ok(0);
        };
        match file.read(buf) {
            Ok(count) => Ok(count),
            Err(_) => {
                self.reads = self.reads.saturating_add(1);
                Err(Failed)
            }
        }
    }

    fn create(&mut self, name: &str) -> Result<(), Failed> {
        if let Some(draft) = self.draft.take() {
            self.discard(draft);
        }
        self.is_early = match self.last {
            Some(last) => name != last,
            None => false,
        };
        match self.begin(name) {
            Ok(draft) => {
                self.draft = Some(draft);
                Ok(())
            }
            Err(_) => {
                self.writes = self.writes.saturating_add(1);
                Err(Failed)
            }
        }
    }

    fn append(&mut self, bytes: &[u8]) -> Result<(), Failed> {
        if let Some(mut draft) = self.draft.take() {
            if self.write(&mut draft, bytes).is_ok() {
                self.draft = Some(draft);
                return Ok(());
            }
            self.discard(draft);
        }
        self.writes = self.writes.saturating_add(1);
        Err(Failed)
    }

    fn finish(&mut self) -> Result<(), Failed> {
        if let Some(draft) = self.draft.take() {
            if let Ok(stored) = self.settle(draft) {
                if self.stored.is_none() {
                    self.stored = stored;
                }
                return Ok(());
            }
        }
        self.writes = self.writes.saturating_add(1);
        Err(Failed)
    }
}
