//! Files in memory.
ghost use Rattle.std.specs.Prelude.{◌≡◌, ◌⊎◌, ◌<◌, ◌≤◌, ◌+◌, ◌^◌, Option, Some, None, true, false};
ghost use Rattle.std.specs.Prelude.{[], length, take, IfOk, IsErr, OnOk, OnErr, IsTrue, is_some};
ghost use Rattle.std.specs.List.{position};
ghost use Rattle.std.specs.Option.{option_map};
ghost use Rattle.std.specs.Result.{is_ok};
ghost use Rattle.pg_io.specs.Causes.{faults, BlamesOpen, BlamesReads, BlamesWrites};
ghost use Rattle.pg_io.specs.Files.{ReadsOnly, Opens, IsAbsent, Takes, Begins, Adds, Finishes};
ghost use Rattle.pg_io.specs.Memory.{has_name, held_by, contents, held_in, left_in, making_of};
ghost use Rattle.pg_io.specs.Memory.{told_by};
ghost use Rattle.pg_io.specs.Failing.{FailsNext, FailsAsListed, FailsJustAsListed};

use crate::failing::Failing;
use crate::files::{Failed, Files};
use crate::text::Text;
use std::alloc::Global;

/// The file that is being made.
#[derive(Debug, Drop)]
pub struct Draft {
    name: Text,
    bytes: Vec<u8>,
}

/// Files in memory, of which listed calls fail. They tell what they hold, what is unread and what
/// is being made.
#[derive(Drop)]
pub struct MemFiles {
    alloc: Global,
    files: Vec<(Text, Text)>,
    failing: Failing,
    opened: Option<usize>,
    from: usize,
    draft: Option<Draft>,
    reads: u64,
    writes: u64,
}

impl MemFiles {
    /// Files that hold these pairs of a name and its bytes; of several pairs with one name the
    /// first counts. No file is open and none is being made.
    ///
    /// `failing` lists the calls on these files that fail, by their numbers from 0. The allocator
    /// is kept for the files that are made; this call takes no memory.
    pub fn new(alloc: Global, files: Vec<(Text, Text)>, failing: Vec<u64>) -> MemFiles
        ensures held { held_in result ≡ held_by files.items }
        ensures left { left_in result ≡ [] }
        ensures making { making_of result.draft ≡ None }
        ensures busy { is_some result.draft ≡ false }
        ensures faults { (told_by result).faults ≡ faults 0 0 }
        ensures failing { result.failing.numbers.items ≡ failing.items }
        ensures made { result.failing.made ≡ 0 }
    {
        MemFiles {
            alloc,
            files,
            failing: Failing::new(failing),
            opened: None,
            from: 0,
            draft: None,
            reads: 0,
            writes: 0,
        }
    }

    /// The bytes that are held under the name, and none where it isn't held.
    pub fn bytes_of(&self, name: &str) -> Option<&[u8]>
        ensures { option_map (λ b. b.now) result ≡ held_in self.now name.now }
    {
        match self.place(name) {
            Some(place) => Some(self.files[place].1.as_slice()),
            None => None,
        }
    }

    /// Where the first file of this name stands.
    fn place(&self, name: &str) -> Option<usize>
        ensures { result ≡ position (has_name name.now) self.now.files.items }
    {
        self.files
            .iter()
            .position(|file| file.0.as_slice() == name.as_bytes())
    }

    /// All the bytes of the open file.
    fn contents(&self) -> &[u8]
        ensures { result.now ≡ contents self.now.files.items self.now.opened }
    {
        match self.opened {
            None => &[],
            Some(place) => match self.files.get(place) {
                None => &[],
                Some(file) => file.1.as_slice(),
            },
        }
    }

    /// What is unread of the open file.
    fn left(&self) -> &[u8]
        ensures left { result.now ≡ left_in self.now }
        ensures room { self.now.from + length result.now < 2 ^ 64 }
    {
        let from = self.from;
        let bytes = self.contents();
        if from <= bytes.len() {
            &bytes[from..]
        } else {
            &[]
        }
    }
}

impl Files for MemFiles {
    ghost use Rattle.pg_io.specs.Memory.{told_by};

    ghost told = { told_by };

    /// A listed call fails, and another only at a name that isn't held. A file that is open stays
    /// open then.
    fn open(&mut self, name: &str) -> Result<(), Failed>
        ensures opened { Opens (told_by self.old).held name.now (told_by self.new).left result }
        ensures cause { BlamesOpen (IsAbsent (told_by self.old).held name.now)
            (told_by self.old).faults (told_by self.new).faults result }
        ensures kept { ReadsOnly (told_by self.old) (told_by self.new) }
        ensures left { OnErr result (left_in self.new ≡ left_in self.old) }
        ensures listed { FailsAsListed self.old.failing self.new.failing result }
        ensures unlisted { OnErr result
            (FailsNext self.old.failing ⊎ IsAbsent (told_by self.old).held name.now) }
    {
        let is_listed = self.failing.is_next();
        match self.place(name) {
            None => Err(Failed),
            Some(_) if is_listed => {
                self.reads = self.reads.saturating_add(1);
                Err(Failed)
            }
            Some(place) => {
                self.opened = Some(place);
                self.from = 0;
                Ok(())
            }
        }
    }

    /// A listed call fails, and no other. Then nothing is taken.
    fn next(&mut self, buf: &mut [u8]) -> Result<usize, Failed>
        requires { 0 < length buf.old }
        ensures bound { IfOk result (λ k. k ≤ length buf.new) }
        ensures bytes { Takes (told_by self.old).left (told_by self.new).left buf.new result }
        ensures cause { BlamesReads (told_by self.old).faults (told_by self.new).faults result }
        ensures kept { ReadsOnly (told_by self.old) (told_by self.new) }
        ensures left { OnErr result (left_in self.new ≡ left_in self.old) }
        ensures listed { FailsJustAsListed self.old.failing self.new.failing result }
    {
        if self.failing.is_next() {
            self.reads = self.reads.saturating_add(1);
            return Err(Failed);
        }
        let left = self.left();
        let count = buf.len().min(left.len());
        buf[..count].copy_from_slice(&left[..count]);
        self.from += count;
        Ok(count)
    }

    /// A listed call fails, and another only for want of memory.
    fn create(&mut self, name: &str) -> Result<(), Failed>
        ensures begun { OnOk result
            (Begins (told_by self.old).held name.now (told_by self.new).making) }
        ensures dropped { OnErr result ((told_by self.new).making ≡ None) }
        ensures cause { BlamesWrites (told_by self.old).faults (told_by self.new).faults result }
        ensures held { (told_by self.new).held ≡ (told_by self.old).held }
        ensures busy { OnOk result ((told_by self.new).busy ≡ true) }
        ensures idle { OnErr result ((told_by self.new).busy ≡ false) }
        ensures listed { FailsAsListed self.old.failing self.new.failing result }
    {
        self.draft = None;
        if !self.failing.is_next() {
            if let Ok(name) = Text::new(self.alloc, name.as_bytes()) {
                self.draft = Some(Draft {
                    name,
                    bytes: Vec::new(self.alloc),
                });
                return Ok(());
            }
        }
        self.writes = self.writes.saturating_add(1);
        Err(Failed)
    }

    /// A listed call fails, and another only for want of memory.
    fn append(&mut self, bytes: &[u8]) -> Result<(), Failed>
        requires { IsTrue (told_by self.old).busy }
        ensures added { OnOk result
            (Adds (told_by self.old).held (told_by self.old).making bytes.now
            (told_by self.new).making) }
        ensures dropped { OnErr result ((told_by self.new).making ≡ None) }
        ensures cause { BlamesWrites (told_by self.old).faults (told_by self.new).faults result }
        ensures held { (told_by self.new).held ≡ (told_by self.old).held }
        ensures busy { (told_by self.new).busy ≡ is_ok result }
        ensures listed { FailsAsListed self.old.failing self.new.failing result }
    {
        if !self.failing.is_next() {
            if let Some(draft) = &mut self.draft {
                if draft.bytes.extend_from_slice(bytes).is_ok() {
                    return Ok(());
                }
            }
        }
        self.draft = None;
        self.writes = self.writes.saturating_add(1);
        Err(Failed)
    }

    /// A listed call fails, and another only for want of memory.
    fn finish(&mut self) -> Result<(), Failed>
        requires { IsTrue (told_by self.old).busy }
        ensures stored { Finishes (told_by self.old).held (told_by self.old).making
            (told_by self.new).held result }
        ensures dropped { (told_by self.new).making ≡ None }
        ensures cause { BlamesWrites (told_by self.old).faults (told_by self.new).faults result }
        ensures idle { (told_by self.new).busy ≡ false }
        ensures listed { FailsAsListed self.old.failing self.new.failing result }
    {
        // The places of the files move, and the new one stands in front of any other of its name.
        self.opened = None;
        let draft = self.draft.take();
        if !self.failing.is_next() {
            if let Some(draft) = draft {
                let file = (draft.name, Text::from_vec(draft.bytes));
                if let Ok(()) = self.files.insert(0, file) {
                    return Ok(());
                }
            }
        }
        self.writes = self.writes.saturating_add(1);
        Err(Failed)
    }
}
