//! Files that are read in order and written in order, one of each at a time.
ghost use Rattle.std.specs.Prelude.{◌≡◌, ◌<◌, ◌≤◌, true, false, length, IfOk, OnOk, OnErr, IsTrue};
ghost use Rattle.std.specs.Prelude.{None};
ghost use Rattle.pg_io.specs.Causes.{BlamesOpen, BlamesReads, BlamesWrites};
ghost use Rattle.pg_io.specs.Files.{FilesTold, ReadsOnly, Opens, IsAbsent, Takes, Begins, Adds};
ghost use Rattle.pg_io.specs.Files.{Finishes};

/// A call on files or on a console has failed. The object's numbers of faults tell of which kind it
/// was.
#[derive(Clone, Copy, Debug, PartialEq, Eq)]
pub struct Failed;

/// Files by their names: one is read at a time, and one is made at a time.
///
/// An implementation tells which bytes stand under which names, what is unread and what is being
/// made, or it tells nothing of bytes, as the files of the system do; which of both never changes.
/// Whether a file is being made and two numbers of faults are always known: how many calls of
/// `open` and `next` have failed, and how many of `create`, `append` and `finish`. A call that
/// answers Ok leaves both as they were.
pub trait Files {
    /// All that is known of the files.
    ghost told: { Self → FilesTold };

    /// Opens the file of this name for reading from its first byte.
    ///
    /// `Failed` means a fault of reading, which is counted, or that the name isn't held. A name
    /// that is known not to be held is no fault, and isn't counted.
    fn open(&mut self, name: &str) -> Result<(), Failed>
        ensures opened { Opens (told self.old).held name.now (told self.new).left result }
        ensures cause { BlamesOpen (IsAbsent (told self.old).held name.now)
            (told self.old).faults (told self.new).faults result }
        ensures kept { ReadsOnly (told self.old) (told self.new) };

    /// Moves the next bytes of the open file to the front of the buffer, and answers how many: none
    /// only at the end of the file, or where no file is open.
    ///
    /// `Failed` means a fault of reading.
    fn next(&mut self, buf: &mut [u8]) -> Result<usize, Failed>
        requires { 0 < length buf.old }
        ensures bound { IfOk result (λ k. k ≤ length buf.new) }
        ensures bytes { Takes (told self.old).left (told self.new).left buf.new result }
        ensures cause { BlamesReads (told self.old).faults (told self.new).faults result }
        ensures kept { ReadsOnly (told self.old) (told self.new) };

    /// Begins an empty file for this name, and drops one that wasn't finished. What the name holds
    /// stays until `finish`.
    ///
    /// `Failed` means a fault of writing; then no file is being made.
    fn create(&mut self, name: &str) -> Result<(), Failed>
        ensures begun { OnOk result (Begins (told self.old).held name.now (told self.new).making) }
        ensures dropped { OnErr result ((told self.new).making ≡ None) }
        ensures cause { BlamesWrites (told self.old).faults (told self.new).faults result }
        ensures held { (told self.new).held ≡ (told self.old).held }
        ensures busy { OnOk result ((told self.new).busy ≡ true) }
        ensures idle { OnErr result ((told self.new).busy ≡ false) };

    /// Adds all the bytes to the file that is being made.
    ///
    /// `Failed` means a fault of writing; then no file is being made.
    fn append(&mut self, bytes: &[u8]) -> Result<(), Failed>
        requires { IsTrue (told self.old).busy }
        ensures added { OnOk result
            (Adds (told self.old).held (told self.old).making bytes.now (told self.new).making) }
        ensures dropped { OnErr result ((told self.new).making ≡ None) }
        ensures cause { BlamesWrites (told self.old).faults (told self.new).faults result }
        ensures held { (told self.new).held ≡ (told self.old).held }
        ensures busy { OnOk result ((told self.new).busy ≡ true) }
        ensures idle { OnErr result ((told self.new).busy ≡ false) };

    /// Stores the file that is being made under its name. No file is being made afterwards.
    ///
    /// `Failed` means a fault of writing; then the name holds what it held before or the new bytes,
    /// and nothing is left to be finished.
    fn finish(&mut self) -> Result<(), Failed>
        requires { IsTrue (told self.old).busy }
        ensures stored { Finishes (told self.old).held (told self.old).making
            (told self.new).held result }
        ensures dropped { (told self.new).making ≡ None }
        ensures cause { BlamesWrites (told self.old).faults (told self.new).faults result }
        ensures idle { (told self.new).busy ≡ false };
}
