//! The console of the system. It tells neither its input nor a log.
ghost use Rattle.std.specs.Prelude.{◌≡◌};

use pg_base::LINE_FEED;
use pg_io::{Console, Failed, Heard};
use std::io;
use std::io::{Input, Print, Read, Write};

/// The standard input and output. Nothing is written to standard error.
#[derive(Drop)]
pub struct HostConsole<'a, R: Input + Print> {
    rt: &'a R,
    reads: u64,
    writes: u64,
}

impl<'a, R: Input + Print> HostConsole<'a, R> {
    /// The console of this system. No fault is counted. It takes no memory.
    pub fn new(rt: &'a R) -> HostConsole<'a, R>
        ensures faults { (result.reads ≡ 0) × (result.writes ≡ 0) }
    {
        HostConsole {
            rt,
            reads: 0,
            writes: 0,
        }
    }

    /// Writes all the bytes to standard output, and flushes.
    fn write(&self, bytes: &[u8]) -> io::Result<()> {
        let mut output = io::writer(self.rt);
        output.write_all(bytes)?;
        output.flush()
    }
}

impl<'a, R: Input + Print> Console for HostConsole<'a, R> {
    ghost use Rattle.std.specs.Prelude.{None};
    ghost use Rattle.pg_io.specs.Causes.{faults};

    ghost told = { λ h. record { left = None; log = None; faults = faults h.reads h.writes } };

    fn say(&mut self, bytes: &[u8]) -> Result<(), Failed> {
        match self.write(bytes) {
            Ok(()) => Ok(()),
            Err(_) => {
                self.writes = self.writes.saturating_add(1);
                Err(Failed)
            }
        }
    }

    /// The bytes are read one by one, so that none is lost that follows the line.
    fn hear(&mut self, buf: &mut [u8]) -> Result<Heard, Failed> {
        let mut bytes = self.rt.reader().bytes();
        for count in 0..buf.len() {
            match bytes.next() {
                None if count == 0 => return Ok(Heard::End),
                None | Some(Ok(LINE_FEED)) => return Ok(Heard::Line(count)),
                Some(Ok(byte)) => buf[count] = byte,
                Some(Err(_)) => {
                    self.reads = self.reads.saturating_add(1);
                    return Err(Failed);
                }
            }
        }
        Ok(Heard::Long)
    }
}
