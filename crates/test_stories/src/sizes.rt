//! Files of many bytes, of which none is held.
use crate::runs::logged;
use pg_io::{Failed, Files};
use std::alloc::{AllocError, Global};

/// A game of one point.
const POINT: &str = "posgame 1\nkind maker-breaker\npoints 1\nline 0\nturn x\n";

/// The game of one point under the name G, and under each other name a file of `size` bytes.
///
/// Each read of that file gives a line feed first, and then whatever was in the buffer. A file can
/// be begun, and each call that would add to it or store it fails.
#[derive(Drop)]
struct Long {
    /// How many bytes the long file has.
    size: usize,
    /// What is unread of the game, where that is open.
    game: &'static [u8],
    /// How many bytes of the long file are unread, where that is open.
    left: usize,
    /// Whether a file is being made.
    busy: bool,
    /// How many calls that write have failed.
    writes: u64,
}

impl Files for Long {
    ghost use Rattle.std.specs.Prelude.{None};
    ghost use Rattle.pg_io.specs.Causes.{faults};

    ghost told = { λ long. record {
      held = None;
      left = None;
      making = None;
      busy = long.busy;
      faults = faults 0 long.writes;
    } };

    fn open(&mut self, name: &str) -> Result<(), Failed> {
        let is_game = name == "G";
        self.game = if is_game { POINT.as_bytes() } else { b"" };
        self.left = if is_game { 0 } else { self.size };
        Ok(())
    }

    fn next(&mut self, buf: &mut [u8]) -> Result<usize, Failed> {
        if self.game.is_empty() {
            let count = buf.len().min(self.left);
            buf[0] = b'\n';
            self.left -= count;
            return Ok(count);
        }
        let count = buf.len().min(self.game.len());
        buf[..count].copy_from_slice(&self.game[..count]);
        self.game = &self.game[count..];
        Ok(count)
    }

    fn create(&mut self, _name: &str) -> Result<(), Failed> {
        self.busy = true;
        Ok(())
    }

    fn append(&mut self, _bytes: &[u8]) -> Result<(), Failed> {
        self.busy = false;
        self.writes = self.writes.saturating_add(1);
        Err(Failed)
    }

    fn finish(&mut self) -> Result<(), Failed> {
        self.busy = false;
        self.writes = self.writes.saturating_add(1);
        Err(Failed)
    }
}

/// Checks a certificate of `BYTES` bytes, the first a line feed, and tells whether it has the fault
/// that is told, `BYTES=FAULT LINE`.
pub(crate) fn is_size_so(alloc: Global, told: &str) -> Result<bool, AllocError> {
    let (size, due) = told.split_once('=').unwrap_or((told, ""));
    let mut files = Long {
        size: size.parse::<usize>().unwrap_or(0),
        game: b"",
        left: 0,
        busy: false,
        writes: 0,
    };
    let log = logged(alloc, "check G C", &mut files, "")?;
    let (fault, line) = due.split_once(' ').unwrap_or((due, ""));
    let due = format!(in alloc; "status 4\nsays certificate {fault} line {line};\n")?;
    Ok(log.as_str() == due.as_str())
}
