//! A console in memory.
ghost use Rattle.std.specs.Prelude.{◌≡◌, ◌<◌, ◌≤◌, ◌+◌, ◌^◌, ◌==◌, ◌++◌, ◌∷◌, [], length, IfOk};
ghost use Rattle.std.specs.Prelude.{IsErr, OnOk, OnErr};
ghost use Rattle.std.specs.List.{position};
ghost use Rattle.pg_base.specs.declared.signs.TheConstants.{LINE_FEED};
ghost use Rattle.pg_io.specs.Causes.{faults, BlamesReads, BlamesWrites};
ghost use Rattle.pg_io.specs.Console.{Says, Hears, Fits, reply};
ghost use Rattle.pg_io.specs.Failing.{FailsNext, CountsOne};
ghost use Rattle.pg_io.specs.Terminal.{left_in, log_in, told_by};

use crate::console::Console;
use crate::entry::{Entry, Heard};
use crate::failing::Failing;
use crate::files::Failed;
use crate::text::Text;
use pg_base::{LINE_FEED, Memory};
use std::alloc::Global;

/// A console in memory, of which listed calls fail. It tells its unread input and its log.
#[derive(Drop)]
pub struct MemConsole {
    alloc: Global,
    input: Text,
    from: usize,
    log: Vec<Entry>,
    failing: Failing,
    reads: u64,
    writes: u64,
}

/// Where the first line feed stands.
fn feed_at(text: &[u8]) -> Option<usize>
    ensures { result ≡ position (λ b. b == LINE_FEED) text.now }
{
    text.iter().position(|b| *b == LINE_FEED)
}

/// What a hear takes of the input: the entry, the number of bytes, and the answer.
#[derive(Drop)]
struct Piece {
    entry: Entry,
    taken: usize,
    answer: Heard,
}

/// What a hear with this room takes of the input.
#[tactic(auto, unfolding(crate::specs::Console::reply))]
fn first_piece(alloc: Global, room: usize, left: &[u8]) -> Result<Piece, Memory>
    requires { 0 < room }
    ensures entry { IfOk result (λ piece. piece.entry ≡ (reply room left.now).entry) }
    ensures taken { IfOk result (λ piece. piece.taken ≡ (reply room left.now).taken) }
    ensures bound { IfOk result (λ piece. piece.taken ≤ length left.now) }
    ensures answer { IfOk result (λ piece. Fits piece.answer room left.now piece.entry) }
{
    if left.is_empty() {
        return Ok(Piece {
            entry: Entry::Ended,
            taken: 0,
            answer: Heard::End,
        });
    }
    let window = &left[..room.min(left.len())];
    match feed_at(window) {
        Some(count) => {
            let text = Text::new(alloc, &left[..count])?;
            Ok(Piece {
                entry: Entry::Heard(text),
                taken: count + 1,
                answer: Heard::Line(count),
            })
        }
        None => {
            let text = Text::new(alloc, window)?;
            if left.len() < room {
                Ok(Piece {
                    entry: Entry::Heard(text),
                    taken: left.len(),
                    answer: Heard::Line(left.len()),
                })
            } else {
                Ok(Piece {
                    entry: Entry::Skipped(text),
                    taken: room,
                    answer: Heard::Long,
                })
            }
        }
    }
}

impl MemConsole {
    /// A console with this input unread and an empty log.
    ///
    /// `failing` lists the calls on it that fail, by their numbers from 0. The allocator is kept
    /// for the log; this call takes no memory.
    pub fn new(alloc: Global, input: Text, failing: Vec<u64>) -> MemConsole
        ensures left { left_in result ≡ input }
        ensures log { log_in result ≡ [] }
        ensures faults { (told_by result).faults ≡ faults 0 0 }
        ensures failing { result.failing.numbers.items ≡ failing.items }
        ensures made { result.failing.made ≡ 0 }
    {
        MemConsole {
            alloc,
            input,
            from: 0,
            log: Vec::new(alloc),
            failing: Failing::new(failing),
            reads: 0,
            writes: 0,
        }
    }

    /// The log, the oldest entry first.
    pub fn entries(&self) -> &[Entry]
        ensures { result.now ≡ log_in self.now }
    {
        &self.log
    }

    /// The unread input.
    pub fn rest(&self) -> &[u8]
        ensures rest { result.now ≡ left_in self.now }
        ensures room { self.now.from + length result.now < 2 ^ 64 }
    {
        let from = self.from;
        let bytes = self.input.as_slice();
        if from <= bytes.len() {
            &bytes[from..]
        } else {
            &[]
        }
    }

    /// Adds what was said to the log, unless the call is to fail.
    fn add_said(&mut self, bytes: &[u8]) -> Result<(), Memory>
        ensures added { OnOk result
            (log_in self.new ≡ log_in self.old ++ Entry.Said bytes.now ∷ []) }
        ensures refused { OnErr result (log_in self.new ≡ log_in self.old) }
        ensures left { (self.new.input ≡ self.old.input) × (self.new.from ≡ self.old.from) }
        ensures faults { (self.new.reads ≡ self.old.reads) × (self.new.writes ≡ self.old.writes) }
        ensures listed { FailsNext self.old.failing → IsErr result }
        ensures counted { CountsOne self.old.failing self.new.failing }
    {
        if self.failing.is_next() {
            return Err(Memory);
        }
        let text = Text::new(self.alloc, bytes)?;
        match self.log.push(Entry::Said(text)) {
            Ok(()) => Ok(()),
            Err(_) => Err(Memory),
        }
    }
}

impl Console for MemConsole {
    ghost use Rattle.pg_io.specs.Terminal.{told_by};

    ghost told = { told_by };

    /// A listed call fails, and another only for want of memory.
    fn say(&mut self, bytes: &[u8]) -> Result<(), Failed>
        ensures said { Says (told_by self.old).log (told_by self.new).log bytes.now result }
        ensures cause { BlamesWrites (told_by self.old).faults (told_by self.new).faults result }
        ensures left { (told_by self.new).left ≡ (told_by self.old).left }
        ensures listed { FailsNext self.old.failing → IsErr result }
        ensures counted { CountsOne self.old.failing self.new.failing }
    {
        match self.add_said(bytes) {
            Ok(()) => Ok(()),
            Err(_) => {
                self.writes = self.writes.saturating_add(1);
                Err(Failed)
            }
        }
    }

    /// A listed call fails, and another only for want of memory.
    fn hear(&mut self, buf: &mut [u8]) -> Result<Heard, Failed>
        requires { 0 < length buf.old }
        ensures heard { Hears (told_by self.old).log (told_by self.new).log
            (told_by self.old).left (told_by self.new).left buf.new result }
        ensures cause { BlamesReads (told_by self.old).faults (told_by self.new).faults result }
        ensures kept { OnErr result (left_in self.new ≡ left_in self.old) }
        ensures listed { FailsNext self.old.failing → IsErr result }
        ensures counted { CountsOne self.old.failing self.new.failing }
    {
        if !self.failing.is_next() {
            let left = self.rest();
            if let Ok(piece) = first_piece(self.alloc, buf.len(), left) {
                if let Heard::Line(count) = piece.answer {
                    buf[..count].copy_from_slice(&left[..count]);
                }
                if let Ok(()) = self.log.push(piece.entry) {
                    self.from += piece.taken;
                    return Ok(piece.answer);
                }
            }
        }
        self.reads = self.reads.saturating_add(1);
        Err(Failed)
    }
}
