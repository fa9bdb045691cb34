//! The line that is being read, kept to its end unless it is too long or finds no memory.

ghost use Rattle.std.specs.Prelude.{◌≡◌, ◌<◌, ◌≤◌, List, ℕ, [], ◌++◌, ◌==◌, length, IfOk};
ghost use Rattle.chess_loop.specs.steps.Reads.{Holds};
ghost use Rattle.chess_loop.specs.steps.Readings.{ReadAs};

use std::alloc::{AllocError, Allocator};
use std::marker::Model;

/// The most bytes of a line, without its line feed.
pub const LINE_LIMIT: usize = 1_048_576;

/// The most bytes of a line for which no memory is asked for while it is read.
const ROOM: usize = 65_536;

/// Why a line is not kept.
#[derive(Clone, Copy)]
pub enum Unread {
    /// It is longer than the limit.
    TooLong,
    /// It is no longer than the limit, but for some of it no memory was found.
    NoMemory,
}

/// The line that is being read: its bytes as far as they are kept, and how many there are. One that is too long or finds no memory is not
/// kept to its end.
#[derive(Drop)]
pub struct LineBuffer<A: Allocator> {
    bytes: Vec<u8, A>,
    seen: usize,
}

impl<A: Allocator> Model for LineBuffer<A> {
    ghost use Rattle.std.specs.Prelude.{◌≤◌, vec_capacity, vec_len};
    ghost use Rattle.chess_loop.specs.steps.LineSoFar.{LineSoFar};

    ghost Value = { LineSoFar };

    ghost view = { λ line. record { seen = line.seen; kept = line.bytes.items } };

    ghost invariant = { λ line. (vec_len line.bytes ≤ line.seen) × (line.seen ≤ 1048577) × (65536 ≤ vec_capacity line.bytes) };
}

impl<A: Allocator> LineBuffer<A> {
    /// A line of which nothing is read yet.
    pub fn new(alloc: A) -> Result<LineBuffer<A>, AllocError>
        ensures { IfOk result (λ line. Holds line []) }
    {
        let bytes = Vec::with_capacity(alloc, ROOM)?;
        Ok(LineBuffer { bytes, seen: 0 })
    }

    /// Goes on with the line.
    pub fn add(&mut self, more: &[u8])
        ensures { (bytes : List ℕ) → Holds self.old bytes → Holds self.new (bytes ++ more.now) }
    {
        let is_whole = self.bytes.len() == self.seen;
        if more.len() > LINE_LIMIT - self.seen.min(LINE_LIMIT) {
            self.seen = LINE_LIMIT + 1;
            return;
        }
        self.seen += more.len();
        if is_whole {
            let _kept = self.bytes.extend_from_slice(more);
        }
    }

    /// The whole line, at most 1,048,576 bytes, or why it is not kept.
    pub fn reading(&self) -> Result<&[u8], Unread>
        ensures read { (bytes : List ℕ) → Holds self.now bytes → ReadAs bytes result }
        ensures short { IfOk result (λ line. length line.now ≤ 1048576) }
    {
        if self.seen > LINE_LIMIT {
            Err(Unread::TooLong)
        } else if self.bytes.len() < self.seen {
            Err(Unread::NoMemory)
        } else {
            Ok(self.bytes.as_slice())
        }
    }

    /// Whether nothing has come of the line.
    pub fn is_empty(&self) -> bool
        ensures { (bytes : List ℕ) → Holds self.now bytes → result ≡ (length bytes == 0) }
    {
        self.seen == 0
    }

    /// Begins another line.
    pub fn restart(&mut self)
        ensures { Holds self.new [] }
    {
        self.bytes.clear();
        self.seen = 0;
    }
}
