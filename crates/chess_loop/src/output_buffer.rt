//! The page on which answers are gathered before they are written.

ghost use Rattle.std.specs.Prelude.{◌≡◌, ◌+◌, ◌≤◌, [], ◌∷◌, ◌++◌, length, IfOk, OnOk};
ghost use Rattle.chess_loop.specs.steps.Sending.{Flows, Sends};

use super::write::write_all;
use byte_streams::{Failed, Sink};
use std::alloc::{AllocError, Allocator};
use std::marker::Model;

/// The most bytes in the buffer.
const SIZE: usize = 65_536;

/// The most bytes that are put into the buffer for a line without asking for room again.
const ROOM: usize = 2_600;

/// Texts on their way to a sink: they are gathered here, and written when the buffer is full or before more is read. Its memory is asked for
/// once.
#[derive(Drop)]
pub struct OutputBuffer<A: Allocator> {
    bytes: Vec<u8, A>,
}

impl<A: Allocator> Model for OutputBuffer<A> {
    ghost use Rattle.std.specs.Prelude.{ℕ, List, ◌≤◌, vec_capacity, vec_len};

    ghost Value = { List ℕ };

    ghost view = { λ p. p.bytes.items };

    ghost invariant = { λ p. (vec_len p.bytes ≤ 65536) × (65536 ≤ vec_capacity p.bytes) };
}

impl<A: Allocator> OutputBuffer<A> {
    /// An empty page.
    pub fn new(alloc: A) -> Result<OutputBuffer<A>, AllocError>
        ensures { IfOk result (λ page. page ≡ []) }
    {
        let bytes = Vec::with_capacity(alloc, SIZE)?;
        Ok(OutputBuffer { bytes })
    }

    /// Puts the text after what is there.
    pub fn put(&mut self, text: &[u8])
        requires { length self.old + length text.now ≤ 65536 }
        ensures { self.new ≡ self.old ++ text.now }
    {
        let Ok(()) = self.bytes.extend_from_slice(text) else {
            unreachable!();
        };
    }

    /// The text and a line feed.
    pub fn put_line(&mut self, text: &str)
        requires { length self.old + (length text.now + 1) ≤ 65536 }
        ensures { self.new ≡ self.old ++ (text.now ++ 10 ∷ []) }
    {
        self.put(text.as_bytes());
        self.put(b"\n");
    }

    /// Writes all that is in the buffer.
    pub fn flush<W: Sink>(&mut self, writer: &mut W) -> Result<(), Failed>
        ensures flows { Flows W.takes W.failed self.old writer.old self.new writer.new result }
        ensures empty { OnOk result (self.new ≡ []) }
    {
        if let Err(failed) = write_all(writer, self.text()) {
            return Err(failed);
        }
        self.bytes.clear();
        Ok(())
    }

    /// Sees to it that there is room for 2,600 bytes.
    pub fn make_room<W: Sink>(&mut self, writer: &mut W) -> Result<(), Failed>
        ensures flows { Flows W.takes W.failed self.old writer.old self.new writer.new result }
        ensures room { OnOk result (length self.new + 2600 ≤ 65536) }
    {
        if self.bytes.len() <= SIZE - ROOM {
            return Ok(());
        }
        self.flush(writer)
    }

    /// Writes all that is in the buffer, and then the text, which may be longer than the buffer.
    pub fn send<W: Sink>(&mut self, text: &[u8], writer: &mut W) -> Result<(), Failed>
        ensures { Sends W.takes W.failed self.old writer.old text.now self.new writer.new result }
    {
        if let Err(failed) = self.flush(writer) {
            return Err(failed);
        }
        write_all(writer, text)
    }

    /// What is in the buffer.
    pub fn text(&self) -> &[u8]
        ensures { result.now ≡ self.now }
    {
        self.bytes.as_slice()
    }
}
