//! Where the text of an answer goes: into memory, or nowhere.
ghost use Rattle.std.specs.Prelude.{◌≡◌, ◌++◌, ◌||◌, false, [], length, IfOk};
ghost use Rattle.byte_streams.specs.Calls.{carried, takes_none};

use byte_streams::{Failed, Sink};
use std::alloc::Allocator;
use std::marker::Model;

/// A sink that keeps what it takes. A call fails where there is no memory. Empty, it has none.
#[derive(Drop)]
pub struct Gathered<A: Allocator> {
    bytes: Vec<u8, A>,
    has_failed: bool,
}

impl<A: Allocator> Model for Gathered<A> {
    ghost use Rattle.chess_bindings.specs.Texts.{Text};

    ghost Value = { Text };

    ghost view = { λ g. record { taken = g.bytes.items; failed = g.has_failed } };
}

impl<A: Allocator> Gathered<A> {
    /// Nothing yet; takes no memory.
    pub fn new(alloc: A) -> Gathered<A>
        ensures { result ≡ record { taken = []; failed = false } }
    {
        Gathered {
            bytes: Vec::new(alloc),
            has_failed: false,
        }
    }

    /// What was taken.
    pub fn as_slice(&self) -> &[u8]
        ensures { result.now ≡ self.now.taken }
    {
        self.bytes.as_slice()
    }
}

impl<A: Allocator> Sink for Gathered<A> {
    ghost takes = { λ s bytes t. t.taken ≡ s.taken ++ bytes };

    ghost failed = { λ s. s.failed };

    fn write(&mut self, buf: &[u8]) -> Result<usize, Failed> {
        let taken = buf.len();
        if self.bytes.extend_from_slice(&buf[..taken]).is_err() {
            self.has_failed = true;
            return Err(Failed);
        }
        self.has_failed = self.has_failed || (taken == 0 && !buf.is_empty());
        Ok(taken)
    }
}

/// A sink that takes all and keeps nothing.
#[derive(Drop)]
pub struct Nowhere;

impl Sink for Nowhere {
    ghost use Rattle.std.specs.Prelude.{⊤};

    ghost takes = { λ s bytes t. ⊤ };

    ghost failed = { λ s. false };

    fn write(&mut self, buf: &[u8]) -> Result<usize, Failed> {
        Ok(buf.len())
    }
}
