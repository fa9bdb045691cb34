//! The bytes of a collection that are at hand.

ghost use Rattle.std.specs.Prelude.{◌≡◌, ◌⊎◌, ◌≤◌, ◌<◌, ◌+◌, [], true, false, drop, length, vec_len, IfErr, IfOk};
ghost use Rattle.chess_collection.specs.Windows.{Comes, IsWide, NoMore, KnowsItsEnd};

use byte_streams::Source;
use chess_command_line::Failure;
use chess_items::{AtHand, Fault};
use std::alloc::Allocator;
use std::marker::Model;

/// How many bytes are at hand for a game that may be bad, at least, if that many are left: more than a game has.
const LEAST: usize = 1_179_648;

/// A source with bytes that were read and are not used yet, as many as are asked for. Contracts see both, whether its end was seen, and how many more
/// reads there may be.
#[derive(Drop)]
pub struct Window<'a, R, A: Allocator> {
    pieces: AtHand<'a, R, A>,
    bytes: Vec<u8, &'a A>,
    used: usize,
    has_ended: bool,
}

impl<'a, R, A: Allocator> Model for Window<'a, R, A> {
    ghost use Rattle.std.specs.Prelude.{◌≤◌, drop, vec_len};
    ghost use Rattle.chess_collection.specs.Windows as windows;

    ghost Value = { windows.Window R };

    ghost view = { λ w. record { source = w.pieces.source; bytes = drop w.used w.bytes.items; has_ended = w.has_ended; seen = w.pieces.has_ended; reads = w.pieces.reads } };

    ghost invariant = { λ w. w.used ≤ vec_len w.bytes };
}

// Lets the first bytes go.
fn drop_front<A: Allocator>(bytes: &mut Vec<u8, A>, used: usize)
    requires { used ≤ vec_len bytes.old }
    ensures { bytes.new.items ≡ drop used bytes.old.items }
{
    if used > 0 {
        drop(bytes.drain(..used));
    }
}

impl<'a, R: Source, A: Allocator> Window<'a, R, A> {
    /// The source, nothing of which is at hand.
    pub fn new(alloc: &'a A, source: R) -> Window<'a, R, A>
        ensures source { result.source ≡ source }
        ensures nothing { result.bytes ≡ [] }
        ensures goes_on { result.has_ended ≡ false }
        ensures sound { KnowsItsEnd R.ended result }
        ensures reads { result.reads ≡ 1099511627776 }
    {
        Window {
            pieces: AtHand::new(alloc, source),
            bytes: Vec::new(alloc),
            used: 0,
            has_ended: false,
        }
    }

    /// The bytes that are not used yet.
    pub fn unread(&self) -> &[u8]
        ensures { result.now ≡ self.now.bytes }
    {
        &self.bytes[self.used..]
    }

    /// Whether the end of the source was seen.
    pub fn has_ended(&self) -> bool
        ensures { result ≡ self.now.has_ended }
    {
        self.has_ended
    }

    /// Uses the first bytes.
    pub fn use_first(&mut self, count: usize)
        requires { count ≤ length self.old.bytes }
        ensures bytes { self.new.bytes ≡ drop count self.old.bytes }
        ensures source { self.new.source ≡ self.old.source }
        ensures ended { self.new.has_ended ≡ self.old.has_ended }
        ensures seen { self.new.seen ≡ self.old.seen }
        ensures reads { self.new.reads ≡ self.old.reads }
    {
        self.used += count;
    }

    /// Reads once: at most 65,536 bytes. If the read fails, all that came before it is still at hand.
    pub fn read_more(&mut self) -> Result<(), Failure>
        requires sound { KnowsItsEnd R.ended self.old }
        requires goes_on { self.old.has_ended ≡ false }
        ensures came { IfOk result (λ _. Comes R.gives R.failed self.old self.new) }
        ensures sound { IfOk result (λ _. KnowsItsEnd R.ended self.new) }
        ensures less { IfOk result (λ _. (self.new.has_ended ≡ true) ⊎ (self.new.reads < self.old.reads)) }
        ensures few { IfOk result (λ _. length self.new.bytes ≤ length self.old.bytes + 65536) }
        ensures broken { IfErr result (λ failure. NoMore R.gives R.failed (λ bytes. length bytes ≤ length self.old.bytes) self.old self.new failure) }
    {
        drop_front(&mut self.bytes, self.used);
        self.used = 0;
        match self.pieces.refill() {
            Ok(true) => {}
            Ok(false) => {
                self.has_ended = true;
                return Ok(());
            }
            Err(Fault::Read) => return Err(Failure::Read),
            Err(Fault::Memory) => return Err(Failure::Memory),
        }
        let Ok(()) = self.bytes.extend_from_slice(self.pieces.unread()) else {
            return Err(Failure::Memory);
        };
        Ok(())
    }

    /// Reads until `most` bytes are at hand, or the source has ended.
    pub fn fill(&mut self, most: usize) -> Result<(), Failure>
        requires sound { KnowsItsEnd R.ended self.old }
        ensures came { IfOk result (λ _. Comes R.gives R.failed self.old self.new) }
        ensures sound { IfOk result (λ _. KnowsItsEnd R.ended self.new) }
        ensures wide { IfOk result (λ _. (most ≤ length self.new.bytes) ⊎ (self.new.has_ended ≡ true)) }
        ensures few { IfOk result (λ _. (length self.new.bytes ≤ length self.old.bytes) ⊎ (length self.new.bytes < most + 65536)) }
        ensures broken { IfErr result (λ failure. NoMore R.gives R.failed (λ bytes. (length bytes ≤ length self.old.bytes) ⊎ (length bytes < most + 65536)) self.old self.new failure) }
    {
        while !self.has_ended && self.unread().len() < most {
            self.read_more()?;
        }
        Ok(())
    }

    /// Whether as many bytes are at hand as are looked at for a game, or the source has ended.
    pub fn is_wide(&self) -> bool
        ensures wide { result ≡ true → IsWide self.now }
        ensures few { result ≡ false → (self.now.has_ended ≡ false) × (length self.now.bytes < 1179648) }
    {
        self.has_ended || self.unread().len() >= LEAST
    }
}
