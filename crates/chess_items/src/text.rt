//! Texts that are at hand bit by bit, or whole.

ghost use Rattle.std.specs.Prelude.{◌≡◌, ℕ, ◌≤◌, List, length, take, IfErr};
ghost use Rattle.chess_items.specs.steps.Deciding.{Decides};
ghost use Rattle.chess_items.specs.steps.Texts.{BreaksAt, MadeReady, Keeps, RefillBreaks, Refills};

use crate::at_hand::{AtHand, Fault};
use crate::place::Place;
use byte_streams::Source;
use std::alloc::Allocator;

/// A text. Contracts know the bytes at hand, which bytes come, and whether all have come.
pub trait Text {
    ghost at_hand: { Self → List ℕ };

    /// These bytes may come, and lead from the first state to the second.
    ghost comes: { Self → List ℕ → Self → Type 0 };

    /// A read broke off, or there may be no more.
    ghost breaks: { Self → Self → Type 0 };

    /// No more bytes will come.
    ghost all: { Self → Type 0 };

    ghost sound: { Self → Type 0 };

    /// How many more reads there may be.
    ghost reads: { Self → ℕ };

    /// Lets bytes come until those at hand decide the item that they begin with, or all have come. False where more than `most` are at hand
    /// and don't decide it.
    fn ready(&mut self, place: Place, most: usize) -> Result<bool, Fault>
        requires { sound self.old }
        ensures made { MadeReady comes at_hand all sound reads most place self.old self.new result }
        ensures broken { IfErr result (λ fault. BreaksAt comes at_hand breaks all sound reads most place self.old self.new fault) };

    /// The bytes at hand.
    fn unread(&self) -> &[u8]
        ensures { result.now ≡ at_hand self.now };

    /// How many of the first bytes at hand are known not to decide the item that they begin with, by searches before.
    fn looked(&self, place: Place) -> usize
        ensures within { result ≤ length (at_hand self.now) }
        ensures undecided { Decides place (take result (at_hand self.now)) → ⊥ };

    /// Uses the first bytes, all but `left`.
    fn keep(&mut self, left: usize)
        requires within { left ≤ length (at_hand self.old) }
        requires sound { sound self.old }
        ensures { Keeps comes at_hand all sound reads left self.old self.new };

    /// Uses all bytes at hand, and lets more come by one read. False where all have come.
    fn refill(&mut self) -> Result<bool, Fault>
        requires { sound self.old }
        ensures refills { Refills comes at_hand all sound reads self.old self.new result }
        ensures broken { IfErr result (λ fault. RefillBreaks comes breaks all reads self.old self.new fault) };
}

/// A whole text.
#[derive(Clone, Copy)]
pub struct Whole<'a> {
    pub left: &'a [u8],
}

impl<'a> Text for Whole<'a> {
    ghost use Rattle.std.specs.Prelude.{◌≡◌, [], length};

    ghost at_hand = { λ s. s.left.now };

    ghost comes = { λ s bytes t. bytes ≡ [] };

    ghost breaks = { λ s t. ⊥ };

    ghost all = { λ s. Unit {0} };

    ghost sound = { λ s. Unit {0} };

    ghost reads = { λ s. 0 };

    fn ready(&mut self, _place: Place, _most: usize) -> Result<bool, Fault> {
        Ok(true)
    }

    #[inline(always)]
    fn unread(&self) -> &[u8] {
        self.left
    }

    #[inline(always)]
    fn looked(&self, _place: Place) -> usize {
        0
    }

    #[inline(always)]
    fn keep(&mut self, left: usize) {
        self.left = &self.left[self.left.len() - left..];
    }

    fn refill(&mut self) -> Result<bool, Fault> {
        self.left = b"";
        Ok(false)
    }
}

impl<'a, R: Source, A: Allocator> Text for AtHand<'a, R, A> {
    ghost use Rattle.std.specs.Prelude.{◌≡◌, ◌+◌, ◌*◌, true, length};
    ghost use Rattle.chess_items.specs.Coming.{Breaks, Came, unread};

    ghost at_hand = { λ s. unread s };

    ghost comes = { λ s bytes t. Came R.gives R.failed s bytes t };

    ghost breaks = { λ s t. Breaks R.gives R.failed s t };

    ghost all = { λ s. s.has_ended ≡ true };

    ghost sound = { λ s. s.has_ended ≡ true → R.ended s.source };

    ghost reads = { λ s. s.reads };

    fn ready(&mut self, place: Place, most: usize) -> Result<bool, Fault> {
        self.read_until_decided(place, most)
    }

    #[inline(always)]
    fn unread(&self) -> &[u8] {
        AtHand::unread(self)
    }

    #[inline(always)]
    fn looked(&self, place: Place) -> usize {
        AtHand::looked(self, place)
    }

    #[inline(always)]
    fn keep(&mut self, left: usize) {
        AtHand::keep(self, left)
    }

    fn refill(&mut self) -> Result<bool, Fault> {
        AtHand::refill(self)
    }
}
