//! What becomes of the games of a collection, one by one.

ghost use Rattle.std.specs.Prelude.{◌≡◌, ◌≤◌, None, length, IfErr, IfOk, IfSome};
ghost use Rattle.chess_command_line.specs.declared.collection.Failure.TheVariants as by;
ghost use Rattle.chess_collection.specs.Handling.{IsEarly};

use chess_command_line::{Failure, Place};

/// What some bytes of a collection are.
#[derive(Clone, Copy, Debug, PartialEq, Eq)]
pub enum Fate {
    /// A game is read of them.
    Read,
    /// A game is read of their repaired text.
    Saved,
    /// None is, and they are passed over; the game is counted.
    Lost,
    /// None is, and they are passed over; the game isn't counted.
    Left,
}

/// What becomes of a stretch of a collection: of a game, or of one that can't be read.
#[derive(Drop)]
pub struct Handled {
    /// How many bytes it has.
    pub used: usize,
    /// What they are.
    pub fate: Fate,
    /// How much was repaired in it.
    pub repaired: u64,
    /// What is written of it.
    pub text: Vec<u8>,
}

/// What handles games. Contracts know what may be written of the game that some bytes begin with, and how many of them it has.
pub trait GameHandler {
    ghost use Rattle.std.specs.Prelude.{ℕ, List};
    ghost use Rattle.chess_collection.specs.declared.handler.Fate.{Fate};

    /// Of a stretch: its number, the number of bytes before it, the bytes that are looked at, how many of them are its own, what they are, and the text
    /// that is written of it.
    ghost handles: { Self → ℕ → ℕ → List ℕ → ℕ → Fate → List ℕ → Type 0 };

    /// No game, and no other stretch, is in these bytes.
    ghost white: { List ℕ → Type 0 };

    /// The stretch of the good game that the bytes begin with, if it ends before the last byte. More bytes change nothing of such a game. `None` if the bytes may
    /// not be enough.
    fn early(&self, place: Place, bytes: &[u8]) -> Result<Option<Handled>, Failure>
        requires first { 1 ≤ place.number }
        requires few { place.number ≤ 144115188075855872 }
        ensures early { IfOk result (λ found. IfSome found (λ h. IsEarly bytes.now h.used h.fate)) }
        ensures handled { IfOk result (λ found. IfSome found (λ h. handles self.now place.number place.offset bytes.now h.used h.fate h.text.items)) }
        ensures memory { IfErr result (λ failure. failure ≡ by.Memory) };

    /// What becomes of the stretch that the bytes begin with; `None` where there is none.
    fn handle(&self, place: Place, bytes: &[u8]) -> Result<Option<Handled>, Failure>
        requires first { 1 ≤ place.number }
        requires few { place.number ≤ 144115188075855872 }
        ensures fits { IfOk result (λ found. IfSome found (λ h. h.used ≤ length bytes.now)) }
        ensures handled { IfOk result (λ found. IfSome found (λ h. handles self.now place.number place.offset bytes.now h.used h.fate h.text.items)) }
        ensures white { IfOk result (λ found. found ≡ None → white bytes.now) }
        ensures memory { IfErr result (λ failure. failure ≡ by.Memory) };
}
