//! The statuses of the library's calls, and the numbers of a game's statuses.

ghost use Rattle.std.specs.Prelude.{◌≡◌};
ghost use Rattle.chess_bindings.specs.Codes.{fault_code, outcome_code};

use chess_pgn::FaultKind;
use chess_types::Status;

/// It is done.
pub const OK: u32 = 0;

/// There is nothing in the slot.
pub const EMPTY: u32 = 1;

/// There is no memory.
pub const MEMORY: u32 = 2;

/// The move isn't legal, or the text names no legal move.
pub const ILLEGAL: u32 = 3;

/// The text has no form of a move.
pub const FORM: u32 = 5;

/// The cursor is at the root.
pub const AT_ROOT: u32 = 8;

/// A number is out of its range.
pub const ARGUMENT: u32 = 9;

/// The answer is longer than the room for it.
pub const ROOM: u32 = 10;

/// There is no legal move, so none is best.
pub const NONE: u32 = 11;

/// There is nothing of that name, or at that place.
pub const NO_SUCH: u32 = 12;

/// More bytes decide what is there.
pub const MORE: u32 = 14;

/// No game follows.
pub const NO_GAME: u32 = 16;

/// The search was abandoned.
pub const ABANDONED: u32 = 17;

/// No tag has that name.
pub const BAD_NAME: u32 = 18;

/// The tag says what the game itself has.
pub const OWN_TAG: u32 = 19;

/// The value goes on in another line.
pub const BAD_VALUE: u32 = 20;

/// The status of a text at whose start no game is: 40 and the number of the fault, or that there is no memory.
pub fn fault_code(kind: FaultKind) -> u32
    ensures { result ≡ fault_code kind }
{
    match kind {
        FaultKind::Memory => MEMORY,
        other => 40 + u32::from(other.number()),
    }
}

/// A game's status, as a number: 0 mate, 1 stalemate, 2 dead, 3 fivefold repetition, 4 the 75 moves, 5 play (FIDE Laws 5.1.1, 5.2.1, 5.2.2, 9.6).
pub fn outcome_code(outcome: Status) -> u32
    ensures { result ≡ outcome_code outcome }
{
    match outcome {
        Status::Mate => 0,
        Status::Stalemate => 1,
        Status::Dead => 2,
        Status::Fivefold => 3,
        Status::Seventyfive => 4,
        Status::Play => 5,
    }
}
