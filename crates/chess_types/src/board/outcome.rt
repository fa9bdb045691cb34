//! How a game stands, and which draws may be claimed.

ghost use Rattle.std.specs.Prelude.{◌≡◌, ◌≤◌, length};
ghost use Rattle.chess_types.specs.board.Outcome.{status_text};

/// How a game stands: decided, drawn, or still in play (FIDE Laws 5.1.1, 5.2.1, 5.2.2, 9.6.1, 9.6.2).
#[derive(Clone, Copy, Debug, PartialEq, Eq)]
pub enum Status {
    /// The side to move is in check and has no legal move.
    Mate,
    /// The side to move is not in check and has no legal move.
    Stalemate,
    /// Too few men are left to mate with: on the list of dead positions.
    Dead,
    /// The position has come up five times.
    Fivefold,
    /// 75 moves of each side without a capture or a pawn's move.
    Seventyfive,
    /// The game goes on.
    Play,
}

impl Status {
    /// The word for it: `mate`, `stalemate`, `dead`, `fivefold`, `seventyfive` or `play`.
    pub fn name(self) -> &'static str
        ensures value { result.now ≡ status_text self }
        ensures short { length result.now ≤ 11 }
    {
        match self {
            Status::Mate => "mate",
            Status::Stalemate => "stalemate",
            Status::Dead => "dead",
            Status::Fivefold => "fivefold",
            Status::Seventyfive => "seventyfive",
            Status::Play => "play",
        }
    }
}

/// Which draws the side to move may claim.
#[derive(Clone, Copy, Debug, PartialEq, Eq)]
pub struct Claims {
    /// The same position for the third time (FIDE Laws 9.2).
    pub threefold: bool,
    /// 50 moves of each side without a capture or a pawn's move (FIDE Laws 9.3).
    pub fifty: bool,
}
