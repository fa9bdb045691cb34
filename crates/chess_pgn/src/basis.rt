//! The position as a game begins, made once for the reading of many games.

ghost use Rattle.std.specs.Prelude.{◌≡◌};
ghost use Rattle.chess_types.specs.board.Position as position;

use chess_types::Position;

/// What the reading of every game begins with.
#[derive(Drop)]
pub struct Basis {
    /// Where a game begins unless its tags say otherwise.
    start: Position,
    ghost usual: { start ≡ position.start },
}

impl Basis {
    /// The same for every game.
    pub fn new() -> Basis {
        Basis {
            start: Position::start(),
        }
    }

    /// The position as a game begins (FIDE Laws 2.3).
    pub fn start(&self) -> Position
        ensures { result ≡ position.start }
    {
        let Ok(start) = self.start.clone() else {
            unreachable!();
        };
        start
    }
}
