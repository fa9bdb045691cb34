//! The four ways in which a game's text says that it ended (PGN 8.2.6).

ghost use Rattle.std.specs.Prelude.{◌≡◌};
ghost use Rattle.chess_items.specs.Markers.{outcome_text};

/// How a game ended, as far as its text says (PGN 8.2.6).
#[derive(Clone, Copy, Debug, PartialEq, Eq)]
pub enum Outcome {
    /// `1-0`
    WhiteWins,
    /// `0-1`
    BlackWins,
    /// `1/2-1/2`
    Draw,
    /// `*`: it goes on, was abandoned, or its end isn't known.
    Unfinished,
}

impl Outcome {
    /// The game termination marker: `1-0`, `0-1`, `1/2-1/2` or `*` (PGN 8.2.6).
    pub fn marker(self) -> &'static str
        ensures value { result.now ≡ outcome_text self }
    {
        match self {
            Outcome::WhiteWins => "1-0",
            Outcome::BlackWins => "0-1",
            Outcome::Draw => "1/2-1/2",
            Outcome::Unfinished => "*",
        }
    }
}
