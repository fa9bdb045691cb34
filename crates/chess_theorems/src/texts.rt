//! The theorem that two legal moves of one position never have the same text (PGN 8.2.3).

ghost use Rattle.chess_theorems.specs.TextLaws.{OneTextOneMove, TextsAreShort};

/// Two legal moves of one position never have the same text in standard algebraic notation (PGN 8.2.3): so a game's text says which game it was. And
/// none has more than seven characters, so that eight are room enough.
pub fn text_laws()
    ensures one_move { OneTextOneMove }
    ensures short { TextsAreShort }
{}
