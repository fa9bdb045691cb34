//! Laws of games that are written and read again.

ghost use Rattle.chess_pgn.specs.Laws.{NewIsGame, OneCollection, OneGame, ReadIsGame, WrittenIsRead};

/// What holds of every game: its clauses are laws of the definitions that `write_game` and `read_game` meet, and it does nothing.
/// A game that is written is read again: whatever whitespace comes before the text of a game and whatever follows it, that game
/// is there, with its tags, how it ended, its start, its comments, annotations, moves and variations. It holds where the text has
/// at most 1,048,576 bytes and no more than 128 variations are open at once; what a game is besides is said in `specs/Laws.antt`. A
/// new game is one, and so is each that is read, which has no more variations open at once either. No text begins with two games, nor
/// with one where it is white; and no text is two collections of games, good and bad.
pub fn game_laws()
    ensures written { WrittenIsRead }
    ensures new { NewIsGame }
    ensures read { ReadIsGame }
    ensures one { OneGame }
    ensures collection { OneCollection }
{}
