//! Laws of collections of games that are written and read again, and of paths that are written and followed.

ghost use Rattle.chess_cli.specs.Laws.{PathsAreReadBack, ReadAreGames, WrittenAreRead};

use chess_pgn::game_laws;

/// What holds of collections of games: its clauses are laws of the definitions by which `pgn` reads and writes, and it does nothing.
/// Games that are written one after the other are read again as those games, and only whitespace is left after them; so what `pgn`
/// writes it reads and writes as it is, unless a text is too long to be read. Each game that is read is one of which that holds.
pub fn collection_laws()
    ensures written { WrittenAreRead }
    ensures read { ReadAreGames }
{
    game_laws();
}

/// What `path` writes of a place in the tree, `goto` reads as that place: a law of the definitions by which the board does both, and it does nothing.
pub fn path_laws()
    ensures read_back { PathsAreReadBack }
{}
