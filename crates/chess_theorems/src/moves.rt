//! Theorems on what legal moves keep: men, castling rights, en passant and the two counters.

ghost use Rattle.chess_theorems.specs.MoveLaws.{ArmiesStay, CastlingIsSound, ClockCounts, MenNeverRise, NumberCounts, PawnsNeverRise, RightsAreLost, TakenAtOnce};

/// What legal moves keep, and what they count (FIDE Laws, articles 3.7.3, 3.8.2 and 9.3; PGN 16.1.3): from the position in which a game begins no
/// series of legal moves leads to a ninth pawn or a fourth knight beside eight pawns; a castling right that was lost is never held again; a king that castles
/// has its right, passes no attacked square and leaves king and rook where they belong; a pawn
/// is captured en passant on the very next move or never; and the two counters of a FEN count what they are said to count.
pub fn move_laws()
    ensures men { MenNeverRise }
    ensures pawns { PawnsNeverRise }
    ensures armies { ArmiesStay }
    ensures rights { RightsAreLost }
    ensures castling { CastlingIsSound }
    ensures en_passant { TakenAtOnce }
    ensures clock { ClockCounts }
    ensures number { NumberCounts }
{}
