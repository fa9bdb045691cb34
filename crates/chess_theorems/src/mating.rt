//! The theorem that a side that can't mate never does (FIDE Laws 6.9).

ghost use Rattle.chess_theorems.specs.MatingLaws.{NeverMates};

/// Who can't mate doesn't (FIDE Laws, article 6.9): no series of legal moves leads from a position where a side has only its king, or which is
/// dead, to one where that side has mated. So a game that such a side would win on time is drawn.
pub fn mating_laws()
    ensures never { NeverMates }
{}
