//! The theorem that no mate follows a dead position (FIDE Laws 5.2.2).

ghost use Rattle.chess_theorems.specs.DeadLaws.{DeadHasNoMate, DeadIsForever, DeadStays, TwoKingsAreDead};

/// The dead positions are dead (FIDE Laws, article 5.2.2). A position is on the list of `chess_types/specs/board/Dead.antt` by its men alone; its
/// clauses say that the list means what the Laws mean by it: no series of legal moves from such a position ends in mate, for either side. So
/// whoever agrees that the sentence of the Laws says this has nothing of the list to believe.
pub fn dead_laws()
    ensures stays { DeadStays }
    ensures no_mate { DeadHasNoMate }
    ensures forever { DeadIsForever }
    ensures two_kings { TwoKingsAreDead }
{}
