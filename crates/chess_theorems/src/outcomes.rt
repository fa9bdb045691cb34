//! Theorems on status and claims, and the positions that they speak of.

ghost use Rattle.chess_theorems.specs.OutcomeLaws.{ClaimsAgree, ClaimsEnd, DrawsAreClaimable, MateIsMate, StalemateIsNone};

/// What the status of a line and its claims have to do with its last position and the next (FIDE Laws, articles 5.1.1, 5.2.1, 9.2 and 9.3): mate is
/// reported exactly where the side to move is in check and has no legal move, stalemate where it has none and isn't; where a draw ends the game by
/// itself, the position has come up three times or more, or the clock says 50 moves by each side, and after the end none may be claimed; while the
/// game goes on, what may be claimed with a move that is only named is what may be claimed once it is made.
pub fn outcome_laws()
    ensures mate { MateIsMate }
    ensures stalemate { StalemateIsNone }
    ensures draws { DrawsAreClaimable }
    ensures over { ClaimsEnd }
    ensures claims { ClaimsAgree }
{}
