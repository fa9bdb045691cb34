//! The law of what the scores of mates mean.

ghost use Rattle.chess_search.specs.Mates.{MateIsForced, MateIsReported, MatedIsForced, MatedIsReported};

/// What the scores of mates mean (FIDE Laws, articles 1.4.1 and 5.1.1): a search says `mate N` exactly where the side to move can mate with its N-th
/// move within the depth, whatever the other side plays, and with no earlier move; and `mate -N` exactly where it is mated so.
pub fn mate_laws()
    ensures reported { MateIsReported }
    ensures forced { MateIsForced }
    ensures mated_reported { MatedIsReported }
    ensures mated_forced { MatedIsForced }
{}
