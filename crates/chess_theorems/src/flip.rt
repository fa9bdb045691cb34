//! The theorem that left and right are alike where nobody may castle.

ghost use Rattle.chess_theorems.specs.FlipLaws.{AfterFlips, ChecksFlip, CountsFlip, LegalFlips, MateFlips};

/// Left and right are alike where nobody may castle. A position with its files turned round has the turned attack counts, checks and legal moves,
/// each leads to the turned position, and it is mate where the other is.
pub fn flip_laws()
    ensures counts { CountsFlip }
    ensures checks { ChecksFlip }
    ensures legal { LegalFlips }
    ensures after { AfterFlips }
    ensures mate { MateFlips }
{}
