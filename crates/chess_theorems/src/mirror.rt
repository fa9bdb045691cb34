//! The theorem that the Laws are the same for both sides.

ghost use Rattle.chess_theorems.specs.MirrorLaws.{AfterTurns, ChecksTurn, CountsTurn, LegalTurns, LinesTurn, MateTurns};

/// The Laws are the same for both sides. A position seen from the other side, its ranks turned round and the colours exchanged, has the turned attack
/// counts, checks and legal moves, each leads to the turned position, and it is mate where the other is; a line so seen has the
/// same repetitions, status and claims. So no rule is written wrongly for one
/// colour alone.
pub fn mirror_laws()
    ensures counts { CountsTurn }
    ensures checks { ChecksTurn }
    ensures legal { LegalTurns }
    ensures after { AfterTurns }
    ensures mate { MateTurns }
    ensures lines { LinesTurn }
{}
