//! How a game ended by the Laws, as the outcome that its text would say.

ghost use Rattle.std.specs.Prelude.{◌≡◌};
ghost use Rattle.chess_draws.specs.LineParts.{IsAsBefore};
ghost use Rattle.chess_queries.specs.Ended.{outcome_by_laws, ended_by};

use chess_draws::Line;
use chess_items::Outcome;
use chess_types::{Colour, Status};
use std::alloc::Allocator;

/// How a game of that status ended, where that side has mated the other: the winner's, a draw, or open where the game goes on (FIDE Laws 5.1.1,
/// 5.2.1, 5.2.2, 9.6).
pub fn outcome_by(status: Status, won: Option<Colour>) -> Outcome
    ensures { result ≡ ended_by status won }
{
    match (status, won) {
        (Status::Play, _) | (Status::Mate, None) => Outcome::Unfinished,
        (Status::Mate, Some(Colour::White)) => Outcome::WhiteWins,
        (Status::Mate, Some(Colour::Black)) => Outcome::BlackWins,
        _ => Outcome::Draw,
    }
}

/// How the game of a line ended, by the Laws; with the draws that may be claimed, also where one may be (FIDE Laws 5.1.1, 5.2.1, 5.2.2, 9.2.2, 9.3.2, 9.6).
pub fn outcome<A: Allocator>(line: &mut Line<'_, A>, with_claims: bool) -> Outcome
    requires none { line.old.looked ≡ 0 }
    ensures value { result ≡ outcome_by_laws with_claims line.old.line }
    ensures as_before { IsAsBefore line.old line.new }
{
    let claims = line.claims();
    if with_claims && (claims.threefold || claims.fifty) {
        return Outcome::Draw;
    }
    outcome_by(line.status(), line.winner())
}
