//! A line's last position one move on, or one back, with what of it is compared.

ghost use Rattle.std.specs.Prelude.{◌≡◌, ◌<◌, ◌≤◌, IsTrue};
ghost use Rattle.chess_types.specs.board.Position.{PositionParts, man_on};
ghost use Rattle.chess_types.specs.board.After.{after};
ghost use Rattle.chess_types.specs.board.Legal.{is_legal as is_legal_in};
ghost use Rattle.chess_attack.specs.KeptCounts.{changed_of};
ghost use Rattle.chess_play.specs.Records.{IsBefore};
ghost use Rattle.chess_draws.specs.steps.RepetitionKeys.{IsKeyOf};
ghost use Rattle.chess_draws.specs.steps.Plies.{FitsPly, IsPly};

use crate::ply::Ply;
use crate::repetition_key::RepetitionKey;
use crate::target::advance;
use chess_attack::Follower;
use chess_play::LiveWith;
use chess_types::Move;

/// Makes the legal move. The answer is what is kept of it.
pub(crate) fn step<F: Follower>(live: &mut LiveWith<F>, here: &mut RepetitionKey, m: Move) -> Ply
    requires legal { IsTrue (is_legal_in live.old.position m) }
    requires clock { live.old.position.clock < 1000000 }
    requires number { live.old.position.number < 1000000 }
    requires here { IsKeyOf here.old live.old.position }
    ensures position { live.new.position ≡ after live.old.position m }
    ensures words { live.new.words ≡ live.old.words }
    ensures here { IsKeyOf here.new live.new.position }
    ensures ply { IsPly live.old.position result }
    ensures played { result.past.played ≡ m }
    ensures at_most { live.new.ticks ≤ 216 }
    ensures at_least { F.suffices live.old.position.placement live.new.position.placement live.new.ticks }
{
    let counts = here.target.is_some();
    let (past, target) = advance(live, m);
    let ply = Ply::of(past, counts);
    *here = RepetitionKey::of(live, target);
    ply
}

/// Takes back the last move, of which that is kept.
pub(crate) fn step_back<F: Follower>(live: &mut LiveWith<F>, here: &mut RepetitionKey, ply: Ply)
    requires fits { FitsPly live.old.position ply }
    ensures position { (p : PositionParts) → IsBefore live.old.position ply.past p → live.new.position ≡ p }
    ensures here { IsKeyOf here.new live.new.position }
    ensures words { live.new.words ≡ live.old.words }
    ensures at_most { live.new.ticks ≤ 216 }
    ensures at_least { F.suffices live.old.position.placement live.new.position.placement live.new.ticks }
{
    live.take_back(ply.past());
    *here = RepetitionKey::of(live, ply.target());
}
