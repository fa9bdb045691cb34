//! Status, claims and draws of a position, by how often it has come up (FIDE Laws 5 and 9).

ghost use Rattle.std.specs.Prelude.{◌≡◌, ◌≤◌, ◌&&◌, ◌||◌};
ghost use Rattle.chess_types.specs.board.Outcome.{status_at, is_play, claims_at};
ghost use Rattle.chess_draws.specs.Draws.{is_drawn_at, is_claimable_at};

use crate::dead::is_dead;
use chess_attack::Follower;
use chess_moves::{has_legal, in_check};
use chess_play::LiveWith;
use chess_types::{Claims, Setup, Status};

/// The status of a line that has come to its last position `count` times (FIDE Laws 5.1.1, 5.2.1, 5.2.2, 9.6). The position is as before.
#[tactic(auto, using(chess_moves::proofs::SetCounts::some_move), unfolding(chess_types::specs::board::Outcome::status_at))]
pub(crate) fn status_at<F: Follower>(live: &mut LiveWith<F>, count: u32) -> Status
    requires clock { live.old.position.clock ≤ 1000000 }
    requires number { live.old.position.number ≤ 1000000 }
    ensures value { result ≡ status_at live.old.position count }
    ensures position { live.new.position ≡ live.old.position }
    ensures words { live.new.words ≡ live.old.words }
{
    if !has_legal(live) {
        if in_check(live) {
            Status::Mate
        } else {
            Status::Stalemate
        }
    } else if is_dead(live.position()) {
        Status::Dead
    } else if count >= 5 {
        Status::Fivefold
    } else if live.position().clock >= 150 {
        Status::Seventyfive
    } else {
        Status::Play
    }
}

/// What may be claimed at that count of repetitions and that halfmove clock (FIDE Laws 9.2, 9.3), where the game is in play.
pub(crate) fn claims_at(status: Status, count: u32, clock: u32) -> Claims
    ensures { result ≡ claims_at (is_play status) count clock }
{
    let in_play = status == Status::Play;
    Claims {
        threefold: in_play && count >= 3,
        fifty: in_play && clock >= 100,
    }
}

/// Whether a position in which there is a legal move is a draw, where it has come `count` times; with `claims`, also where a draw could be
/// claimed there.
pub(crate) fn is_drawn_at(setup: &Setup, count: u32, claims: bool) -> bool
    ensures { result ≡ (is_drawn_at setup.now count || (claims && is_claimable_at setup.now count)) }
{
    let clock = setup.clock;
    is_dead(setup) || count >= 5 || clock >= 150 || (claims && (count >= 3 || clock >= 100))
}
