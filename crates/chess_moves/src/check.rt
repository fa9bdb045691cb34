//! Whether the side to move is in check, and whether a move gives check (FIDE Laws 3.9.1).

ghost use Rattle.std.specs.Prelude.{◌≡◌, ◌≤◌, IsTrue};
ghost use Rattle.chess_types.specs.board.After.{after};
ghost use Rattle.chess_types.specs.board.Pseudo.{is_pseudo};
ghost use Rattle.chess_types.specs.board.Attack.{in_check as in_check_of};
ghost use Rattle.chess_types.specs.board.Position.{man_on};

use chess_attack::{Follower, king_square};
use chess_play::LiveWith;
use chess_types::{Colour, Move};

/// Whether the king of the colour is in check (FIDE Laws 3.9.1).
pub(crate) fn is_checked<F: Follower>(live: &LiveWith<F>, colour: Colour) -> bool
    ensures { result ≡ in_check_of (man_on live.now.position) colour }
{
    let king = king_square(&live.position().placement, colour);
    live.is_attacked(colour.opponent(), king)
}

/// Whether the king of the side to move is in check: the other side attacks its square (FIDE Laws 3.9.1).
pub fn in_check<F: Follower>(live: &LiveWith<F>) -> bool
    ensures { result ≡ in_check_of (man_on live.now.position) live.now.position.side }
{
    is_checked(live, live.position().side)
}

/// Whether a pseudo-legal move gives check: after it the king of the side to move then is in check (FIDE Laws 3.9.1). The move is made, the
/// king looked at, and the move taken back; both counters are at most 1,000,000. All is as before but for the ticks.
pub fn gives_check<F: Follower>(live: &mut LiveWith<F>, m: Move) -> bool
    requires pseudo { IsTrue (is_pseudo live.old.position m) }
    requires clock { live.old.position.clock ≤ 1000000 }
    requires number { live.old.position.number ≤ 1000000 }
    ensures value { result ≡ in_check_of (man_on (after live.old.position m)) (after live.old.position m).side }
    ensures position { live.new.position ≡ live.old.position }
    ensures words { live.new.words ≡ live.old.words }
{
    let made = live.make(m);
    let gives = in_check(live);
    live.undo(made);
    gives
}
