//! Where an en passant target counts, in a line's first position and after each move (FIDE Laws 9.2.3.1).

ghost use Rattle.std.specs.Prelude.{◌≡◌, ◌+◌, ◌<◌, ◌≤◌, ◌&&◌, IsTrue, None, false};
ghost use Rattle.chess_types.specs.declared.board.man.Colour.TheVariants.{White, Black};
ghost use Rattle.chess_types.specs.declared.board.man.Kind.TheVariants.{Pawn};
ghost use Rattle.chess_types.specs.board.Position.{man_on, cell_of};
ghost use Rattle.chess_types.specs.board.After.{after};
ghost use Rattle.chess_types.specs.board.Legal.{is_legal as is_legal_in};
ghost use Rattle.chess_types.specs.board.Repetition.{counting_target, same_man};
ghost use Rattle.chess_attack.specs.KeptCounts.{changed_of};
ghost use Rattle.chess_moves.specs.steps.Targets.{move_to};
ghost use Rattle.chess_play.specs.Records.{record_of};

use chess_attack::Follower;
use chess_key::KeyTable;
use chess_moves::is_legal;
use chess_play::{Live, LiveWith, Record};
use chess_types::{Colour, Kind, Man, Move, Position, Setup, Square};

// The squares on both sides of the pawn that has just passed the target. At the edge of the board one of them is on another rank,
// from where no pawn captures on the target.
fn origins(side: Colour, target: Square) -> (Square, Square)
    requires { (16 ≤ target) × (target < 48) }
    ensures white { side ≡ White → (result.0 + 9 ≡ target) × (result.1 + 7 ≡ target) }
    ensures black { side ≡ Black → (result.0 ≡ target + 7) × (result.1 ≡ target + 9) }
{
    let number = target.index() as u8;
    match side {
        Colour::White => (
            Square::from_index(number - 9),
            Square::from_index(number - 7),
        ),
        Colour::Black => (
            Square::from_index(number + 7),
            Square::from_index(number + 9),
        ),
    }
}

// Whether a pawn of the side to move stands there.
fn is_taker(setup: &Setup, from: Square) -> bool
    ensures { result ≡ same_man (man_on setup.now from) (cell_of setup.now.side Pawn) }
{
    let pawn = Man {
        colour: setup.side,
        kind: Kind::Pawn,
    };
    setup.placement.get(from) == Some(pawn)
}

// Whether a pawn of the side to move captures legally from there on the target.
fn is_taken_from<F: Follower>(live: &mut LiveWith<F>, from: Square, target: Square) -> bool
    requires clock { live.old.position.clock ≤ 1000000 }
    requires number { live.old.position.number ≤ 1000000 }
    ensures value { result ≡ (same_man (man_on live.old.position from) (cell_of live.old.position.side Pawn) && is_legal_in live.old.position (move_to from target None)) }
    ensures position { live.new.position ≡ live.old.position }
    ensures words { live.new.words ≡ live.old.words }
{
    let capture = Move {
        from,
        to: target,
        promo: None,
    };
    is_taker(live.position(), from) && is_legal(live, capture)
}

/// The target, where a legal move captures on it (FIDE Laws 9.2.3.1). At most two captures are tried.
pub(crate) fn counting_target<F: Follower>(live: &mut LiveWith<F>) -> Option<Square>
    requires clock { live.old.position.clock ≤ 1000000 }
    requires number { live.old.position.number ≤ 1000000 }
    ensures value { result ≡ counting_target live.old.position }
    ensures position { live.new.position ≡ live.old.position }
    ensures words { live.new.words ≡ live.old.words }
{
    let setup = live.position();
    let target = setup.target?;
    let (left, right) = origins(setup.side, target);
    if is_taken_from(live, left, target) {
        return Some(target);
    }
    if is_taken_from(live, right, target) {
        return Some(target);
    }
    None
}

// Whether a pawn stands beside the one that has passed the target, so that a capture has to be tried.
fn is_beside(setup: &Setup) -> bool
    ensures { result ≡ false → counting_target setup.now ≡ None }
{
    let Some(target) = setup.target else {
        return false;
    };
    let (left, right) = origins(setup.side, target);
    is_taker(setup, left) || is_taker(setup, right)
}

/// The target where it counts: captures are tried only where a pawn is beside the one that has passed it.
pub(crate) fn target_at_start<F: Follower>(live: &mut LiveWith<F>) -> Option<Square>
    requires clock { live.old.position.clock ≤ 1000000 }
    requires number { live.old.position.number ≤ 1000000 }
    ensures value { result ≡ counting_target live.old.position }
    ensures position { live.new.position ≡ live.old.position }
    ensures words { live.new.words ≡ live.old.words }
{
    if !is_beside(live.position()) {
        return None;
    }
    counting_target(live)
}

/// The position with the numbers that are kept for it, and its target, where it counts. No tick.
pub(crate) fn begin<'k>(position: Position, table: &'k KeyTable) -> (Live<'k>, Option<Square>)
    requires clock { position.clock ≤ 1000000 }
    requires number { position.number ≤ 1000000 }
    ensures live { result.0 ≡ record { position = position; words = table.now; ticks = 0 } }
    ensures target { result.1 ≡ counting_target position }
{
    let Ok(same) = position.clone() else {
        unreachable!();
    };
    let mut live = Live::new(position, table);
    if !is_beside(live.position()) {
        return (live, None);
    }
    // The captures that are tried leave ticks.
    let target = counting_target(&mut live);
    (Live::new(same, table), target)
}

/// Makes the legal move. The answer is its record, and the target of the position after it, where it counts. The ticks are those
/// of this one move.
#[tactic(auto, using(chess_types::proofs::MoveLemmas::legal_pseudo, chess_types::proofs::Counters::clock_more, chess_types::proofs::Counters::number_more))]
pub(crate) fn advance<F: Follower>(live: &mut LiveWith<F>, m: Move) -> (Record, Option<Square>)
    requires legal { IsTrue (is_legal_in live.old.position m) }
    requires clock { live.old.position.clock < 1000000 }
    requires number { live.old.position.number < 1000000 }
    ensures position { live.new.position ≡ after live.old.position m }
    ensures words { live.new.words ≡ live.old.words }
    ensures past { result.0 ≡ record_of live.old.position m }
    ensures target { result.1 ≡ counting_target (after live.old.position m) }
    ensures at_most { live.new.ticks ≤ 216 }
    ensures at_least { F.suffices live.old.position.placement live.new.position.placement live.new.ticks }
{
    let made = live.make(m);
    if !is_beside(live.position()) {
        return (made.keep(), None);
    }
    let target = counting_target(live);
    // The captures that were tried have left their own ticks.
    live.undo(made);
    (live.make(m).keep(), target)
}
