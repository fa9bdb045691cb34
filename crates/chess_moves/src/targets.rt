//! The squares to which a man of the side to move goes legally, as a set.

ghost use Rattle.std.specs.Prelude.{◌≡◌, ◌<◌, ◌&&◌, ◌||◌, ◌==◌, ℕ, None, true, false, is_none, IfSome, IfNone};
ghost use Rattle.std.specs.FinSet.{contains};
ghost use Rattle.chess_types.specs.declared.board.man.Kind.TheVariants.{Pawn, King};
ghost use Rattle.chess_types.specs.board.Board.{man_at};
ghost use Rattle.chess_types.specs.board.Attack.{leaps as leaps_of};
ghost use Rattle.chess_types.specs.board.Position.{man_on, king_home};
ghost use Rattle.chess_types.specs.board.Pseudo.{moves_as_it_attacks, is_ahead, is_capturable, steps_one, steps_two};
ghost use Rattle.chess_play.specs.Castling.{may_castle};
ghost use Rattle.chess_moves.specs.steps.Guarded.{IsGuard, StandsGuarded, is_safe_step};
ghost use Rattle.chess_moves.specs.steps.Kinds.{is_piece};
ghost use Rattle.chess_moves.specs.steps.Targets.{is_plain_target, is_legal_target, move_to, promotes};

use crate::guard::{CheckInfo, guarded};
use crate::legal::{is_safe_tried, king_is_safe};
use chess_attack::{Follower, attacks, leap_squares, leaps};
use chess_play::{LiveWith, last_rank, pawn_rank};
use chess_types::{Colour, Kind, Man, Move, Placement, Setup, Square, SquareSet, Wing};

/// Whether no man stands there.
#[inline(always)]
fn is_empty(placement: &Placement, at: Square) -> bool
    ensures { result ≡ is_none (man_at placement.now at) }
{
    placement.get(at).is_none()
}

/// The square that lies ahead; `None` on the last rank.
#[inline(always)]
fn ahead(side: Colour, from: Square) -> Option<Square>
    ensures found { IfSome result (λ to. is_ahead side from to ≡ true) }
    ensures none { IfNone result ((s : ℕ) → s < 64 → is_ahead side from s ≡ false) }
{
    let number = from.index() as u8;
    match side {
        Colour::White => Square::new(number + 8),
        Colour::Black => Square::new(number.checked_sub(8)?),
    }
}

/// The squares to which a pawn steps: the one ahead, and from where it began the one after it, as long as they are empty (FIDE
/// Laws 3.7.1, 3.7.2).
#[inline(always)]
fn pawn_steps(setup: &Setup, from: Square) -> SquareSet
    ensures { (to : ℕ) → to < 64 → contains result to ≡ (steps_one setup.now (move_to from to None) || steps_two setup.now (move_to from to None)) }
{
    let side = setup.side;
    let mut steps = SquareSet::empty();
    let Some(one) = ahead(side, from) else {
        return steps;
    };
    if !is_empty(&setup.placement, one) {
        return steps;
    }
    steps.insert(one);
    if from.rank() != pawn_rank(side) {
        return steps;
    }
    let Some(two) = ahead(side, one) else {
        return steps;
    };
    if !is_empty(&setup.placement, two) {
        return steps;
    }
    steps.insert(two);
    steps
}

/// The squares on which a pawn captures a man (FIDE Laws 3.7.3).
#[inline(always)]
fn pawn_captures(setup: &Setup, from: Square) -> SquareSet
    ensures { (to : ℕ) → to < 64 → contains result to ≡ (leaps_of setup.now.side Pawn from to && is_capturable setup.now.side (man_on setup.now to)) }
{
    let side = setup.side;
    let other = side.opponent();
    let aside = leap_squares(side, Kind::Pawn, from);
    let taken = aside.intersection(setup.placement.of(other));
    taken.difference(setup.placement.king(other))
}

/// The squares that a man of the side to move attacks and may enter (FIDE Laws 3.1 to 3.6, 3.8.1).
#[inline(always)]
fn man_targets(setup: &Setup, kind: Kind, from: Square) -> SquareSet
    ensures { (to : ℕ) → to < 64 → contains result to ≡ moves_as_it_attacks setup.now kind (move_to from to None) }
{
    let side = setup.side;
    let other = side.opponent();
    let all = attacks(&setup.placement, Man { colour: side, kind }, from);
    let free = all.difference(setup.placement.of(side));
    free.difference(setup.placement.king(other))
}

/// The squares to which a man of the side to move goes, en passant and castling aside (FIDE Laws 3.1 to 3.8).
#[inline(always)]
fn plain_targets(setup: &Setup, kind: Kind, from: Square) -> SquareSet
    ensures { (to : ℕ) → to < 64 → contains result to ≡ is_plain_target setup.now kind from to }
{
    if kind.is_pawn() {
        let steps = pawn_steps(setup, from);
        let captures = pawn_captures(setup, from);
        steps.union(captures)
    } else {
        man_targets(setup, kind, from)
    }
}

/// Whether a move of the kind there is a pawn's to its last rank (FIDE Laws 3.7.3.3).
#[inline(always)]
pub(crate) fn promotes(side: Colour, kind: Kind, to: Square) -> bool
    ensures { result ≡ promotes side kind to }
{
    kind.is_pawn() && to.rank() == last_rank(side)
}

/// The squares to which a pawn's legal moves go. Only en passant, which takes two men from one line, is made and taken back.
#[inline(always)]
fn pawn_targets<F: Follower>(live: &mut LiveWith<F>, guard: &CheckInfo, from: Square) -> SquareSet
    requires { StandsGuarded live.old.position guard.now Pawn from }
    ensures is_legal_target { (to : ℕ) → to < 64 → contains result to ≡ is_legal_target live.old.position Pawn from to }
    ensures position { live.new.position ≡ live.old.position }
    ensures words { live.new.words ≡ live.old.words }
{
    let setup = live.position();
    let side = setup.side;
    let target = setup.target;
    let plain = plain_targets(setup, Kind::Pawn, from);
    let allowed = guarded(live, guard, from);
    let mut targets = plain.intersection(allowed);
    let Some(to) = target else {
        return targets;
    };
    if !leaps(side, Kind::Pawn, from, to) {
        return targets;
    }
    let m = Move {
        from,
        to,
        promo: None,
    };
    let safe = is_safe_tried(live, m);
    targets.remove(to);
    targets.insert_if(to, safe);
    targets
}

/// Those of the squares on which the king isn't attacked.
#[inline(always)]
fn safe_steps<F: Follower>(live: &LiveWith<F>, guard: &CheckInfo, steps: SquareSet) -> SquareSet
    requires { IsGuard guard.now live.now.position }
    ensures { (to : ℕ) → to < 64 → contains result to ≡ (contains steps to && is_safe_step live.now.position guard.now.king to) }
{
    let mut safe = SquareSet::empty();
    for to in steps.iter() {
        let unattacked = king_is_safe(live, guard, to);
        safe.insert_if(to, unattacked);
    }
    safe
}

/// Whether the king, standing there, may castle to that wing (FIDE Laws 3.8.2).
#[inline(always)]
fn may_castle_from<F: Follower>(live: &LiveWith<F>, from: Square, wing: Wing) -> bool
    ensures { result ≡ ((from == king_home live.now.position.side) && may_castle live.now.position wing) }
{
    is_home(live.position().side, from) && live.may_castle(wing)
}

/// Whether the king's home is meant.
#[inline(always)]
fn is_home(side: Colour, at: Square) -> bool
    ensures { result ≡ (at == king_home side) }
{
    at == side.king_home()
}

/// The squares to which the king's legal moves go.
#[inline(always)]
fn king_targets<F: Follower>(live: &LiveWith<F>, guard: &CheckInfo, from: Square) -> SquareSet
    requires { StandsGuarded live.now.position guard.now King from }
    ensures { (to : ℕ) → to < 64 → contains result to ≡ is_legal_target live.now.position King from to }
{
    let setup = live.position();
    let side = setup.side;
    let steps = plain_targets(setup, Kind::King, from);
    let mut targets = safe_steps(live, guard, steps);
    let short = may_castle_from(live, from, Wing::KingSide);
    targets.insert_if(Wing::KingSide.reached(side), short);
    let long = may_castle_from(live, from, Wing::QueenSide);
    targets.insert_if(Wing::QueenSide.reached(side), long);
    targets
}

/// The squares to which the legal moves of a knight, a bishop, a rook or a queen of the side to move go.
#[inline(always)]
pub(crate) fn piece_targets<F: Follower>(
    live: &LiveWith<F>,
    guard: &CheckInfo,
    kind: Kind,
    from: Square,
) -> SquareSet
    requires stands { StandsGuarded live.now.position guard.now kind from }
    requires piece { is_piece kind ≡ true }
    ensures { (to : ℕ) → to < 64 → contains result to ≡ is_legal_target live.now.position kind from to }
{
    let plain = plain_targets(live.position(), kind, from);
    let allowed = guarded(live, guard, from);
    plain.intersection(allowed)
}

/// The squares to which the legal moves of a man of the side to move go; a pawn's to its last rank name what it becomes.
#[inline(always)]
pub(crate) fn targets<F: Follower>(
    live: &mut LiveWith<F>,
    guard: &CheckInfo,
    kind: Kind,
    from: Square,
) -> SquareSet
    requires { StandsGuarded live.old.position guard.now kind from }
    ensures is_legal_target { (to : ℕ) → to < 64 → contains result to ≡ is_legal_target live.old.position kind from to }
    ensures position { live.new.position ≡ live.old.position }
    ensures words { live.new.words ≡ live.old.words }
{
    if kind.is_pawn() {
        pawn_targets(live, guard, from)
    } else if kind.is_king() {
        king_targets(live, guard, from)
    } else {
        piece_targets(live, guard, kind, from)
    }
}
