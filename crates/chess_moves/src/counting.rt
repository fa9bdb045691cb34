//! How many legal moves there are, and whether there is one, without a list of them.

ghost use Rattle.std.specs.Prelude.{◌≡◌, ◌<◌, ◌≤◌, true, filter, length, nat_lt};
ghost use Rattle.std.specs.FinSet.{contains};
ghost use Rattle.chess_types.specs.board.Men.{is_man, is_of};
ghost use Rattle.chess_types.specs.board.Position.{IsSetup, man_on};
ghost use Rattle.chess_types.specs.board.Legal.{is_legal, legal_moves, moves_from};
ghost use Rattle.chess_types.specs.board.Squares.{squares};
ghost use Rattle.chess_types.specs.steps.KeptSets.{Gathers};
ghost use Rattle.chess_moves.specs.steps.Guarded.{IsGuard};
ghost use Rattle.chess_moves.specs.steps.Kinds.{Begun, is_piece, legal_from};
ghost use Rattle.chess_moves.specs.steps.PawnCounts.{AreFree};

use crate::guard::{CheckInfo, check_info};
use crate::own::{own_kind, own_men, own_pieces};
use crate::pawns::{count_pawns, pawn_moves_to};
use crate::targets::{piece_targets, targets};
use chess_attack::{Follower, leap_squares};
use chess_play::LiveWith;
use chess_types::{Kind, Square, SquareSet};

/// How many legal moves start on a square on which a man of the side to move stands.
#[inline(always)]
fn count_from<F: Follower>(live: &mut LiveWith<F>, guard: &CheckInfo, from: Square) -> usize
    requires own { is_of live.old.position.side (man_on live.old.position from) ≡ true }
    requires guard { IsGuard guard.now live.old.position }
    requires clock { live.old.position.clock ≤ 1000000 }
    requires number { live.old.position.number ≤ 1000000 }
    ensures count { result ≡ length (filter (is_legal live.old.position) (moves_from from)) }
    ensures position { live.new.position ≡ live.old.position }
    ensures words { live.new.words ≡ live.old.words }
{
    let kind = own_kind(live, from);
    let side = live.position().side;
    let squares = targets(live, guard, kind, from);
    if kind.is_pawn() {
        pawn_moves_to(side, squares)
    } else {
        squares.len()
    }
}

/// The pawns of the side to move that aren't pinned and take nothing en passant.
#[inline(always)]
fn free_pawns<F: Follower>(live: &LiveWith<F>, guard: &CheckInfo) -> SquareSet
    requires guard { IsGuard guard.now live.now.position }
    ensures { AreFree live.now.position (contains result) }
{
    let setup = live.position();
    let side = setup.side;
    let pawns = setup.placement.of_kind(side, Kind::Pawn);
    let loose = pawns.difference(guard.pinned);
    match setup.target {
        Some(target) => loose.difference(leap_squares(side.opponent(), Kind::Pawn, target)),
        None => loose,
    }
}

/// How many legal moves start on these squares, on each of which a man of the side to move of that kind stands, a knight, a bishop,
/// a rook or a queen.
#[inline(always)]
fn count_kind<F: Follower>(
    live: &LiveWith<F>,
    guard: &CheckInfo,
    kind: Kind,
    men: SquareSet,
) -> usize
    requires men { Gathers men (λ there. is_man there live.now.position.side kind) (man_on live.now.position) }
    requires piece { is_piece kind ≡ true }
    requires setup { IsSetup live.now.position }
    requires guard { IsGuard guard.now live.now.position }
    requires clock { live.now.position.clock ≤ 1000000 }
    requires number { live.now.position.number ≤ 1000000 }
    ensures count { result ≡ legal_from live.now.position (contains men) }
    ensures at_most { result ≤ 432 }
{
    let mut count = 0usize;
    for from in men.iter() {
        count += piece_targets(live, guard, kind, from).len();
    }
    count
}

/// How many legal moves there are, where so many start elsewhere than on these squares of men of the side to move; where there are
/// enough, it may stop before the last.
#[inline(always)]
fn count_on<F: Follower>(
    live: &mut LiveWith<F>,
    guard: &CheckInfo,
    begun: usize,
    rest: SquareSet,
    enough: usize,
) -> usize
    requires begun { Begun live.old.position begun (filter (contains rest) squares) }
    requires few { length (legal_moves live.old.position) ≤ 432 }
    requires guard { IsGuard guard.now live.old.position }
    requires clock { live.old.position.clock ≤ 1000000 }
    requires number { live.old.position.number ≤ 1000000 }
    ensures few { result ≤ length (legal_moves live.old.position) }
    ensures all { result < enough → result ≡ length (legal_moves live.old.position) }
    ensures at_most { result ≤ 432 }
    ensures position { live.new.position ≡ live.old.position }
    ensures words { live.new.words ≡ live.old.words }
{
    let mut count = begun;
    if count >= enough {
        return count;
    }
    for from in rest.iter() {
        count += count_from(live, guard, from);
        if count >= enough {
            return count;
        }
    }
    count
}

/// How many legal moves there are, at most 432; no list is made (FIDE Laws 3.1 to 3.10). The halfmove clock and the fullmove
/// number are at most 1,000,000. All is as before but for the ticks.
pub fn count_legal<F: Follower>(live: &mut LiveWith<F>) -> usize
    requires clock { live.old.position.clock ≤ 1000000 }
    requires number { live.old.position.number ≤ 1000000 }
    ensures count { result ≡ length (legal_moves live.old.position) }
    ensures at_most { result ≤ 432 }
    ensures position { live.new.position ≡ live.old.position }
    ensures words { live.new.words ≡ live.old.words }
{
    let guard = check_info(live);
    let own = own_men(live);
    let free = free_pawns(live, &guard);
    let pawns = count_pawns(live.position(), free, guard.check_mask);
    let knights = own_pieces(live, Kind::Knight);
    let bishops = own_pieces(live, Kind::Bishop);
    let rooks = own_pieces(live, Kind::Rook);
    let queens = own_pieces(live, Kind::Queen);
    let knight_moves = count_kind(live, &guard, Kind::Knight, knights);
    let bishop_moves = count_kind(live, &guard, Kind::Bishop, bishops);
    let rook_moves = count_kind(live, &guard, Kind::Rook, rooks);
    let queen_moves = count_kind(live, &guard, Kind::Queen, queens);
    let begun = pawns + (knight_moves + (bishop_moves + (rook_moves + queen_moves)));
    let others = own.difference(free).difference(knights).difference(bishops);
    let rest = others.difference(rooks).difference(queens);
    count_on(live, &guard, begun, rest, usize::MAX)
}

/// Whether there is a legal move: the men are gone over until one has a move (FIDE Laws 3.1 to 3.10). The halfmove clock and the
/// fullmove number are at most 1,000,000. All is as before but for the ticks.
pub fn has_legal<F: Follower>(live: &mut LiveWith<F>) -> bool
    requires clock { live.old.position.clock ≤ 1000000 }
    requires number { live.old.position.number ≤ 1000000 }
    ensures value { result ≡ nat_lt 0 (length (legal_moves live.old.position)) }
    ensures position { live.new.position ≡ live.old.position }
    ensures words { live.new.words ≡ live.old.words }
{
    let guard = check_info(live);
    let own = own_men(live);
    let free = free_pawns(live, &guard);
    let begun = count_pawns(live.position(), free, guard.check_mask);
    count_on(live, &guard, begun, own.difference(free), 1) > 0
}
