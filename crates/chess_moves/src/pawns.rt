//! The moves of many pawns at once, counted by shifts of sets of squares (FIDE Laws 3.7).

ghost use Rattle.std.specs.Prelude.{◌≡◌, ◌<◌, ◌≤◌, ◌&&◌, ◌==◌, ℕ, not, nat_lt};
ghost use Rattle.std.specs.FinSet.{contains};
ghost use Rattle.chess_types.specs.board.Squares.{file_of, rank_of};
ghost use Rattle.chess_types.specs.board.Pseudo.{is_capturable, last_rank, pawn_rank as pawn_rank_of};
ghost use Rattle.chess_types.specs.board.Position.{man_on};
ghost use Rattle.chess_moves.specs.steps.PawnCounts.{shifted, left_file as left_file_of, right_file as right_file_of, square_ahead, plain_moves, pawn_moves_to};

use chess_play::pawn_rank;
use chess_types::{Colour, Setup, SquareSet};

/// The squares of the rank on which the pawns of a colour are promoted (FIDE Laws 3.7.3.3).
#[inline(always)]
fn last_squares(side: Colour) -> SquareSet
    ensures { (s : ℕ) → contains result s ≡ (nat_lt s 64 && rank_of s == last_rank side) }
{
    match side {
        Colour::White => SquareSet::rank(7),
        Colour::Black => SquareSet::rank(0),
    }
}

/// How many moves of pawns go to these squares: four to each on the last rank, one for each kind that a pawn becomes.
#[inline(always)]
pub(crate) fn pawn_moves_to(side: Colour, squares: SquareSet) -> usize
    ensures value { result ≡ pawn_moves_to side (contains squares) }
    ensures at_most { result ≤ 256 }
{
    let last = squares.intersection(last_squares(side));
    squares.len() + 3 * last.len()
}

/// The squares so much forward of those of the set.
#[inline(always)]
fn forward(side: Colour, set: SquareSet, by: u8) -> SquareSet
    requires { by < 64 }
    ensures { (b : ℕ) → b < 64 → contains result b ≡ shifted side by (contains set) b }
{
    match side {
        Colour::White => set.raised(by),
        Colour::Black => set.lowered(by),
    }
}

/// The file at the side's left, from which 7 numbers forward lead over the edge.
#[inline(always)]
fn left_file(side: Colour) -> u8
    ensures value { result ≡ left_file_of side }
    ensures at_most { result < 8 }
{
    match side {
        Colour::White => 0,
        Colour::Black => 7,
    }
}

/// The file at the side's right, from which 9 numbers forward lead over the edge.
#[inline(always)]
fn right_file(side: Colour) -> u8
    ensures value { result ≡ right_file_of side }
    ensures at_most { result < 8 }
{
    match side {
        Colour::White => 7,
        Colour::Black => 0,
    }
}

/// The squares of the men that the side may capture.
#[inline(always)]
fn capturable_squares(setup: &Setup) -> SquareSet
    ensures { (b : ℕ) → contains result b ≡ is_capturable setup.now.side (man_on setup.now b) }
{
    let other = setup.side.opponent();
    let taken = setup.placement.of(other);
    taken.difference(setup.placement.king(other))
}

/// The squares of the mask to which the pawns step (FIDE Laws 3.7.1).
#[inline(always)]
fn single_steps(side: Colour, pawns: SquareSet, occupied: SquareSet, mask: SquareSet) -> SquareSet
    ensures { (b : ℕ) → b < 64 → contains result b ≡ (shifted side 8 (contains pawns) b && (not (contains occupied b) && contains mask b)) }
{
    let ahead = forward(side, pawns, 8);
    ahead.difference(occupied).intersection(mask)
}

/// Those to which they step twice (FIDE Laws 3.7.2).
#[inline(always)]
fn double_steps(side: Colour, pawns: SquareSet, occupied: SquareSet, mask: SquareSet) -> SquareSet
    ensures { (b : ℕ) → b < 64 → contains result b ≡ (shifted side 16 (λ a. contains pawns a && (rank_of a == pawn_rank_of side && not (contains occupied (square_ahead side a)))) b && (not (contains occupied b) && contains mask b)) }
{
    let start = pawns.intersection(SquareSet::rank(pawn_rank(side)));
    let first = forward(side, start, 8).difference(occupied);
    single_steps(side, first, occupied, mask)
}

/// Those on which they capture so many numbers forward, but for the pawns of the file from which that leads over the edge
/// (FIDE Laws 3.7.3).
#[inline(always)]
fn captures(
    side: Colour,
    by: u8,
    edge: u8,
    pawns: SquareSet,
    capturable: SquareSet,
    mask: SquareSet,
) -> SquareSet
    requires by { by < 64 }
    requires edge { edge < 8 }
    ensures { (b : ℕ) → b < 64 → contains result b ≡ (shifted side by (λ a. contains pawns a && not (file_of a == edge)) b && (contains capturable b && contains mask b)) }
{
    let inner = pawns.difference(SquareSet::file(edge));
    let there = forward(side, inner, by);
    there.intersection(capturable).intersection(mask)
}

/// How many moves of the pawns on these squares go to the squares of the mask, en passant aside: by four shifts, for all at once.
pub(crate) fn count_pawns(setup: &Setup, free: SquareSet, mask: SquareSet) -> usize
    ensures { result ≡ plain_moves setup.now (contains free) (contains mask) }
{
    let side = setup.side;
    let occupied = setup.placement.occupied();
    let capturable = capturable_squares(setup);
    let one = single_steps(side, free, occupied, mask);
    let two = double_steps(side, free, occupied, mask);
    let left = captures(side, 7, left_file(side), free, capturable, mask);
    let right = captures(side, 9, right_file(side), free, capturable, mask);
    pawn_moves_to(side, one)
        + pawn_moves_to(side, two)
        + pawn_moves_to(side, left)
        + pawn_moves_to(side, right)
}
