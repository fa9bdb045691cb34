//! Tables of what each man is worth on each square, in the middlegame and in the endgame, and of the kinds' weights.

ghost use Rattle.std.specs.Prelude.{◌≡◌, pos, neg_ℤ, ◌≤ℤ◌};
ghost use Rattle.chess_eval.specs.Worth.{middle_of, end_of, weight_of};

use chess_types::{Kind, Man, Square};

/// What a white pawn is worth on each square in the middlegame.
#[rattlefmt::skip]
const WHITE_PAWN: [i32; 64] = [
    96, 99, 102, 105, 105, 102, 99, 96,
    100, 103, 106, 109, 109, 106, 103, 100,
    104, 107, 110, 113, 113, 110, 107, 104,
    108, 111, 114, 117, 117, 114, 111, 108,
    112, 115, 118, 121, 121, 118, 115, 112,
    116, 119, 122, 125, 125, 122, 119, 116,
    120, 123, 126, 129, 129, 126, 123, 120,
    124, 127, 130, 133, 133, 130, 127, 124,
];

/// What a black pawn is worth on each square in the middlegame.
#[rattlefmt::skip]
const BLACK_PAWN: [i32; 64] = [
    124, 127, 130, 133, 133, 130, 127, 124,
    120, 123, 126, 129, 129, 126, 123, 120,
    116, 119, 122, 125, 125, 122, 119, 116,
    112, 115, 118, 121, 121, 118, 115, 112,
    108, 111, 114, 117, 117, 114, 111, 108,
    104, 107, 110, 113, 113, 110, 107, 104,
    100, 103, 106, 109, 109, 106, 103, 100,
    96, 99, 102, 105, 105, 102, 99, 96,
];

/// What a white pawn is worth on each square in the endgame.
#[rattlefmt::skip]
const WHITE_PAWN_END: [i32; 64] = [
    100, 100, 100, 100, 100, 100, 100, 100,
    110, 110, 110, 110, 110, 110, 110, 110,
    120, 120, 120, 120, 120, 120, 120, 120,
    130, 130, 130, 130, 130, 130, 130, 130,
    140, 140, 140, 140, 140, 140, 140, 140,
    150, 150, 150, 150, 150, 150, 150, 150,
    160, 160, 160, 160, 160, 160, 160, 160,
    170, 170, 170, 170, 170, 170, 170, 170,
];

/// What a black pawn is worth on each square in the endgame.
#[rattlefmt::skip]
const BLACK_PAWN_END: [i32; 64] = [
    170, 170, 170, 170, 170, 170, 170, 170,
    160, 160, 160, 160, 160, 160, 160, 160,
    150, 150, 150, 150, 150, 150, 150, 150,
    140, 140, 140, 140, 140, 140, 140, 140,
    130, 130, 130, 130, 130, 130, 130, 130,
    120, 120, 120, 120, 120, 120, 120, 120,
    110, 110, 110, 110, 110, 110, 110, 110,
    100, 100, 100, 100, 100, 100, 100, 100,
];

/// What a knight of either colour is worth on each square.
#[rattlefmt::skip]
const KNIGHT: [i32; 64] = [
    308, 314, 320, 326, 326, 320, 314, 308,
    314, 320, 326, 332, 332, 326, 320, 314,
    320, 326, 332, 338, 338, 332, 326, 320,
    326, 332, 338, 344, 344, 338, 332, 326,
    326, 332, 338, 344, 344, 338, 332, 326,
    320, 326, 332, 338, 338, 332, 326, 320,
    314, 320, 326, 332, 332, 326, 320, 314,
    308, 314, 320, 326, 326, 320, 314, 308,
];

/// What a bishop of either colour is worth on each square.
#[rattlefmt::skip]
const BISHOP: [i32; 64] = [
    324, 327, 330, 333, 333, 330, 327, 324,
    327, 330, 333, 336, 336, 333, 330, 327,
    330, 333, 336, 339, 339, 336, 333, 330,
    333, 336, 339, 342, 342, 339, 336, 333,
    333, 336, 339, 342, 342, 339, 336, 333,
    330, 333, 336, 339, 339, 336, 333, 330,
    327, 330, 333, 336, 336, 333, 330, 327,
    324, 327, 330, 333, 333, 330, 327, 324,
];

/// What a white rook is worth on each square.
#[rattlefmt::skip]
const WHITE_ROOK: [i32; 64] = [
    500, 501, 502, 503, 503, 502, 501, 500,
    500, 501, 502, 503, 503, 502, 501, 500,
    500, 501, 502, 503, 503, 502, 501, 500,
    500, 501, 502, 503, 503, 502, 501, 500,
    500, 501, 502, 503, 503, 502, 501, 500,
    500, 501, 502, 503, 503, 502, 501, 500,
    510, 511, 512, 513, 513, 512, 511, 510,
    500, 501, 502, 503, 503, 502, 501, 500,
];

/// What a black rook is worth on each square.
#[rattlefmt::skip]
const BLACK_ROOK: [i32; 64] = [
    500, 501, 502, 503, 503, 502, 501, 500,
    510, 511, 512, 513, 513, 512, 511, 510,
    500, 501, 502, 503, 503, 502, 501, 500,
    500, 501, 502, 503, 503, 502, 501, 500,
    500, 501, 502, 503, 503, 502, 501, 500,
    500, 501, 502, 503, 503, 502, 501, 500,
    500, 501, 502, 503, 503, 502, 501, 500,
    500, 501, 502, 503, 503, 502, 501, 500,
];

/// What a queen of either colour is worth on each square.
#[rattlefmt::skip]
const QUEEN: [i32; 64] = [
    897, 898, 899, 900, 900, 899, 898, 897,
    898, 899, 900, 901, 901, 900, 899, 898,
    899, 900, 901, 902, 902, 901, 900, 899,
    900, 901, 902, 903, 903, 902, 901, 900,
    900, 901, 902, 903, 903, 902, 901, 900,
    899, 900, 901, 902, 902, 901, 900, 899,
    898, 899, 900, 901, 901, 900, 899, 898,
    897, 898, 899, 900, 900, 899, 898, 897,
];

/// What a king of either colour is worth on each square in the middlegame.
#[rattlefmt::skip]
const KING: [i32; 64] = [
    0, -6, -12, -18, -18, -12, -6, 0,
    -6, -12, -18, -24, -24, -18, -12, -6,
    -12, -18, -24, -30, -30, -24, -18, -12,
    -18, -24, -30, -36, -36, -30, -24, -18,
    -18, -24, -30, -36, -36, -30, -24, -18,
    -12, -18, -24, -30, -30, -24, -18, -12,
    -6, -12, -18, -24, -24, -18, -12, -6,
    0, -6, -12, -18, -18, -12, -6, 0,
];

/// What a king of either colour is worth on each square in the endgame.
#[rattlefmt::skip]
const KING_END: [i32; 64] = [
    0, 10, 20, 30, 30, 20, 10, 0,
    10, 20, 30, 40, 40, 30, 20, 10,
    20, 30, 40, 50, 50, 40, 30, 20,
    30, 40, 50, 60, 60, 50, 40, 30,
    30, 40, 50, 60, 60, 50, 40, 30,
    20, 30, 40, 50, 50, 40, 30, 20,
    10, 20, 30, 40, 40, 30, 20, 10,
    0, 10, 20, 30, 30, 20, 10, 0,
];

/// What each of the 12 men, in the order of `Man::number`, is worth on each square in the middlegame.
#[rattlefmt::skip]
static MIDDLE: [[i32; 64]; 12] = [
    WHITE_PAWN, KNIGHT, BISHOP, WHITE_ROOK, QUEEN, KING,
    BLACK_PAWN, KNIGHT, BISHOP, BLACK_ROOK, QUEEN, KING,
];

/// What each of the 12 men, in the order of `Man::number`, is worth on each square in the endgame.
#[rattlefmt::skip]
static END: [[i32; 64]; 12] = [
    WHITE_PAWN_END, KNIGHT, BISHOP, WHITE_ROOK, QUEEN, KING_END,
    BLACK_PAWN_END, KNIGHT, BISHOP, BLACK_ROOK, QUEEN, KING_END,
];

/// What the man is worth on the square in the middlegame, in centipawns, -36 to 903. Its rank is counted from its own side,
/// and a king's worth is only its place.
#[inline(always)]
pub fn middle(man: Man, square: Square) -> i32
    ensures value { result ≡ middle_of man square }
    ensures low { neg_ℤ (pos 36) ≤ℤ result }
    ensures high { result ≤ℤ pos 903 }
{
    MIDDLE[man.number()][square.index()]
}

/// What the man is worth on the square in the endgame, in centipawns, 0 to 903: a pawn more on each rank, a king more towards
/// the middle, and the others as in the middlegame.
#[inline(always)]
pub fn end(man: Man, square: Square) -> i32
    ensures value { result ≡ end_of man square }
    ensures low { pos 0 ≤ℤ result }
    ensures high { result ≤ℤ pos 903 }
{
    END[man.number()][square.index()]
}

/// What a man of the kind weighs in the middlegame: 0 for a pawn or a king, up to 4 for a queen. All men of the start weigh 24.
#[inline(always)]
pub fn weight(kind: Kind) -> i32
    ensures value { result ≡ weight_of kind }
    ensures low { pos 0 ≤ℤ result }
    ensures high { result ≤ℤ pos 4 }
{
    match kind {
        Kind::Pawn | Kind::King => 0,
        Kind::Knight | Kind::Bishop => 1,
        Kind::Rook => 2,
        Kind::Queen => 4,
    }
}
