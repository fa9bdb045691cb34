//! A table of the squares in line with each square, and whether two squares are in line.

ghost use Rattle.std.specs.Prelude.{◌≡◌};
ghost use Rattle.chess_moves.specs.steps.Guarded.{in_line};

use chess_types::{Square, SquareSet};

/// The squares on a square's rank, on its file and on its diagonals, and the square itself.
#[rattlefmt::skip]
static IN_LINE: [u64; 64] = [
    0x81412111090503ff, 0x2824222120a07ff, 0x404844424150eff, 0x8080888492a1cff, 0x10101011925438ff, 0x2020212224a870ff, 0x404142444850e0ff, 0x8182848890a0c0ff,
    0x412111090503ff03, 0x824222120a07ff07, 0x4844424150eff0e, 0x80888492a1cff1c, 0x101011925438ff38, 0x20212224a870ff70, 0x4142444850e0ffe0, 0x82848890a0c0ffc0,
    0x2111090503ff0305, 0x4222120a07ff070a, 0x844424150eff0e15, 0x888492a1cff1c2a, 0x1011925438ff3854, 0x212224a870ff70a8, 0x42444850e0ffe050, 0x848890a0c0ffc0a0,
    0x11090503ff030509, 0x22120a07ff070a12, 0x4424150eff0e1524, 0x88492a1cff1c2a49, 0x11925438ff385492, 0x2224a870ff70a824, 0x444850e0ffe05048, 0x8890a0c0ffc0a090,
    0x90503ff03050911, 0x120a07ff070a1222, 0x24150eff0e152444, 0x492a1cff1c2a4988, 0x925438ff38549211, 0x24a870ff70a82422, 0x4850e0ffe0504844, 0x90a0c0ffc0a09088,
    0x503ff0305091121, 0xa07ff070a122242, 0x150eff0e15244484, 0x2a1cff1c2a498808, 0x5438ff3854921110, 0xa870ff70a8242221, 0x50e0ffe050484442, 0xa0c0ffc0a0908884,
    0x3ff030509112141, 0x7ff070a12224282, 0xeff0e1524448404, 0x1cff1c2a49880808, 0x38ff385492111010, 0x70ff70a824222120, 0xe0ffe05048444241, 0xc0ffc0a090888482,
    0xff03050911214181, 0xff070a1222428202, 0xff0e152444840404, 0xff1c2a4988080808, 0xff38549211101010, 0xff70a82422212020, 0xffe0504844424140, 0xffc0a09088848281,
];

/// Whether both squares are on one rank, one file or one diagonal (FIDE Laws 2.4): a man on the one may be pinned to a king on the other.
#[inline(always)]
pub fn are_in_line(a: Square, b: Square) -> bool
    ensures { result ≡ in_line a b }
{
    SquareSet::from_bits(IN_LINE[a.index()]).contains(b)
}
