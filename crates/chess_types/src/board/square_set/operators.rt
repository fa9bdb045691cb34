//! The operators of sets of squares, `a & b`, `a | b`, `a - b` and `!a`, whether two are equal, and how one is shown.

ghost use Rattle.std.specs.Prelude.{◌≡◌, ℕ, ◌&&◌, not, nat_lt};
ghost use Rattle.std.specs.FinSet as set;
ghost use Rattle.std.specs.Cmp.{partial_equiv_from_equiv};
ghost use Rattle.chess_types.specs.board.Sets.{same_squares, same_each};
ghost use Rattle.chess_types.specs.steps.SetLaws.{same_squares-laws};

use super::SquareSet;
use std::fmt;
use std::ops::{BitAnd, BitOr, Not, Sub};

impl BitAnd for SquareSet {
    type Output = SquareSet;

    ghost bitand_gives = { λ a b both. both ≡ set.intersection a b };

    /// The squares of both sets.
    #[inline(always)]
    fn bitand(self, rhs: SquareSet) -> SquareSet {
        self.intersection(rhs)
    }
}

impl BitOr for SquareSet {
    type Output = SquareSet;

    ghost bitor_gives = { λ a b either. either ≡ set.union a b };

    /// The squares of either set.
    #[inline(always)]
    fn bitor(self, rhs: SquareSet) -> SquareSet {
        self.union(rhs)
    }
}

impl Sub for SquareSet {
    type Output = SquareSet;

    ghost sub_gives = { λ a b rest. rest ≡ set.difference a b };

    /// The squares of the first set that the second doesn't hold.
    #[inline(always)]
    fn sub(self, rhs: SquareSet) -> SquareSet {
        self.difference(rhs)
    }
}

impl Not for SquareSet {
    type Output = SquareSet;

    ghost not_gives = { λ a others. (s : ℕ) → set.contains others s ≡ (nat_lt s 64 && not (set.contains a s)) };

    /// The squares that the set doesn't hold.
    #[inline(always)]
    fn not(self) -> SquareSet {
        SquareSet { bits: !self.bits }
    }
}

impl PartialEq for SquareSet {
    ghost eq = { same_squares };

    ghost laws = { partial_equiv_from_equiv same_squares-laws };

    /// Whether both sets have the same squares.
    #[inline(always)]
    fn eq(&self, other: &SquareSet) -> bool
        ensures value { result ≡ same_squares self.now other.now }
        ensures each { result ≡ same_each self.now other.now }
    {
        self.bits == other.bits
    }
}

impl Eq for SquareSet {
    ghost laws = { same_squares-laws };
}

impl fmt::Debug for SquareSet {
    /// The squares in ascending order.
    fn fmt<W: fmt::Write>(&self, f: &mut fmt::Formatter<W>) -> fmt::Result {
        f.debug_set().entries(self.iter()).finish()
    }
}
