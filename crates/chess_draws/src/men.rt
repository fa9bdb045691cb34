//! The men of a position as five sets of squares, by which earlier positions are compared.

ghost use Rattle.std.specs.Prelude.{◌≡◌, Bool, Option, false, is_some};
ghost use Rattle.chess_types.specs.declared.board.man.Man.{Man};
ghost use Rattle.chess_types.specs.board.Board.{Men, man_at};
ghost use Rattle.chess_types.specs.board.Men.{holds_pawn};
ghost use Rattle.chess_types.specs.steps.KeptSets.{Gathers, holds_king};
ghost use Rattle.chess_draws.specs.steps.RepetitionKeys.{IsMenOf, same_men};
ghost use Rattle.chess_draws.specs.steps.LookBack.{IsStep};

use chess_types::{Colour, Kind, Move, Placement, SquareSet};

/// The men of a position as five sets of squares, which say what is on each square.
#[derive(Clone, Copy)]
pub(crate) struct MenSets {
    pub(crate) white: SquareSet,
    pub(crate) black: SquareSet,
    /// The rooks, the queens and the kings.
    pub(crate) straight: SquareSet,
    /// The bishops and the queens.
    pub(crate) diagonal: SquareSet,
    /// The pawns and the kings.
    pub(crate) short: SquareSet,
}

// The squares of the kings.
#[inline(always)]
fn both_kings(placement: &Placement) -> SquareSet
    ensures { Gathers result holds_king (man_at placement.now) }
{
    placement
        .king(Colour::White)
        .union(placement.king(Colour::Black))
}

// The squares of the pawns.
#[inline(always)]
fn both_pawns(placement: &Placement) -> SquareSet
    ensures { Gathers result holds_pawn (man_at placement.now) }
{
    placement
        .of_kind(Colour::White, Kind::Pawn)
        .union(placement.of_kind(Colour::Black, Kind::Pawn))
}

// The squares of some men before the move of one man, who may be one of them, to a square that was empty.
#[inline(always)]
fn set_before(set: SquareSet, m: Move) -> SquareSet
    ensures { (before after : Men) (test : Option Man → Bool) → IsStep before after m → test None ≡ false → Gathers set test after → Gathers result test before }
{
    let mut earlier = set;
    if earlier.contains(m.to) {
        earlier.remove(m.to);
        earlier.insert(m.from);
    }
    earlier
}

/// The squares that were occupied before the move of a man to a square that was empty.
#[inline(always)]
pub(crate) fn occupied_before(occupied: SquareSet, m: Move) -> SquareSet
    ensures { (before after : Men) → IsStep before after m → Gathers occupied is_some after → Gathers result is_some before }
{
    let mut earlier = occupied;
    earlier.remove(m.to);
    earlier.insert(m.from);
    earlier
}

impl MenSets {
    /// The men of a placement.
    #[inline(always)]
    pub(crate) fn of(placement: &Placement) -> MenSets
        ensures { IsMenOf result (man_at placement.now) }
    {
        let kings = both_kings(placement);
        MenSets {
            white: placement.of(Colour::White),
            black: placement.of(Colour::Black),
            straight: placement.straight().union(kings),
            diagonal: placement.diagonal(),
            short: both_pawns(placement).union(kings),
        }
    }

    /// The men before the move of one of them to a square that was empty.
    #[inline(always)]
    pub(crate) fn before(&self, m: Move) -> MenSets
        ensures { (before after : Men) → IsStep before after m → IsMenOf self.now after → IsMenOf result before }
    {
        MenSets {
            white: set_before(self.white, m),
            black: set_before(self.black, m),
            straight: set_before(self.straight, m),
            diagonal: set_before(self.diagonal, m),
            short: set_before(self.short, m),
        }
    }

    /// The squares on which a man stands.
    #[inline(always)]
    pub(crate) fn occupied(&self) -> SquareSet
        ensures { (men : Men) → IsMenOf self.now men → Gathers result is_some men }
    {
        self.white.union(self.black)
    }

    /// Whether the same men stand on the same squares.
    #[inline(always)]
    #[tactic(auto, unfolding(crate::specs::steps::RepetitionKeys::same_men))]
    pub(crate) fn is_same(&self, other: &MenSets) -> bool
        ensures { result ≡ same_men self.now other.now }
    {
        self.white == other.white
            && self.black == other.black
            && self.straight == other.straight
            && self.diagonal == other.diagonal
            && self.short == other.short
    }
}
