//! The squares from which a man of a kind may come to a target.

ghost use Rattle.std.specs.Prelude.{◌≡◌, ◌<◌, ◌≤◌, ◌*◌, ◌||◌, ℕ, false, true, IfNone, IfSome};
ghost use Rattle.std.specs.FinSet.{contains};
ghost use Rattle.chess_types.specs.declared.board.man.Kind.TheVariants.{Pawn};
ghost use Rattle.chess_types.specs.board.Board.{man_at};
ghost use Rattle.chess_types.specs.board.Men.{is_king, is_pawn};
ghost use Rattle.chess_moves.specs.steps.Targets.{is_forward};
ghost use Rattle.chess_san.specs.Naming.{is_kind};
ghost use Rattle.chess_san.specs.steps.Origins.{Comes};

use chess_attack::{attacks, leap_squares};
use chess_types::{Colour, Kind, Man, Placement, Setup, Square, SquareSet};

/// The square so many ranks behind, seen by the colour.
#[inline(always)]
fn behind(side: Colour, ranks: u8, to: Square) -> Option<Square>
    requires { ranks ≤ 2 }
    ensures found { IfSome result (λ from. is_forward side (8 * ranks) from to ≡ true) }
    ensures none { IfNone result ((s : ℕ) → s < 64 → is_forward side (8 * ranks) s to ≡ false) }
{
    let number = to.index() as u8;
    match side {
        Colour::White => Square::new(number.checked_sub(8 * ranks)?),
        Colour::Black => Square::new(number + 8 * ranks),
    }
}

/// The set with the square so many ranks behind, seen by the colour, where there is one.
#[inline(always)]
fn with_behind(set: SquareSet, side: Colour, ranks: u8, to: Square) -> SquareSet
    requires { ranks ≤ 2 }
    ensures { (s : ℕ) → s < 64 → contains result s ≡ (contains set s || is_forward side (8 * ranks) s to) }
{
    let mut more = set;
    if let Some(from) = behind(side, ranks, to) {
        more.insert(from);
    }
    more
}

/// The squares from which a pawn may come: diagonally behind, and one or two ranks behind (FIDE Laws 3.7).
fn pawn_origins(setup: &Setup, to: Square) -> SquareSet
    ensures { Comes result setup.now Pawn to }
{
    let side = setup.side;
    let aside = leap_squares(side.opponent(), Kind::Pawn, to);
    let one = with_behind(aside, side, 1, to);
    let two = with_behind(one, side, 2, to);
    two.intersection(setup.placement.of(side))
}

/// The squares of men that move along the lines of a bishop, a rook or a queen; of all men for another kind.
#[inline(always)]
fn like(placement: &Placement, kind: Kind) -> SquareSet
    ensures { (s : ℕ) → is_kind kind (man_at placement.now s) ≡ true → contains result s ≡ true }
{
    match kind {
        Kind::Bishop => placement.diagonal(),
        Kind::Rook => placement.straight(),
        Kind::Queen => placement.straight().intersection(placement.diagonal()),
        Kind::Pawn | Kind::Knight | Kind::King => placement.occupied(),
    }
}

/// The squares from which a knight, bishop, rook or queen may come: those that it would attack from the target (FIDE Laws 3.2
/// to 3.6).
fn piece_origins(setup: &Setup, kind: Kind, to: Square) -> SquareSet
    requires pawn { is_pawn kind ≡ false }
    requires king { is_king kind ≡ false }
    ensures { Comes result setup.now kind to }
{
    let side = setup.side;
    let seen = attacks(&setup.placement, Man { colour: side, kind }, to);
    let own = seen.intersection(setup.placement.of(side));
    own.intersection(like(&setup.placement, kind))
}

/// The squares from which a man of the kind may come to the target, castling too.
pub(crate) fn origins(setup: &Setup, kind: Kind, to: Square) -> SquareSet
    ensures { Comes result setup.now kind to }
{
    match kind {
        Kind::Pawn => pawn_origins(setup, to),
        Kind::King => setup.placement.king(setup.side),
        Kind::Knight | Kind::Bishop | Kind::Rook | Kind::Queen => piece_origins(setup, kind, to),
    }
}
