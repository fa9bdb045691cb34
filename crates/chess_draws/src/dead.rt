//! Dead positions, and sides that can't mate, as far as the men alone show it (FIDE Laws 5.2.2, 6.9).

ghost use Rattle.std.specs.Prelude.{◌≡◌, ◌==◌, filter};
ghost use Rattle.std.specs.FinSet.{contains};
ghost use Rattle.chess_types.specs.steps.KeptSets.{Gathers};
ghost use Rattle.chess_types.specs.board.Squares.{squares};
ghost use Rattle.chess_types.specs.board.Board.{man_at};
ghost use Rattle.chess_types.specs.board.Men.{men_of};
ghost use Rattle.chess_types.specs.board.Mating.{cannot_mate};
ghost use Rattle.chess_types.specs.board.Dead.{holds_bishop, holds_minor, others, is_lone_minor, is_one_coloured, is_dead};

use chess_types::{Colour, Kind, Man, Placement, Setup, SquareSet};

// The squares of the men other than kings.
fn others(men: &Placement) -> SquareSet
    ensures { filter (contains result) squares ≡ others (man_at men.now) }
{
    let kings = men.king(Colour::White).union(men.king(Colour::Black));
    men.occupied().difference(kings)
}

// The squares of the bishops.
fn bishops(men: &Placement) -> SquareSet
    ensures { Gathers result holds_bishop (man_at men.now) }
{
    men.diagonal().difference(men.straight())
}

// Whether a bishop or a knight stands there.
fn holds_minor(there: Option<Man>) -> bool
    ensures { result ≡ holds_minor there }
{
    match there {
        None => false,
        Some(man) => man.kind == Kind::Bishop || man.kind == Kind::Knight,
    }
}

// Whether beside the kings there is at most one man, a knight or a bishop.
fn is_lone_minor(men: &Placement) -> bool
    ensures { result ≡ is_lone_minor (man_at men.now) }
{
    let mut rest = others(men).iter();
    let Some(at) = rest.next() else {
        return true;
    };
    match rest.next() {
        None => holds_minor(men.get(at)),
        Some(_) => false,
    }
}

// Whether beside the kings there are only bishops, on squares of one colour.
fn is_one_coloured(men: &Placement) -> bool
    ensures { result ≡ is_one_coloured (man_at men.now) }
{
    let others = others(men);
    let are_bishops = others.is_subset(bishops(men));
    let are_light = others.is_subset(SquareSet::light());
    let are_dark = others.is_subset(SquareSet::dark());
    are_bishops & (are_light | are_dark)
}

/// Whether the position is on the list of dead ones (FIDE Laws 5.2.2): king against king; king and one knight or bishop against
/// king; kings and bishops only, all bishops on squares of one colour.
#[tactic(auto, unfolding(chess_types::specs::board::Dead::is_dead))]
pub(crate) fn is_dead(setup: &Setup) -> bool
    ensures { result ≡ is_dead setup.now }
{
    is_lone_minor(&setup.placement) || is_one_coloured(&setup.placement)
}

// Whether the king is the side's last man.
fn has_only_king(men: &Placement, side: Colour) -> bool
    ensures { result ≡ (men_of men.now side == 1) }
{
    men.men(side) == 1
}

/// Whether the side can't mate any more, as far as this is decided: it has only its king, or the position is dead. Then no series of legal moves ends with
/// that side mating (`mating_laws` of `chess_theorems`), so a win on time is none (FIDE Laws 6.9). `false` doesn't say that it can.
#[tactic(auto, unfolding(chess_types::specs::board::Mating::cannot_mate))]
pub fn cannot_mate(setup: &Setup, side: Colour) -> bool
    ensures { result ≡ cannot_mate setup.now side }
{
    has_only_king(&setup.placement, side) || is_dead(setup)
}
