//! Whether what a text says fits a legal move.

ghost use Rattle.std.specs.Prelude.{◌≡◌};
ghost use Rattle.chess_san.specs.Naming.{is_kind, castles_by, is_castles, fits, follows, may_be_plain, names};

use crate::form::{Course, Form, Origin};
use chess_types::{Kind, Man, Move, Setup, Wing};

pub(crate) fn is_kind(kind: Kind, there: Option<Man>) -> bool
    ensures { result ≡ is_kind kind there }
{
    match there {
        None => false,
        Some(man) => man.kind == kind,
    }
}

fn castles_by(there: Option<Man>, wing: Wing, m: Move) -> bool
    ensures { result ≡ castles_by there wing m }
{
    match there {
        None => false,
        Some(man) => wing.is_castling(man, m),
    }
}

fn is_castles(there: Option<Man>, m: Move) -> bool
    ensures { result ≡ is_castles there m }
{
    castles_by(there, Wing::KingSide, m) || castles_by(there, Wing::QueenSide, m)
}

fn fits(given: Option<u8>, number: u8) -> bool
    ensures { result ≡ fits given number }
{
    match given {
        None => true,
        Some(wanted) => wanted == number,
    }
}

fn follows(course: &Course, m: Move) -> bool
    ensures { result ≡ follows course.now m }
{
    m.to == course.to
        && fits(course.origin.file, m.from.file())
        && fits(course.origin.rank, m.from.rank())
        && m.promo == course.promo
}

fn may_be_plain(origin: Origin, there: Option<Man>, m: Move) -> bool
    ensures { result ≡ may_be_plain origin there m }
{
    (origin.file.is_some() && origin.rank.is_some())
        || (is_kind(Kind::Pawn, there)
            && (origin.file.is_some() || origin.rank.is_some() || m.from.file() == m.to.file()))
}

/// Whether the form names the legal move.
#[tactic(auto, unfolding(crate::specs::Naming::names))]
pub(crate) fn names(setup: &Setup, form: &Form, m: Move) -> bool
    ensures { result ≡ names setup.now form.now m }
{
    let there = setup.placement.get(m.from);
    match form {
        Form::Castles(wing) => castles_by(there, *wing, m),
        Form::Piece(kind, course) => {
            follows(course, m) && is_kind(*kind, there) && !is_castles(there, m)
        }
        Form::Plain(course) => follows(course, m) && may_be_plain(course.origin, there, m),
    }
}
