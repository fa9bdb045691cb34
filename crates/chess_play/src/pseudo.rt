//! Whether a move is pseudo-legal: legal but perhaps for the mover's own king (FIDE Laws 3.1 to 3.8).

ghost use Rattle.std.specs.Prelude.{◌≡◌, ◌&&◌, ◌<◌, is_none};
ghost use Rattle.chess_types.specs.board.Attack.{is_attacked, leaps};
ghost use Rattle.chess_types.specs.board.Position.{man_on};
ghost use Rattle.chess_play.specs.Castling.{is_way_free, may_castle};
ghost use Rattle.chess_types.specs.board.Pseudo.{castles, moves_as_it_attacks, is_ahead, is_pseudo, is_target, last_rank, midway, moves_as, pawn_promotion_fits, pawn_rank, pawn_takes, steps_one, steps_two};
ghost use Rattle.chess_types.specs.declared.board.man.Kind.TheVariants.{Pawn};

use crate::men::{is_capturable, may_enter, names_promotion, same_colour};
use chess_attack::{Follower, attacks_square, leaps};
use chess_types::{Colour, Kind, Man, Move, Setup, Square, Wing};

/// Whether the square is the en passant target.
pub(crate) fn is_target(target: Option<Square>, s: Square) -> bool
    ensures { result ≡ is_target target s }
{
    match target {
        None => false,
        Some(t) => t == s,
    }
}

/// Whether the second square is one square forward of the first.
fn is_ahead(side: Colour, a: Square, b: Square) -> bool
    ensures { result ≡ is_ahead side a b }
{
    match side {
        Colour::White => b.index() == a.index() + 8,
        Colour::Black => a.index() == b.index() + 8,
    }
}

/// The rank on which the pawns of a colour begin.
pub fn pawn_rank(side: Colour) -> u8
    ensures { result ≡ pawn_rank side }
{
    match side {
        Colour::White => 1,
        Colour::Black => 6,
    }
}

/// The rank on which the pawns of a colour are promoted, 7 or 0 (FIDE Laws 3.7.3.3).
pub fn last_rank(side: Colour) -> u8
    ensures { result ≡ last_rank side }
{
    match side {
        Colour::White => 7,
        Colour::Black => 0,
    }
}

/// The square halfway, which a pawn passes over when it advances two squares (FIDE Laws 3.7.2).
pub(crate) fn midway(m: Move) -> Square
    ensures { result ≡ midway m }
{
    Square::from_index((m.from.index() + m.to.index()) as u8 / 2)
}

/// Whether the move goes one square forward, to an empty square (FIDE Laws 3.7.1).
fn steps_one(setup: &Setup, m: Move) -> bool
    ensures { result ≡ steps_one setup.now m }
{
    is_ahead(setup.side, m.from, m.to) && setup.placement.get(m.to).is_none()
}

/// Whether it goes two squares forward from the rank where the pawn began, over an empty square to another (FIDE Laws 3.7.2).
fn steps_two(setup: &Setup, m: Move) -> bool
    ensures { result ≡ steps_two setup.now m }
{
    let from = m.from;
    let to = m.to;
    let middle = midway(m);
    from.rank() == pawn_rank(setup.side)
        && is_ahead(setup.side, from, middle)
        && is_ahead(setup.side, middle, to)
        && setup.placement.get(middle).is_none()
        && setup.placement.get(to).is_none()
}

/// Whether a pawn that goes so captures: a man there (FIDE Laws 3.7.3), or the pawn that has just passed over that square
/// (FIDE Laws 3.7.3.1).
fn pawn_takes(setup: &Setup, m: Move) -> bool
    ensures { result ≡ pawn_takes setup.now m }
{
    leaps(setup.side, Kind::Pawn, m.from, m.to)
        && (is_capturable(setup.side, setup.placement.get(m.to)) || is_target(setup.target, m.to))
}

/// Whether a pawn's move names what it becomes exactly where it reaches the last rank (FIDE Laws 3.7.3.3).
fn pawn_promotion_fits(side: Colour, m: Move) -> bool
    ensures { result ≡ pawn_promotion_fits side m }
{
    if m.to.rank() == last_rank(side) {
        m.promo.is_some() && names_promotion(m.promo)
    } else {
        m.promo.is_none()
    }
}

/// Whether no man stands there.
#[inline(always)]
fn is_free(setup: &Setup, number: u8) -> bool
    requires { number < 64 }
    ensures { result ≡ is_none (man_on setup.now number) }
{
    setup.placement.get(Square::from_index(number)).is_none()
}

/// Whether no man stands between the king's home and the rook's.
#[inline(always)]
fn is_way_free(setup: &Setup, side: Colour, wing: Wing) -> bool
    ensures { result ≡ is_way_free (man_on setup.now) side wing }
{
    match (side, wing) {
        (Colour::White, Wing::KingSide) => is_free(setup, 5) && is_free(setup, 6),
        (Colour::White, Wing::QueenSide) => {
            is_free(setup, 1) && is_free(setup, 2) && is_free(setup, 3)
        }
        (Colour::Black, Wing::KingSide) => is_free(setup, 61) && is_free(setup, 62),
        (Colour::Black, Wing::QueenSide) => {
            is_free(setup, 57) && is_free(setup, 58) && is_free(setup, 59)
        }
    }
}

/// Whether the king may castle to that wing (FIDE Laws 3.8.2).
#[inline(always)]
pub(crate) fn may_castle<F: Follower>(setup: &Setup, kept: &F, wing: Wing) -> bool
    requires { F.agrees kept.now setup.now.placement }
    ensures { result ≡ may_castle setup.now wing }
{
    let side = setup.side;
    let other = side.opponent();
    setup.rights.holds(side, wing)
        && is_way_free(setup, side, wing)
        && !kept.sees(&setup.placement, other, side.king_home())
        && !kept.sees(&setup.placement, other, wing.crossed(side))
        && !kept.sees(&setup.placement, other, wing.reached(side))
}

/// Whether the king castles to that wing (FIDE Laws 3.8.2).
#[tactic(auto, using(crate::proofs::CastlingSquares::castles_is))]
fn castles<F: Follower>(setup: &Setup, kept: &F, wing: Wing, m: Move) -> bool
    requires { F.agrees kept.now setup.now.placement }
    ensures { result ≡ castles setup.now wing m }
{
    wing.castles_to(setup.side, m) && may_castle(setup, kept, wing)
}

/// Whether the man of the side goes to a square that it attacks and may enter (FIDE Laws 3.2 to 3.6, 3.8.1).
fn moves_as_it_attacks(setup: &Setup, kind: Kind, m: Move) -> bool
    ensures { result ≡ moves_as_it_attacks setup.now kind m }
{
    let man = Man {
        colour: setup.side,
        kind,
    };
    may_enter(setup.side, setup.placement.get(m.to))
        && attacks_square(&setup.placement, man, m.from, m.to)
}

/// Whether a man of the side to move goes so, by its kind.
#[tactic(auto, unfolding(chess_types::specs::board::Pseudo::moves_as))]
fn moves_as<F: Follower>(setup: &Setup, kept: &F, kind: Kind, m: Move) -> bool
    requires { F.agrees kept.now setup.now.placement }
    ensures { result ≡ moves_as setup.now kind m }
{
    match kind {
        Kind::Pawn => {
            pawn_promotion_fits(setup.side, m)
                && (steps_one(setup, m) || steps_two(setup, m) || pawn_takes(setup, m))
        }
        Kind::King => {
            m.promo.is_none()
                && (moves_as_it_attacks(setup, kind, m)
                    || castles(setup, kept, Wing::KingSide, m)
                    || castles(setup, kept, Wing::QueenSide, m))
        }
        Kind::Knight | Kind::Bishop | Kind::Rook | Kind::Queen => {
            m.promo.is_none() && moves_as_it_attacks(setup, kind, m)
        }
    }
}

/// Whether the move is pseudo-legal: legal but perhaps for the mover's own king (FIDE Laws 3.1 to 3.8). What is kept is that of
/// the position; nothing is counted anew, and but for castling the board is walked along one line at most.
pub(crate) fn is_pseudo<F: Follower>(setup: &Setup, kept: &F, m: Move) -> bool
    requires { F.agrees kept.now setup.now.placement }
    ensures { result ≡ is_pseudo setup.now m }
{
    match setup.placement.get(m.from) {
        None => false,
        Some(man) => { same_colour(man.colour, setup.side) && moves_as(setup, kept, man.kind, m) }
    }
}
