//! Whether a square is attacked (FIDE Laws 3.1.2), and by which men, looked at from the square by sets of squares, without a count.

ghost use Rattle.std.specs.Prelude.{◌≡◌, ℕ, ◌<◌, ◌&&◌, ◌||◌, true, false};
ghost use Rattle.std.specs.List.{list_any};
ghost use Rattle.std.specs.FinSet.{contains};
ghost use Rattle.chess_types.specs.board.Board.{man_at};
ghost use Rattle.chess_types.specs.board.Men.{is_man};
ghost use Rattle.chess_types.specs.board.Squares.{squares};
ghost use Rattle.chess_types.specs.board.Attack.{attacks_for, is_attacked, leaps};
ghost use Rattle.chess_types.specs.steps.KeptSets.{Gathers};
ghost use Rattle.chess_attack.specs.steps.Halves.{on_half};
ghost use Rattle.chess_attack.specs.steps.Marks.{reaches};
ghost use Rattle.chess_attack.specs.steps.Through.{is_attacked_along, is_slider};
ghost use Rattle.chess_attack.specs.steps.PinHalves.{along, round};
ghost use Rattle.chess_attack.specs.steps.Leaps.{leaps_there};

use crate::lines::{half, leap_squares};
use crate::walk::{first, reach};
use crate::way::Way;
use crate::x_rays::sliders;
use chess_types::{Axis, Colour, Kind, Placement, Square, SquareSet};

/// Whether the set holds a square.
#[inline(always)]
fn holds_any(set: SquareSet) -> bool
    ensures { result ≡ list_any (contains set) squares }
{
    match set.lowest() {
        Some(_) => true,
        None => false,
    }
}

/// The men of the colour and kind that leap to the square, looked at from there: a pawn's leaps back are those of the other
/// colour's.
#[inline(always)]
fn leapers_of(placement: &Placement, colour: Colour, kind: Kind, at: Square) -> SquareSet
    ensures { (a : ℕ) → a < 64 → contains result a ≡ (leaps colour kind a at && is_man (man_at placement.now a) colour kind) }
{
    let back = leap_squares(colour.opponent(), kind, at);
    back.intersection(placement.of_kind(colour, kind))
}

/// The pawns, knights and kings of the colour that attack the square.
#[inline(always)]
fn leapers(placement: &Placement, colour: Colour, at: Square) -> SquareSet
    ensures { (a : ℕ) → a < 64 → contains result a ≡ leaps_there (man_at placement.now a) colour a at }
{
    let pawns = leapers_of(placement, colour, Kind::Pawn, at);
    let knights = leapers_of(placement, colour, Kind::Knight, at);
    let kings = leapers_of(placement, colour, Kind::King, at);
    pawns.union(knights).union(kings)
}

/// The men of the colour that move along the axis.
#[inline(always)]
fn sliders_of(placement: &Placement, axis: Axis, colour: Colour) -> SquareSet
    ensures { Gathers result (λ there. is_slider there axis colour) (man_at placement.now) }
{
    sliders(placement, axis).intersection(placement.of(colour))
}

/// Whether no man of the colour that moves along the axis stands on that half of it.
#[inline(always)]
pub(crate) fn is_free(
    placement: &Placement,
    axis: Axis,
    way: Way,
    at: Square,
    colour: Colour,
) -> bool
    ensures { result ≡ true → (t : ℕ) → t < 64 → on_half axis way at t ≡ true → is_slider (man_at placement.now t) axis colour ≡ false }
{
    let men = sliders_of(placement, axis, colour);
    half(axis, way, at).intersection(men).is_empty()
}

/// Whether the first man on that half of the axis is of the colour and moves along it.
#[inline(always)]
pub(crate) fn sees_slider(
    placement: &Placement,
    axis: Axis,
    way: Way,
    at: Square,
    colour: Colour,
) -> bool
    ensures { result ≡ is_attacked_along (man_at placement.now) axis way at colour }
{
    let men = sliders_of(placement, axis, colour);
    match first(placement, axis, way, at) {
        Some(near) => men.contains(near),
        None => false,
    }
}

/// The same; the first man is looked for only where such a man stands on that half.
#[inline(always)]
fn is_seen(placement: &Placement, axis: Axis, way: Way, at: Square, colour: Colour) -> bool
    ensures { result ≡ is_attacked_along (man_at placement.now) axis way at colour }
{
    if is_free(placement, axis, way, at, colour) {
        return false;
    }
    sees_slider(placement, axis, way, at, colour)
}

/// The same of both halves of the axis.
#[inline(always)]
fn is_seen_along(placement: &Placement, axis: Axis, at: Square, colour: Colour) -> bool
    ensures { result ≡ along (λ a way. is_attacked_along (man_at placement.now) a way at colour) axis }
{
    is_seen(placement, axis, Way::Up, at, colour) || is_seen(placement, axis, Way::Down, at, colour)
}

/// The same of the eight halves.
#[inline(always)]
fn is_seen_around(placement: &Placement, at: Square, colour: Colour) -> bool
    ensures { result ≡ round (λ axis way. is_attacked_along (man_at placement.now) axis way at colour) }
{
    is_seen_along(placement, Axis::Rank, at, colour)
        || is_seen_along(placement, Axis::File, at, colour)
        || is_seen_along(placement, Axis::Rising, at, colour)
        || is_seen_along(placement, Axis::Falling, at, colour)
}

/// Whether a man of the colour attacks the square, whatever is on it (FIDE Laws 3.1.2). By sets of squares; no count is kept for it.
pub fn is_attacked(placement: &Placement, colour: Colour, square: Square) -> bool
    ensures { result ≡ is_attacked (man_at placement.now) colour square }
{
    holds_any(leapers(placement, colour, square)) || is_seen_around(placement, square, colour)
}

/// The first man on that half of the axis, if he is of the colour and moves along it.
#[inline(always)]
fn slider_on(placement: &Placement, axis: Axis, way: Way, at: Square, colour: Colour) -> SquareSet
    ensures { (a : ℕ) → a < 64 → contains result a ≡ (reaches (man_at placement.now) axis way at a && is_slider (man_at placement.now a) axis colour) }
{
    let men = sliders_of(placement, axis, colour);
    reach(placement, axis, way, at).intersection(men)
}

/// The same of both halves of the axis.
#[inline(always)]
fn sliders_along(placement: &Placement, axis: Axis, at: Square, colour: Colour) -> SquareSet
    ensures { (a : ℕ) → a < 64 → contains result a ≡ along (λ b way. reaches (man_at placement.now) b way at a && is_slider (man_at placement.now a) b colour) axis }
{
    let up = slider_on(placement, axis, Way::Up, at, colour);
    up.union(slider_on(placement, axis, Way::Down, at, colour))
}

/// The same of the eight halves: the bishops, rooks and queens of the colour that attack the square.
#[inline(always)]
fn sliders_around(placement: &Placement, at: Square, colour: Colour) -> SquareSet
    ensures { (a : ℕ) → a < 64 → contains result a ≡ round (λ axis way. reaches (man_at placement.now) axis way at a && is_slider (man_at placement.now a) axis colour) }
{
    let ranks = sliders_along(placement, Axis::Rank, at, colour);
    let files = sliders_along(placement, Axis::File, at, colour);
    let rising = sliders_along(placement, Axis::Rising, at, colour);
    let falling = sliders_along(placement, Axis::Falling, at, colour);
    ranks.union(files).union(rising).union(falling)
}

/// The squares of the men of the colour that attack the square, even if one of their own men is on it. A king attacks, and so does a pinned
/// man, but no man attacks over another one (FIDE Laws 3.1 to 3.8).
pub fn attackers(placement: &Placement, colour: Colour, square: Square) -> SquareSet
    ensures { (a : ℕ) → a < 64 → contains result a ≡ attacks_for (man_at placement.now a) colour (man_at placement.now) a square }
{
    leapers(placement, colour, square).union(sliders_around(placement, square, colour))
}
