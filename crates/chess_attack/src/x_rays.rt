//! The attacks of bishops, rooks and queens that go through a square, opened or closed as it is emptied or occupied.

ghost use Rattle.std.specs.Prelude.{◌≡◌, ◌+◌, true, false};
ghost use Rattle.chess_types.specs.declared.board.man.Colour.{Colour};
ghost use Rattle.chess_types.specs.board.Board.{man_at};
ghost use Rattle.chess_types.specs.steps.KeptSets.{Gathers};
ghost use Rattle.chess_attack.specs.declared.way.Way.TheVariants.{Up, Down};
ghost use Rattle.chess_attack.specs.steps.Halves.{half_length as half_length_of, opposite as opposite_of};
ghost use Rattle.chess_attack.specs.KeptCounts.{Worked};
ghost use Rattle.chess_attack.specs.steps.Marks.{HasRoomFor, Moves};
ghost use Rattle.chess_attack.specs.steps.Through.{movers, is_attacked_along, cut_on, cut_along, cut};

use crate::change::Change;
use crate::lines::half;
use crate::slide::{slides, sweep};
use crate::tally::Tally;
use crate::walk::first;
use crate::way::Way;
use chess_types::{Axis, Placement, Square, SquareSet};

/// The other half of an axis.
#[inline(always)]
pub fn opposite(way: Way) -> Way
    ensures { result ≡ opposite_of way }
{
    match way {
        Way::Up => Way::Down,
        Way::Down => Way::Up,
    }
}

/// The squares of the men that move along the axis.
#[inline(always)]
pub fn sliders(placement: &Placement, axis: Axis) -> SquareSet
    ensures { Gathers result (movers axis) (man_at placement.now) }
{
    match axis {
        Axis::Rank | Axis::File => placement.straight(),
        Axis::Rising | Axis::Falling => placement.diagonal(),
    }
}

/// Whether no man that moves along the axis stands on that half of it: no attack comes from there.
#[inline(always)]
fn is_quiet(placement: &Placement, axis: Axis, way: Way, at: Square) -> bool
    ensures { result ≡ true → (colour : Colour) → is_attacked_along (man_at placement.now) axis way at colour ≡ false }
{
    half(axis, way, at)
        .intersection(sliders(placement, axis))
        .is_empty()
}

/// Opens or closes the attack that goes through the square to that half of the axis: the first man on the other half has
/// one, if he moves along the axis. He isn't looked for where no man there does.
#[inline(always)]
fn update_x_rays_half(
    tally: &mut Tally,
    placement: &Placement,
    axis: Axis,
    way: Way,
    at: Square,
    change: Change,
)
    requires room { HasRoomFor change tally.old (cut_on (man_at placement.now) axis way at) }
    ensures counts { Moves change tally.old tally.new (cut_on (man_at placement.now) axis way at) }
    ensures worked { Worked tally.old tally.new (half_length_of axis way at) }
{
    let other = opposite(way);
    if is_quiet(placement, axis, other, at) {
        return;
    }
    if let Some(square) = first(placement, axis, other, at) {
        if let Some(man) = placement.get(square) {
            if slides(man.kind, axis) {
                sweep(tally, placement, axis, way, at, change, man.colour);
            }
        }
    }
}

/// Opens or closes the attacks that go through the square along the axis.
#[inline(always)]
fn update_x_rays_axis(
    tally: &mut Tally,
    placement: &Placement,
    axis: Axis,
    at: Square,
    change: Change,
)
    requires room { HasRoomFor change tally.old (cut_along (man_at placement.now) axis at) }
    ensures counts { Moves change tally.old tally.new (cut_along (man_at placement.now) axis at) }
    ensures worked { Worked tally.old tally.new (half_length_of axis Up at + half_length_of axis Down at) }
{
    update_x_rays_half(tally, placement, axis, Way::Up, at, change);
    update_x_rays_half(tally, placement, axis, Way::Down, at, change);
}

/// Opens or closes the attacks that go through the square. At most 27 ticks.
pub fn update_x_rays(tally: &mut Tally, placement: &Placement, at: Square, change: Change)
    requires room { HasRoomFor change tally.old (cut (man_at placement.now) at) }
    ensures counts { Moves change tally.old tally.new (cut (man_at placement.now) at) }
    ensures worked { Worked tally.old tally.new 27 }
{
    update_x_rays_axis(tally, placement, Axis::Rank, at, change);
    update_x_rays_axis(tally, placement, Axis::File, at, change);
    update_x_rays_axis(tally, placement, Axis::Rising, at, change);
    update_x_rays_axis(tally, placement, Axis::Falling, at, change);
}
