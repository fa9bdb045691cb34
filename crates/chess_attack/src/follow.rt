//! How a tally follows a man that is put, taken or replaced: his own attacks, and those that went through his square.

ghost use Rattle.std.specs.Prelude.{◌≡◌, ◌+◌, ◌<◌, ◌≤◌, None, IsSome};
ghost use Rattle.std.specs.FinMap as map;
ghost use Rattle.chess_types.specs.board.Board.{man_at};
ghost use Rattle.chess_attack.specs.KeptCounts.{AreCounts, changed_of};

use crate::change::Change;
use crate::mark::mark;
use crate::tally::Tally;
use crate::x_rays::update_x_rays;
use chess_types::{Man, Placement, Square};

/// The tally follows a man that is put on an empty square: his attacks come, and those that went through the square go.
pub fn put_in(tally: &mut Tally, before: &Placement, at: Square, man: Man)
    requires empty { map.get before.now at ≡ None }
    requires agrees { AreCounts tally.old before.now }
    ensures agrees { AreCounts tally.new (map.insert before.now at man) }
    ensures at_most { tally.new.ticks ≤ tally.old.ticks + 54 }
    ensures at_least { tally.new.ticks < u32.MAX → tally.old.ticks + changed_of (man_at before.now) (man_at (map.insert before.now at man)) ≤ tally.new.ticks }
{
    mark(tally, before, man, at, Change::Raise);
    update_x_rays(tally, before, at, Change::Lower);
}

/// The tally follows the man that is taken from an occupied square: his attacks go, and those through the square come.
pub fn clear_in(tally: &mut Tally, before: &Placement, at: Square)
    requires occupied { IsSome (map.get before.now at) }
    requires agrees { AreCounts tally.old before.now }
    ensures agrees { AreCounts tally.new (map.remove before.now at) }
    ensures at_most { tally.new.ticks ≤ tally.old.ticks + 54 }
    ensures at_least { tally.new.ticks < u32.MAX → tally.old.ticks + changed_of (man_at before.now) (man_at (map.remove before.now at)) ≤ tally.new.ticks }
{
    if let Some(man) = before.get(at) {
        mark(tally, before, man, at, Change::Lower);
        update_x_rays(tally, before, at, Change::Raise);
    }
}

/// The tally follows a man that takes the place of another: the one's attacks go, the other's come. Those through the square
/// are closed before and afterwards.
pub fn replace_in(tally: &mut Tally, before: &Placement, at: Square, man: Man)
    requires occupied { IsSome (map.get before.now at) }
    requires agrees { AreCounts tally.old before.now }
    ensures agrees { AreCounts tally.new (map.insert before.now at man) }
    ensures at_most { tally.new.ticks ≤ tally.old.ticks + 54 }
    ensures at_least { tally.new.ticks < u32.MAX → tally.old.ticks + changed_of (man_at before.now) (man_at (map.insert before.now at man)) ≤ tally.new.ticks }
{
    if let Some(other) = before.get(at) {
        mark(tally, before, other, at, Change::Lower);
        mark(tally, before, man, at, Change::Raise);
    }
}
