//! How a text is written to the room that the caller gives.

ghost use Rattle.std.specs.Prelude.{◌++◌};
ghost use Rattle.chess_bindings.specs.Handed.{IsHanded};

use crate::codes::{OK, ROOM};

/// Puts the text where there is room for it, and says how long it is.
pub fn hand(text: &[u8], room: &mut [u8], count: &mut usize) -> u32
    ensures { IsHanded text.now result count.new room.old room.new }
{
    *count = text.len();
    if text.len() > room.len() {
        return ROOM;
    }
    room[..text.len()].copy_from_slice(text);
    OK
}

/// The same of one text and another after it.
pub fn hand_both(first: &[u8], second: &[u8], room: &mut [u8], count: &mut usize) -> u32
    ensures { IsHanded (first.now ++ second.now) result count.new room.old room.new }
{
    let whole = first.len() + second.len();
    *count = whole;
    if whole > room.len() {
        return ROOM;
    }
    room[..first.len()].copy_from_slice(first);
    room[first.len()..whole].copy_from_slice(second);
    OK
}
