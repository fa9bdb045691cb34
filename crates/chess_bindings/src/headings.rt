//! What is asked of a heading, and set in it: with a status.
ghost use Rattle.std.specs.Prelude.{◌≡◌, option_map, slice_get};
ghost use Rattle.chess_pgn.specs.Games.{tag_value};
ghost use Rattle.chess_pgn.specs.Written.{game_text};
ghost use Rattle.chess_bindings.specs.Handed.{IsAnsweredBy};
ghost use Rattle.chess_bindings.specs.Headings.{HandedIfThere, IsOutcomeSet, IsTagCleared, IsTagSet, tag_names, outcome_in, tag_code};

use crate::codes::{ARGUMENT, BAD_NAME, BAD_VALUE, MEMORY, NO_SUCH, OK, OWN_TAG};
use crate::heading::Heading;
use crate::texts::hand;
use chess_edit::TagFault;
use chess_pgn::Outcome;
use chess_tree::Tree;
use std::alloc::Allocator;

// The status of a tag that is set, or refused.
fn tag_code(ended: Result<(), TagFault>) -> u32
    ensures { result ≡ tag_code ended }
{
    match ended {
        Ok(()) => OK,
        Err(TagFault::BadName) => BAD_NAME,
        Err(TagFault::OwnTag) => OWN_TAG,
        Err(TagFault::BadValue) => BAD_VALUE,
        Err(TagFault::Memory) => MEMORY,
    }
}

// The marker of a number.
fn outcome_in(number: u32) -> Option<Outcome>
    ensures { result ≡ outcome_in number }
{
    match number {
        0 => Some(Outcome::Unfinished),
        1 => Some(Outcome::WhiteWins),
        2 => Some(Outcome::BlackWins),
        3 => Some(Outcome::Draw),
        _ => None,
    }
}

// Writes a text, if there is one.
fn hand_if_there(text: Option<&[u8]>, room: &mut [u8], count: &mut usize) -> u32
    ensures { HandedIfThere (option_map (λ text. text.now) text.entry) result count.old count.new room.old room.new }
{
    match text {
        Some(text) => hand(text, room, count),
        None => NO_SUCH,
    }
}

/// Writes the value of the tag with that name: 0. 12 where there is none. Result, FEN and SetUp are no tags: the game itself has what they say.
pub fn tag<A: Allocator>(
    heading: &Heading<'_, A>,
    name: &[u8],
    room: &mut [u8],
    count: &mut usize,
) -> u32
    ensures { HandedIfThere (tag_value name.now heading.now.tags) result count.old count.new room.old room.new }
{
    hand_if_there(heading.tag(name), room, count)
}

/// Writes the name of the tag at that place, from 0, in the order of the export form: 0. 12 where there are no more.
pub fn tag_name<A: Allocator>(
    heading: &Heading<'_, A>,
    place: usize,
    room: &mut [u8],
    count: &mut usize,
) -> u32
    ensures { HandedIfThere (slice_get (tag_names heading.now.tags) place) result count.old count.new room.old room.new }
{
    hand_if_there(heading.name_at(place), room, count)
}

/// Gives the tag of that name the value (PGN 8.1): 0. 18 where the name is none, 19 of Result, FEN and SetUp, 20 where the value goes on in another line, 2
/// where there is no memory; all is then as before.
pub fn set_tag<A: Allocator>(heading: &mut Heading<'_, A>, name: &[u8], value: &[u8]) -> u32
    ensures { IsTagSet name.now value.now heading.old result heading.new }
{
    tag_code(heading.set_tag(name, value))
}

/// Takes the tag of that name out, if there is one; of the six that each game has, its value is then that nothing is known: 0. 2 where there is no memory,
/// and all is as before.
pub fn clear_tag<A: Allocator>(heading: &mut Heading<'_, A>, name: &[u8]) -> u32
    ensures { IsTagCleared name.now heading.old result heading.new }
{
    match heading.clear_tag(name) {
        Ok(()) => OK,
        Err(_) => MEMORY,
    }
}

/// Says how the game ended, by its number: 0. 9 where that is none, and all is as before.
pub fn set_outcome<A: Allocator>(heading: &mut Heading<'_, A>, number: u32) -> u32
    ensures { IsOutcomeSet number heading.old result heading.new }
{
    match outcome_in(number) {
        Some(outcome) => {
            heading.set_outcome(outcome);
            OK
        }
        None => ARGUMENT,
    }
}

/// Writes the export form of the game with that heading and the moves of the tree (PGN 3.2): 0, or 10 where it is longer than the room for it; 2 where there
/// is no memory, and nothing is written.
pub fn whole_game<'a, A: Allocator>(
    heading: &Heading<'a, A>,
    tree: &Tree<'a, A>,
    room: &mut [u8],
    count: &mut usize,
) -> u32
    ensures { IsAnsweredBy (game_text (record { tags = heading.now.tags; outcome = heading.now.outcome; tree = tree.now.tree })) result count.old count.new room.old room.new }
{
    match heading.write(tree) {
        Ok(text) => hand(text.as_slice(), room, count),
        Err(_) => MEMORY,
    }
}
