//! What the text of a board's game says beside its moves: its tags and how it ended; and the whole game as a text.
ghost use Rattle.std.specs.Prelude.{◌≡◌, slice_get};
ghost use Rattle.chess_pgn.specs.Games.{tag_value};
ghost use Rattle.chess_pgn.specs.Written.{game_text};
ghost use Rattle.chess_bindings.specs.Handed.{IsAnsweredBy};
ghost use Rattle.chess_bindings.specs.Headings.{HandedIfThere, IsOutcomeSet, IsTagCleared, IsTagSet, tag_names};
ghost use Rattle.chess_bindings.specs.Reports.{marker_code};
ghost use Rattle.chess_c.specs.Calls.{ActsOnHeading, AsksHeading};

use crate::slot::{Slot, put, take};
use chess_bindings::{EMPTY, OK, clear_tag, marker_code, set_outcome, set_tag, tag, tag_name};
use chess_memory::Kept;

/// The value of the tag with that name (PGN 8.1); 12 where there is none. Result, FEN and SetUp are no tags: the game itself has what they say.
#[unsafe(no_mangle)]
pub extern "C" fn jatshegi_board_tag(
    alloc: Kept,
    slot: &mut Slot,
    name: &[u8],
    value: &mut [u8],
    count: &mut usize,
) -> u32
    ensures { AsksHeading ((value.new ≡ value.old) × (count.new ≡ count.old)) (λ board heading code. HandedIfThere (tag_value name.now heading.tags) code count.old count.new value.old value.new) slot.old.held result slot.new.held }
{
    let Some(session) = take(slot, alloc) else {
        return EMPTY;
    };
    let code = tag(&session.heading, name, value, count);
    put(slot, session, alloc);
    code
}

/// The name of the tag at that place, from 0: of the six that each game has besides Result, then of the others in ASCII order; 12 where there are no more.
#[unsafe(no_mangle)]
pub extern "C" fn jatshegi_board_tags(
    alloc: Kept,
    slot: &mut Slot,
    place: usize,
    name: &mut [u8],
    count: &mut usize,
) -> u32
    ensures { AsksHeading ((name.new ≡ name.old) × (count.new ≡ count.old)) (λ board heading code. HandedIfThere (slice_get (tag_names heading.tags) place) code count.old count.new name.old name.new) slot.old.held result slot.new.held }
{
    let Some(session) = take(slot, alloc) else {
        return EMPTY;
    };
    let code = tag_name(&session.heading, place, name, count);
    put(slot, session, alloc);
    code
}

/// Gives the tag of that name the value, which is one line (PGN 8.1). 18 where the name is none, 19 of Result, FEN and SetUp, 20 where the value has a line feed.
#[unsafe(no_mangle)]
pub extern "C" fn jatshegi_board_set_tag(
    alloc: Kept,
    slot: &mut Slot,
    name: &[u8],
    value: &[u8],
) -> u32
    ensures { ActsOnHeading (IsTagSet name.now value.now) slot.old.held result slot.new.held }
{
    let Some(mut session) = take(slot, alloc) else {
        return EMPTY;
    };
    let code = set_tag(&mut session.heading, name, value);
    put(slot, session, alloc);
    code
}

/// Takes the tag of that name out, if there is one; one of the six that each game has then says that nothing is known.
#[unsafe(no_mangle)]
pub extern "C" fn jatshegi_board_clear_tag(alloc: Kept, slot: &mut Slot, name: &[u8]) -> u32
    ensures { ActsOnHeading (IsTagCleared name.now) slot.old.held result slot.new.held }
{
    let Some(mut session) = take(slot, alloc) else {
        return EMPTY;
    };
    let code = clear_tag(&mut session.heading, name);
    put(slot, session, alloc);
    code
}

/// How the game ended, as its text says: 0 for `*`, 1 for `1-0`, 2 for `0-1`, 3 for `1/2-1/2` (PGN 8.2.6).
#[unsafe(no_mangle)]
pub extern "C" fn jatshegi_board_result(alloc: Kept, slot: &mut Slot, marker: &mut u32) -> u32
    ensures { AsksHeading (marker.new ≡ marker.old) (λ board heading code. (code ≡ 0) × (marker.new ≡ marker_code heading.outcome)) slot.old.held result slot.new.held }
{
    let Some(session) = take(slot, alloc) else {
        return EMPTY;
    };
    *marker = marker_code(session.heading.outcome());
    put(slot, session, alloc);
    OK
}

/// Says how the game ended, by the same numbers; 9 for any other.
#[unsafe(no_mangle)]
pub extern "C" fn jatshegi_board_set_result(alloc: Kept, slot: &mut Slot, marker: u32) -> u32
    ensures { ActsOnHeading (IsOutcomeSet marker) slot.old.held result slot.new.held }
{
    let Some(mut session) = take(slot, alloc) else {
        return EMPTY;
    };
    let code = set_outcome(&mut session.heading, marker);
    put(slot, session, alloc);
    code
}

/// The whole game in export form, with its tags and its end (PGN 3.2).
#[unsafe(no_mangle)]
pub extern "C" fn jatshegi_board_pgn(
    alloc: Kept,
    slot: &mut Slot,
    text: &mut [u8],
    count: &mut usize,
) -> u32
    ensures { AsksHeading ((text.new ≡ text.old) × (count.new ≡ count.old)) (λ board heading code. IsAnsweredBy (game_text (record { tags = heading.tags; outcome = heading.outcome; tree = board.tree })) code count.old count.new text.old text.new) slot.old.held result slot.new.held }
{
    let Some(session) = take(slot, alloc) else {
        return EMPTY;
    };
    let code = session.whole_game(text, count);
    put(slot, session, alloc);
    code
}
