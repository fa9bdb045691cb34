//! The board's engine for C: lines, slices of a search, and moments of the clock in, replies out (UCI).

ghost use Rattle.std.specs.Prelude.{◌≡◌, is_some};
ghost use Rattle.chess_bindings.specs.Within.{says_within};
ghost use Rattle.chess_c.specs.Calls.{IsEnded, IsInfinite, IsReplying, IsReplyingWithin, IsSearching, IsTimed, IsWaiting};

use crate::flag::within;
use crate::slot::{Slot, put, take};
use crate::stop::{Stop, put_stop, take_stop};
use chess_bindings::{EMPTY, OK};
use chess_memory::Kept;
use chess_uci::Event;

// What the engine in the slot replies to an event.
fn happen(
    alloc: Kept,
    slot: &mut Slot,
    event: Event<'_>,
    replies: &mut [u8],
    count: &mut usize,
) -> u32
    ensures { IsReplying event.entry slot.old.held result count.old count.new replies.old replies.new slot.new.held }
{
    let Some(mut session) = take(slot, alloc) else {
        return EMPTY;
    };
    let code = session.event(event, replies, count);
    put(slot, session, alloc);
    code
}

/// A line is read by the board's engine (UCI), which knows nothing of the board, without its line feed; the replies, each on a line of its own, at most 260 bytes.
#[unsafe(no_mangle)]
pub extern "C" fn jatshegi_engine_line(
    alloc: Kept,
    slot: &mut Slot,
    line: &[u8],
    replies: &mut [u8],
    count: &mut usize,
) -> u32
    ensures { IsReplying (Event.Line line.entry) slot.old.held result count.old count.new replies.old replies.new slot.new.held }
{
    happen(alloc, slot, Event::Line(line), replies, count)
}

/// There is time to search one root move more; the replies.
#[unsafe(no_mangle)]
pub extern "C" fn jatshegi_engine_slice(
    alloc: Kept,
    slot: &mut Slot,
    replies: &mut [u8],
    count: &mut usize,
) -> u32
    ensures { IsReplying Event.Slice slot.old.held result count.old count.new replies.old replies.new slot.new.held }
{
    happen(alloc, slot, Event::Slice, replies, count)
}

/// The same, for which `nodes` positions may be asked for, and which is abandoned where the flag of the handle, if there is one, is found set at a 1,024th
/// position. Whether it was made, and how many positions were asked for; where it was abandoned, nothing is replied, and the engine is as before.
#[unsafe(no_mangle)]
pub extern "C" fn jatshegi_engine_slice_within(
    alloc: Kept,
    slot: &mut Slot,
    nodes: u64,
    stop: &mut Stop,
    searched: &mut bool,
    visited: &mut u64,
    replies: &mut [u8],
    count: &mut usize,
) -> u32
    ensures replying { IsReplyingWithin (says_within nodes (is_some stop.old.held)) slot.old.held visited.old visited.new searched.old searched.new result count.old count.new replies.old replies.new slot.new.held }
    ensures stop { stop.new.held ≡ stop.old.held }
{
    let Some(mut session) = take(slot, alloc) else {
        return EMPTY;
    };
    let flag = take_stop(stop, alloc);
    let code = session.slice_of_engine(within(nodes, &flag), visited, searched, replies, count);
    put_stop(stop, flag, alloc);
    put(slot, session, alloc);
    code
}

/// The clock reads `moment` milliseconds; the replies.
#[unsafe(no_mangle)]
pub extern "C" fn jatshegi_engine_moment(
    alloc: Kept,
    slot: &mut Slot,
    moment: u64,
    replies: &mut [u8],
    count: &mut usize,
) -> u32
    ensures { IsReplying (Event.Moment moment) slot.old.held result count.old count.new replies.old replies.new slot.new.held }
{
    happen(alloc, slot, Event::Moment(moment), replies, count)
}

/// Whether a search runs.
#[unsafe(no_mangle)]
pub extern "C" fn jatshegi_engine_searching(
    alloc: Kept,
    slot: &mut Slot,
    searching: &mut bool,
) -> u32
    ensures { IsSearching slot.old.held result searching.old searching.new slot.new.held }
{
    let Some(session) = take(slot, alloc) else {
        return EMPTY;
    };
    *searching = session.searching();
    put(slot, session, alloc);
    OK
}

/// Whether an infinite search runs, one that ends by `stop` alone.
#[unsafe(no_mangle)]
pub extern "C" fn jatshegi_engine_infinite(alloc: Kept, slot: &mut Slot, infinite: &mut bool) -> u32
    ensures { IsInfinite slot.old.held result infinite.old infinite.new slot.new.held }
{
    let Some(session) = take(slot, alloc) else {
        return EMPTY;
    };
    *infinite = session.infinite();
    put(slot, session, alloc);
    OK
}

/// Whether the search that runs has done all that it has to do, and waits for `stop`.
#[unsafe(no_mangle)]
pub extern "C" fn jatshegi_engine_waiting(alloc: Kept, slot: &mut Slot, waiting: &mut bool) -> u32
    ensures { IsWaiting slot.old.held result waiting.old waiting.new slot.new.held }
{
    let Some(session) = take(slot, alloc) else {
        return EMPTY;
    };
    *waiting = session.waiting();
    put(slot, session, alloc);
    OK
}

/// Whether `quit` came.
#[unsafe(no_mangle)]
pub extern "C" fn jatshegi_engine_ended(alloc: Kept, slot: &mut Slot, ended: &mut bool) -> u32
    ensures { IsEnded slot.old.held result ended.old ended.new slot.new.held }
{
    let Some(session) = take(slot, alloc) else {
        return EMPTY;
    };
    *ended = session.ended();
    put(slot, session, alloc);
    OK
}

/// After how many milliseconds from the last moment the clock ends the search that runs.
#[unsafe(no_mangle)]
pub extern "C" fn jatshegi_engine_time_left(alloc: Kept, slot: &mut Slot, left: &mut u64) -> u32
    ensures { IsTimed slot.old.held result left.old left.new slot.new.held }
{
    let Some(session) = take(slot, alloc) else {
        return EMPTY;
    };
    let code = session.time_left(left);
    put(slot, session, alloc);
    code
}
