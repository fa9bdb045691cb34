//! A search of the position at the cursor for C, one legal move for each call.

ghost use Rattle.std.specs.Prelude.{◌≡◌, is_some};
ghost use Rattle.chess_bindings.specs.Within.{says_within};
ghost use Rattle.chess_c.specs.Searches.{IsBegun, IsEnded, IsSliced, IsSlicedWithin, IsSoFar};

use crate::flag::within;
use crate::moves::CMove;
use crate::slot::{Slot, put, take};
use crate::stop::{Stop, put_stop, take_stop};
use chess_bindings::{EMPTY, OK};
use chess_memory::Kept;

/// Begins a search of the position at the cursor, 1 to 16 plies deep; another one of the board's is ended. Nothing is searched yet. The search has a line
/// of its own, so the board may be used meanwhile.
#[unsafe(no_mangle)]
pub extern "C" fn jatshegi_search_start(alloc: Kept, slot: &mut Slot, depth: u8) -> u32
    ensures { IsBegun depth slot.old.held result slot.new.held }
{
    let Some(mut session) = take(slot, alloc) else {
        return EMPTY;
    };
    let code = session.begin(depth);
    put(slot, session, alloc);
    code
}

/// Searches one legal move more, and says how many are left; at 0 the search is done, and a further call searches nothing.
#[unsafe(no_mangle)]
pub extern "C" fn jatshegi_search_slice(alloc: Kept, slot: &mut Slot, left: &mut usize) -> u32
    ensures { IsSliced slot.old.held result left.old left.new slot.new.held }
{
    let Some(mut session) = take(slot, alloc) else {
        return EMPTY;
    };
    let code = session.slice(left);
    put(slot, session, alloc);
    code
}

/// Searches one legal move more, for which `nodes` positions may be asked for, and which is abandoned where the flag of the handle, if there is one, is found set
/// at a 1,024th position. How many positions were asked for is written then, too, and the search is as before.
#[unsafe(no_mangle)]
pub extern "C" fn jatshegi_search_slice_within(
    alloc: Kept,
    slot: &mut Slot,
    nodes: u64,
    stop: &mut Stop,
    left: &mut usize,
    visited: &mut u64,
) -> u32
    ensures sliced { IsSlicedWithin (says_within nodes (is_some stop.old.held)) slot.old.held result left.old left.new visited.old visited.new slot.new.held }
    ensures stop { stop.new.held ≡ stop.old.held }
{
    let Some(mut session) = take(slot, alloc) else {
        return EMPTY;
    };
    let flag = take_stop(stop, alloc);
    let code = session.slice_within(within(nodes, &flag), left, visited);
    put_stop(stop, flag, alloc);
    put(slot, session, alloc);
    code
}

/// The best of the legal moves that were searched, with its value for the side to move: centipawns, or 30,000 less the plies to a mate. Once none is left
/// it is the position's best move at that depth.
#[unsafe(no_mangle)]
pub extern "C" fn jatshegi_search_best(
    alloc: Kept,
    slot: &mut Slot,
    m: &mut CMove,
    value: &mut i32,
) -> u32
    ensures { IsSoFar slot.old.held result m.old m.new value.old value.new slot.new.held }
{
    let Some(session) = take(slot, alloc) else {
        return EMPTY;
    };
    let code = session.so_far(m, value);
    put(slot, session, alloc);
    code
}

/// Ends the search, and frees what it had.
#[unsafe(no_mangle)]
pub extern "C" fn jatshegi_search_end(alloc: Kept, slot: &mut Slot) -> u32
    ensures { IsEnded slot.old.held result slot.new.held }
{
    let Some(mut session) = take(slot, alloc) else {
        return EMPTY;
    };
    session.search = None;
    put(slot, session, alloc);
    OK
}
