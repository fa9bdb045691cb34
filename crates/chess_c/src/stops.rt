//! Flags by which another thread of C has a search abandoned: made, shared, set and freed.

ghost use Rattle.std.specs.Prelude.{◌≡◌, None};
ghost use Rattle.chess_c.specs.Stops.{IsKept, SharesFrom, set_code};

use crate::flag::Flag;
use crate::stop::{Stop, put_stop, take_stop};
use chess_bindings::{EMPTY, MEMORY, OK};
use chess_memory::{Handle, Kept, Lender, handle_of, keep, kept_by};

// Puts a handle there, in the place of what was there or in a block of its own; or there is no memory, and all is as before.
fn settle(stop: &mut Stop, flag: Option<Flag>, handle: Handle) -> u32
    ensures { IsKept result stop.old.held stop.new.held }
{
    let Some(made) = flag else {
        return MEMORY;
    };
    let alloc = kept_by(handle);
    if let Some(mut there) = take_stop(stop, alloc) {
        *there = made;
        put_stop(stop, Some(there), alloc);
        return OK;
    }
    let Some(kept) = keep(handle, made) else {
        return MEMORY;
    };
    put_stop(stop, Some(kept), alloc);
    OK
}

/// A flag that isn't set, and a handle of it; what was there is freed. Where there is no memory all is as before.
#[unsafe(no_mangle)]
pub extern "C" fn jatshegi_stop_new(lender: Lender, stop: &mut Stop) -> u32
    ensures { IsKept result stop.old.held stop.new.held }
{
    let Some(handle) = handle_of(lender) else {
        return MEMORY;
    };
    settle(stop, Flag::new(handle), handle)
}

/// Another handle of the same flag, for another thread; what was there is freed. Where there is no memory all is as before.
#[unsafe(no_mangle)]
pub extern "C" fn jatshegi_stop_share(
    alloc: Kept,
    lender: Lender,
    stop: &mut Stop,
    other: &mut Stop,
) -> u32
    ensures kept { SharesFrom stop.old.held result other.old.held other.new.held }
    ensures stop { stop.new.held ≡ stop.old.held }
{
    let Some(kept) = take_stop(stop, alloc) else {
        return EMPTY;
    };
    let code = match handle_of(lender) {
        Some(handle) => settle(other, kept.another(), handle),
        None => MEMORY,
    };
    put_stop(stop, Some(kept), alloc);
    code
}

/// Sets the flag, or clears it.
#[unsafe(no_mangle)]
pub extern "C" fn jatshegi_stop_set(alloc: Kept, stop: &mut Stop, set: bool) -> u32
    ensures code { result ≡ set_code stop.old.held }
    ensures stop { stop.new.held ≡ stop.old.held }
{
    let Some(kept) = take_stop(stop, alloc) else {
        return EMPTY;
    };
    kept.set(set);
    put_stop(stop, Some(kept), alloc);
    OK
}

/// Frees the handle, and with its last handle the flag; there is none then.
#[unsafe(no_mangle)]
pub extern "C" fn jatshegi_stop_free(alloc: Kept, stop: &mut Stop)
    ensures { stop.new.held ≡ None }
{
    drop(take_stop(stop, alloc));
}
