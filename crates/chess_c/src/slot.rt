//! Where C keeps a session: a pointer, or nothing.
ghost use Rattle.std.specs.Prelude.{◌≡◌, ◌⊎◌, Option, Some, None, is_some, MatchOption};
ghost use Rattle.chess_bindings.specs.Slots.{slot_owns};
ghost use Rattle.chess_memory.specs.Kept.{may_free};
ghost use Rattle.chess_c.specs.contracts.session.Session.{the_row};
ghost use Rattle.std.specs.Coded.{coded_option};
ghost use Rattle.chess_c.specs.Held.{Held, coded_held};

use crate::session::Session;
use chess_bindings::{Loose, MEMORY, OK};
use chess_memory::{Handle, Kept, keep, kept_by};
use std::marker::Model;
use std::mem::replace;
use std::ptr::null_mut;

/// A session that C owns, or nothing. C fills a slot with zeros at first, and after that only the exported functions write to it.
#[repr(C)]
pub struct Slot {
    full: bool,
    at: *mut u8,
    pub ghost held: { Option Held } by { coded_option coded_held },
    ghost told: { full ≡ is_some held },
}

impl Model for Slot {
    ghost also_owns = { λ s. slot_owns may_free the_row s.held s.at };
}

unsafe impl Send for Slot {}

impl Slot {
    fn empty() -> Slot
        ensures { result.held ≡ None }
    {
        Slot {
            full: false,
            at: null_mut(),
        }
    }

    fn of(value: Box<Session, Kept>) -> Slot
        ensures { result.held ≡ Some value.value }
    {
        Slot::filled(Loose::of(value))
    }

    fn into_box(self, alloc: Kept) -> Option<Box<Session, Kept>>
        ensures { MatchOption result (self.held ≡ None) (λ b. self.held ≡ Some b.value) }
    {
        match self.loose(alloc) {
            Some(loose) => Some(loose.into_box()),
            None => None,
        }
    }

    fn filled(loose: Loose<Session, Kept>) -> Slot
        ensures { result.held ≡ Some loose.value }
    {
        let Loose { at, alloc: _ } = loose;
        Slot {
            full: true,
            at: at as *mut u8,
        }
    }

    fn loose(self, alloc: Kept) -> Option<Loose<Session, Kept>>
        ensures { MatchOption result (self.held ≡ None) (λ l. self.held ≡ Some l.value) }
    {
        let Slot { full, at } = self;
        if full {
            Some(Loose {
                at: at as *mut Session,
                alloc,
            })
        } else {
            None
        }
    }
}

/// What the slot holds; it is then empty.
pub fn take(slot: &mut Slot, alloc: Kept) -> Option<Box<Session, Kept>>
    ensures held { MatchOption result (slot.old.held ≡ None) (λ b. slot.old.held ≡ Some b.value) }
    ensures left { slot.new.held ≡ None }
{
    replace(slot, Slot::empty()).into_box(alloc)
}

/// Puts a session into the slot; what was there is freed.
pub fn put(slot: &mut Slot, session: Box<Session, Kept>, alloc: Kept)
    ensures { slot.new.held ≡ Some session.value }
{
    drop(replace(slot, Slot::of(session)).into_box(alloc));
}

/// Puts a session into the slot: in the place of what was there, or in a block of its own. Where there is no memory for that, 2, and the slot is as it was.
pub fn settle(slot: &mut Slot, session: Session, handle: Handle) -> u32
    ensures { ((result ≡ 0) × (slot.new.held ≡ Some session)) ⊎ ((result ≡ 2) × (slot.new.held ≡ slot.old.held)) }
{
    let alloc = kept_by(handle);
    if let Some(mut there) = take(slot, alloc) {
        *there = session;
        put(slot, there, alloc);
        return OK;
    }
    let Some(made) = keep(handle, session) else {
        return MEMORY;
    };
    put(slot, made, alloc);
    OK
}
