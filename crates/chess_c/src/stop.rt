//! Where C keeps a handle of a flag: a pointer, or nothing.
ghost use Rattle.std.specs.Prelude.{◌≡◌, Option, Some, None, is_some, MatchOption};
ghost use Rattle.chess_bindings.specs.Slots.{slot_owns};
ghost use Rattle.chess_memory.specs.Kept.{may_free};
ghost use Rattle.chess_c.specs.contracts.flag.Flag.{the_row};
ghost use Rattle.std.specs.Coded.{coded_option};
ghost use base.Stored.{coded_unit};

use crate::flag::Flag;
use chess_bindings::Loose;
use chess_memory::Kept;
use std::marker::Model;
use std::mem::replace;
use std::ptr::null_mut;

/// A handle that C owns, or nothing. C fills it with zeros at first, and after that only the exported functions write to it.
#[repr(C)]
pub struct Stop {
    full: bool,
    at: *mut u8,
    pub ghost held: { Option (Unit {0}) } by { coded_option coded_unit },
    ghost told: { full ≡ is_some held },
}

impl Model for Stop {
    ghost also_owns = { λ s. slot_owns may_free the_row s.held s.at };
}

unsafe impl Send for Stop {}

impl Stop {
    fn empty() -> Stop
        ensures { result.held ≡ None }
    {
        Stop {
            full: false,
            at: null_mut(),
        }
    }

    fn of(value: Box<Flag, Kept>) -> Stop
        ensures { result.held ≡ Some value.value }
    {
        Stop::filled(Loose::of(value))
    }

    fn into_box(self, alloc: Kept) -> Option<Box<Flag, Kept>>
        ensures { MatchOption result (self.held ≡ None) (λ b. self.held ≡ Some b.value) }
    {
        match self.loose(alloc) {
            Some(loose) => Some(loose.into_box()),
            None => None,
        }
    }

    fn filled(loose: Loose<Flag, Kept>) -> Stop
        ensures { result.held ≡ Some loose.value }
    {
        let Loose { at, alloc: _ } = loose;
        Stop {
            full: true,
            at: at as *mut u8,
        }
    }

    fn loose(self, alloc: Kept) -> Option<Loose<Flag, Kept>>
        ensures { MatchOption result (self.held ≡ None) (λ l. self.held ≡ Some l.value) }
    {
        let Stop { full, at } = self;
        if full {
            Some(Loose {
                at: at as *mut Flag,
                alloc,
            })
        } else {
            None
        }
    }
}

/// The handle; there is none then.
pub fn take_stop(stop: &mut Stop, alloc: Kept) -> Option<Box<Flag, Kept>>
    ensures held { is_some result ≡ is_some stop.old.held }
    ensures value { MatchOption result (stop.old.held ≡ None) (λ b. stop.old.held ≡ Some b.value) }
    ensures left { stop.new.held ≡ None }
{
    replace(stop, Stop::empty()).into_box(alloc)
}

/// Puts a handle there; what was there is freed.
pub fn put_stop(stop: &mut Stop, flag: Option<Box<Flag, Kept>>, alloc: Kept)
    ensures { is_some stop.new.held ≡ is_some flag }
{
    let made = match flag {
        Some(kept) => Stop::of(kept),
        None => Stop::empty(),
    };
    drop(replace(stop, made).into_box(alloc));
}
