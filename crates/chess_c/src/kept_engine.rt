//! A board's session of the engine, which takes memory once an event comes.
ghost use Rattle.std.specs.Prelude.{◌≡◌, is_some, MatchOption};
ghost use Rattle.chess_bindings.specs.Within.{says_within};
ghost use Rattle.chess_uci.specs.Machine.{beginning, is_infinite, is_waiting, time_left};
ghost use Rattle.chess_c.specs.Calls.{IsLeft};
ghost use Rattle.chess_c.specs.Engines.{IsRepliedFrom, IsRepliedWithinFrom};

use chess_bindings::{MEMORY, NONE, OK, Within, reply, reply_within};
use chess_key::KeyTable;
use chess_memory::{Handle, Heap, handle_to};
use chess_uci::{Event, Session};
use std::marker::Model;

/// A session of the engine. Before its first event it takes no memory.
#[derive(Drop)]
pub struct Engine {
    // Nothing before the first event.
    kept: Option<Box<Session<'static, Heap>, Handle>>,
}

impl Model for Engine {
    ghost use Rattle.std.specs.Prelude.{option_map, unwrap_or};
    ghost use Rattle.chess_uci.specs.Machine.{State, beginning};
    ghost use Rattle.chess_uci.specs.steps.StateCode.{coded_session};

    ghost Value = { State };

    ghost coded = { coded_session };

    ghost view = { λ e. unwrap_or (option_map (λ kept. kept.value) e.kept) beginning };
}

impl Engine {
    /// A session that begins.
    pub fn new() -> Engine
        ensures { result ≡ beginning }
    {
        Engine { kept: None }
    }

    // The session itself, taken out; where there is none yet, one that begins. `None` where there is no memory for that.
    fn take(
        &mut self,
        alloc: &'static Heap,
        table: &'static KeyTable,
    ) -> Option<Box<Session<'static, Heap>, Handle>>
        ensures { MatchOption result ((self.old ≡ beginning) × (self.new ≡ self.old)) (λ kept. kept.value ≡ self.old) }
    {
        if let Some(kept) = self.kept.take() {
            return Some(kept);
        }
        match Box::new(handle_to(alloc), Session::new(alloc, table)) {
            Ok(made) => Some(made),
            Err(_) => None,
        }
    }

    /// What the event is replied, each reply on a line of its own; `MEMORY` where it is the first one, and there is no memory for the session.
    pub fn event(
        &mut self,
        alloc: &'static Heap,
        table: &'static KeyTable,
        event: Event<'_>,
        room: &mut [u8],
        count: &mut usize,
    ) -> u32
        ensures { IsRepliedFrom event.entry self.old self.new result count.old count.new room.old room.new }
    {
        let Some(mut session) = self.take(alloc, table) else {
            return MEMORY;
        };
        let code = reply(&mut session, event, room, count);
        self.kept = Some(session);
        code
    }

    /// What a slice that may be abandoned is replied, each reply on a line of its own; `MEMORY` as at `event`.
    pub fn slice(
        &mut self,
        alloc: &'static Heap,
        table: &'static KeyTable,
        mut watch: Within<'_>,
        visited: &mut u64,
        searched: &mut bool,
        room: &mut [u8],
        count: &mut usize,
    ) -> u32
        ensures { IsRepliedWithinFrom (says_within watch.entry.nodes (is_some watch.entry.flag)) self.old self.new visited.old visited.new searched.old searched.new result count.old count.new room.old room.new }
    {
        let Some(mut session) = self.take(alloc, table) else {
            return MEMORY;
        };
        let code = reply_within(&mut session, &mut watch, visited, searched, room, count);
        self.kept = Some(session);
        code
    }

    /// Whether it searches.
    pub fn searching(&self) -> bool
        ensures { result ≡ is_some self.now.search }
    {
        match &self.kept {
            Some(session) => session.searching(),
            None => false,
        }
    }

    /// Whether it has an infinite search, one that ends by `stop` alone.
    pub fn infinite(&self) -> bool
        ensures { result ≡ is_infinite self.now.search }
    {
        match &self.kept {
            Some(session) => session.infinite(),
            None => false,
        }
    }

    /// Whether it has an infinite search that has done all that it has to do.
    pub fn waiting(&self) -> bool
        ensures { result ≡ is_waiting self.now.search }
    {
        match &self.kept {
            Some(session) => session.waiting(),
            None => false,
        }
    }

    /// Whether `quit` came.
    pub fn ended(&self) -> bool
        ensures { result ≡ self.now.ended }
    {
        match &self.kept {
            Some(session) => session.ended(),
            None => false,
        }
    }

    /// The milliseconds after which the clock ends its search; `NONE` where it ends none.
    pub fn time_left(&self, left: &mut u64) -> u32
        ensures { IsLeft (time_left self.now) result left.old left.new }
    {
        let Some(session) = &self.kept else {
            return NONE;
        };
        match session.time_left() {
            Some(time) => {
                *left = time;
                OK
            }
            None => NONE,
        }
    }
}
