//! A session of UCI that asks a clock for the time at each line, and searches root by root between lines.

ghost use Rattle.std.specs.Prelude.{◌≡◌, ◌+◌, ◌≤◌, ◌++◌, ℕ, length};
ghost use Rattle.chess_uci.specs.declared.reply.Reply.{Reply};
ghost use Rattle.chess_uci.specs.Machine.{IsAhead};
ghost use Rattle.chess_cli.specs.TimedSessions.{Answered, AnsweredInPart, beginning_with, is_fed, reply_lines};
ghost use Rattle.chess_cli.specs.steps.Driving.{Happened};

use super::clock::Clock;
use arrayvec::ArrayVec;
use byte_streams::{Failed, Sink};
use chess_key::KeyTable;
use chess_loop::{LineHandler, OutputBuffer, Unread};
use chess_uci::{Event, Reply, Session};
use std::alloc::Allocator;

/// A session of the universal chess interface (UCI) with the clock that it asks for the time.
#[derive(Drop)]
pub struct TimedSession<'k, S: Allocator, C> {
    pub session: Session<'k, S>,
    pub clock: C,
}

// Each reply on a line of its own.
fn put_replies<A: Allocator>(page: &mut OutputBuffer<A>, replies: &ArrayVec<Reply, 4>)
    requires room { length page.old + 260 ≤ 65536 }
    ensures text { page.new ≡ page.old ++ reply_lines replies.now.items }
    ensures len { length page.new ≤ length page.old + 260 }
{
    for reply in replies.as_slice() {
        page.put_line(reply.write().as_str());
    }
}

impl<'k, S: Allocator, C: Clock> TimedSession<'k, S, C> {
    /// A session that begins, with a clock. No reply depends on the table of keys. Takes no memory.
    pub fn new(alloc: &'k S, table: &'k KeyTable, clock: C) -> TimedSession<'k, S, C>
        ensures { result ≡ beginning_with clock }
    {
        TimedSession {
            session: Session::new(alloc, table),
            clock,
        }
    }

    // Whether the search that runs is to be fed.
    fn is_fed(&self) -> bool
        ensures value { result ≡ is_fed self.now.session }
        ensures ahead { IsAhead self.now.session.search }
    {
        let waiting = self.session.waiting();
        !self.session.ended()
            && self.session.searching()
            && !(self.session.infinite() && (waiting || self.session.depth_done() >= 5))
    }

    // An event, and what it is replied.
    fn happen<A: Allocator>(&mut self, event: Event, page: &mut OutputBuffer<A>)
        requires room { length page.old + 260 ≤ 65536 }
        ensures happened { Happened self.old.session event.entry self.new.session page.old page.new }
        ensures clock { self.new.clock ≡ self.old.clock }
        ensures len { length page.new ≤ length page.old + 260 }
    {
        let replies = self.session.event(event);
        put_replies(page, &replies);
    }

    // The moment.
    fn look_at_the_clock<A: Allocator>(&mut self, page: &mut OutputBuffer<A>)
        requires room { length page.old + 260 ≤ 65536 }
        ensures happened { (moment : ℕ) × C.reads self.old.clock moment self.new.clock × Happened self.old.session (Event.Moment moment) self.new.session page.old page.new }
        ensures len { length page.new ≤ length page.old + 260 }
    {
        let moment = self.clock.now_ms();
        self.happen(Event::Moment(moment), page);
    }
}

impl<'k, S: Allocator, C: Clock> LineHandler for TimedSession<'k, S, C> {
    ghost step = { Answered C.reads };

    ghost cut = { AnsweredInPart C.reads };

    ghost over = { λ timed_session. timed_session.session.ended };

    // A moment, the line itself, and slices and moments while a search is to be fed. What is replied is written before the next slice.
    fn answer<A: Allocator, W: Sink>(
        &mut self,
        line: &[u8],
        page: &mut OutputBuffer<A>,
        writer: &mut W,
    ) -> Result<(), Failed> {
        self.look_at_the_clock(page);
        self.happen(Event::Line(line), page);
        while self.is_fed() {
            if let Err(failed) = page.flush(writer) {
                return Err(failed);
            }
            self.happen(Event::Slice, page);
            self.look_at_the_clock(page);
        }
        Ok(())
    }

    fn refuse<A: Allocator>(&self, line: Unread, page: &mut OutputBuffer<A>) {
        match line {
            Unread::TooLong => page.put_line("info string line too long"),
            Unread::NoMemory => page.put_line("info string out of memory"),
        }
    }

    fn is_over(&self) -> bool {
        self.session.ended()
    }
}
