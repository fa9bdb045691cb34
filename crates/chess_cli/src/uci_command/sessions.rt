//! The command `uci` over a reader, a writer and a clock, until `quit` or the end of the input.

ghost use Rattle.std.specs.Prelude.{◌≡◌, false};
ghost use Rattle.chess_cli.specs.Endings.{TimedSessionEnds};
ghost use Rattle.chess_cli.specs.TimedSessions.{beginning_with};
ghost use Rattle.chess_cli.specs.declared.uci_command.timed_session.TimedSession as timed;
ghost use Rattle.chess_cli.specs.steps.Driving.{with_clock};

use super::clock::Clock;
use super::timed_session::TimedSession;
use crate::board_command::READS;
use crate::ended::Ended;
use byte_streams::{Sink, Source};
use chess_key::KeyTable;
use chess_loop::run;
use std::alloc::Allocator;

// A clock that is lent, so that what is left of it is its owner's again.
struct Lent<'c, C> {
    clock: &'c mut C,
}

impl<'c, C: Clock> Clock for Lent<'c, C> {
    ghost use Rattle.std.specs.Prelude.{◌≡◌};

    ghost reads = { λ s moment t. (t.clock.ghost_name ≡ s.clock.ghost_name) × C.reads s.clock.now moment t.clock.now };

    fn now_ms(&mut self) -> u64 {
        self.clock.now_ms()
    }
}

// `uci_with` a session whose clock is lent.
fn keep_lent<A: Allocator, R: Source, W: Sink, C: Clock>(
    alloc: &A,
    reader: &mut R,
    writer: &mut W,
    session: &mut TimedSession<'_, A, Lent<'_, C>>,
) -> Ended
    requires begins { session.old.session.ended ≡ false }
    requires reader { R.failed reader.old ≡ false }
    requires writer { W.failed writer.old ≡ false }
    ensures same { session.new.clock.clock.ghost_name ≡ session.old.clock.clock.ghost_name }
    ensures ends { TimedSessionEnds R.Source W.Sink C.reads (with_clock session.old.clock.clock.now session.old) (with_clock session.new.clock.clock.now session.new) result reader.old reader.new writer.old writer.new }
{
    uci_with(alloc, reader, writer, session)
}

/// Answers the lines of the reader, those of one read before more is read, as a session of the universal chess interface (UCI) whose
/// time that the clock gives, on the writer, until `quit` or the end of the input. `uci_with` is the same with a session that the caller keeps.
///
/// Each line is an event after a moment by the clock. While a search is to be fed, it is given time root by root, and what it reports is
/// written before it is given more: a search with a last depth or a budget runs to its end before the next line is read, an infinite one
/// until depth 5 is complete.
///
/// `Good`: the whole input was read, or `quit` came, and the writer took the replies; nothing is read after the piece that has `quit`.
/// `ReadFault`: a read failed, or there were 2^40 reads of some bytes each, and the writer took the replies to the lines that had ended.
/// `WriteFault`: a write failed or took no byte, and the writer took a prefix of the replies. `Memory`: there was no memory to begin with,
/// and nothing was read or written. After a call that fails none is made. The clock is left as the last reading left it: so where a write
/// failed, it is known that no slice was searched and no clock read after it.
pub fn uci<A: Allocator, R: Source, W: Sink, C: Clock>(
    alloc: A,
    reader: &mut R,
    writer: &mut W,
    clock: &mut C,
) -> Ended
    requires reader { R.failed reader.old ≡ false }
    requires writer { W.failed writer.old ≡ false }
    ensures { (last : timed.TimedSession A C) × (last.clock ≡ clock.new) × TimedSessionEnds R.Source W.Sink C.reads (beginning_with clock.old) last result reader.old reader.new writer.old writer.new }
{
    let table = KeyTable::fixed();
    let mut session = TimedSession::new(&alloc, &table, Lent { clock });
    let ended = keep_lent(&alloc, reader, writer, &mut session);
    let TimedSession {
        session: _ended,
        clock: Lent { clock: _left },
    } = session;
    ended
}

/// `uci` with a session that begins and that the caller keeps. What is left of it is as its last event left it, its clock as the last reading
/// did: so where a write failed, it is known that no slice was searched and no clock read after it.
pub fn uci_with<A: Allocator, R: Source, W: Sink, C: Clock>(
    alloc: &A,
    reader: &mut R,
    writer: &mut W,
    session: &mut TimedSession<'_, A, C>,
) -> Ended
    requires begins { session.old.session.ended ≡ false }
    requires reader { R.failed reader.old ≡ false }
    requires writer { W.failed writer.old ≡ false }
    ensures { TimedSessionEnds R.Source W.Sink C.reads session.old session.new result reader.old reader.new writer.old writer.new }
{
    Ended::from(run(alloc, session, reader, writer, READS))
}
