//! Sessions over bytes, whose clocks read what the test says.
use byte_streams::{FromBytes, ToBytes, WriteFailure};
use chess_cli::{Clock, Ended, uci};
use std::alloc::Allocator;
use std::process::Abort;
use std::test::Fail;

/// A clock that reads `step` milliseconds more at each call.
#[derive(Clone, Copy, Drop)]
pub struct Ticking {
    reading: u64,
    step: u64,
}

impl Clock for Ticking {
    ghost use Rattle.std.specs.Prelude.{◌≡◌, ◌+◌, ◌%◌, ◌^◌};

    ghost reads = { λ c moment d. (moment ≡ c.reading) × (d.reading ≡ (c.reading + c.step) % (2 ^ 64)) × (d.step ≡ c.step) };

    fn now_ms(&mut self) -> u64 {
        let reading = self.reading;
        self.reading = reading.wrapping_add(self.step);
        reading
    }
}

pub const STOPPED: Ticking = Ticking {
    reading: 0,
    step: 0,
};

/// A session replies to the input, read and written in pieces, with the output.
fn assert_replies<A: Allocator>(
    rt: &impl Abort,
    alloc: &A,
    clock: Ticking,
    input: &[u8],
    output: &[u8],
) {
    for piece in 1..9usize {
        let mut reader = FromBytes::new(input, piece);
        let mut room = [0; 2000];
        let mut writer = ToBytes::new(&mut room, piece);
        let mut ticking = clock;
        assert_eq!(rt;
            uci(alloc, &mut reader, &mut writer, &mut ticking),
            Ended::Good
        );
        assert_eq!(rt; writer.taken(), output, "in pieces of {piece}");
    }
}

/// The budget ends a search between two roots: the first root is named where no depth is complete.
#[test]
fn searches_up_to_the_budget(rt: HostRuntime) {
    let clock = Ticking {
        reading: 1000,
        step: 50,
    };
    assert_replies(
        &rt,
        &rt.alloc(),
        clock,
        b"go movetime 100\n",
        b"bestmove b1a3\n",
    );
    let wide = Ticking {
        reading: u64::MAX,
        step: 0,
    };
    assert_replies(
        &rt,
        &rt.alloc(),
        wide,
        b"isready\ngo depth 1 movetime 1\n",
        b"readyok\ninfo depth 1 score cp 18 pv b1c3\nbestmove b1c3\n",
    );
}

/// An infinite search waits for `stop`, and is not disturbed by other lines.
#[test]
fn waits_for_stop(rt: HostRuntime) {
    assert_replies(
        &rt,
        &rt.alloc(),
        STOPPED,
        b"go infinite depth 1\nisready\ngo depth 1\nposition startpos\nstop\nstop\n",
        b"info depth 1 score cp 18 pv b1c3\nreadyok\ninfo string busy\ninfo string busy\nbestmove b1c3\n",
    );
    assert_replies(
        &rt,
        &rt.alloc(),
        STOPPED,
        b"position fen rnb1kbnr/pppp1ppp/8/4p3/6Pq/5P2/PPPPP2P/RNBQKBNR w KQkq - 1 3\ngo depth 3\ngo infinite\nstop\n",
        b"bestmove 0000\nbestmove 0000\n",
    );
}

const INPUT: &[u8] = b"go depth 1 movetime 100\nquit\nisready\n";

const OUTPUT: &[u8] = b"info depth 1 score cp 18 pv b1c3\nbestmove b1c3\n";

/// After `quit` nothing is read: a reader that would fail there isn't asked.
#[test]
fn stops_at_a_failing_read(rt: HostRuntime) -> Result<(), Fail> {
    for calls in 0..40u64 {
        let mut reader = FromBytes::failing_after(INPUT, 1, calls);
        let mut room = [0; 100];
        let mut clock = STOPPED;
        let mut writer = ToBytes::new(&mut room, 100);
        let ended = uci(rt.alloc(), &mut reader, &mut writer, &mut clock);
        let taken = if calls < 24 { 0 } else { OUTPUT.len() };
        assert_eq!(rt; writer.taken(), &OUTPUT[..taken], "after {calls} reads");
        let want = if calls < 29 {
            Ended::ReadFault
        } else {
            Ended::Good
        };
        assert_eq!(rt; ended, want, "after {calls} reads");
    }
    let mut reader = FromBytes::failing_after(INPUT, 65_536, 1);
    let mut room = [0; 100];
    let mut clock = STOPPED;
    let mut writer = ToBytes::new(&mut room, 100);
    assert_eq!(rt;
        uci(rt.alloc(), &mut reader, &mut writer, &mut clock),
        Ended::Good
    );
    assert_eq!(rt; writer.taken(), OUTPUT);
    Ok(())
}

/// A prefix of the replies is written.
#[test]
fn stops_at_a_failing_write(rt: HostRuntime) -> Result<(), Fail> {
    for refusal in [WriteFailure::Fails, WriteFailure::TakesNothing] {
        for calls in 0..OUTPUT.len() {
            let mut reader = FromBytes::new(INPUT, 100);
            let mut room = [0; 100];
            let mut clock = STOPPED;
            let mut writer = ToBytes::refusing_after(&mut room, 1, calls as u64, refusal);
            assert_eq!(rt;
                uci(rt.alloc(), &mut reader, &mut writer, &mut clock),
                Ended::WriteFault
            );
            assert_eq!(rt; writer.taken(), &OUTPUT[..calls], "after {calls} writes");
        }
    }
    Ok(())
}

/// How often the clock is read before the first write, which fails.
fn readings_before_a_write<A: Allocator>(rt: &impl Abort, alloc: A, input: &[u8]) -> u64 {
    let mut clock = Ticking {
        reading: 0,
        step: 1,
    };
    let mut reader = FromBytes::new(input, 100);
    let mut room = [0; 100];
    let mut writer = ToBytes::refusing_after(&mut room, 100, 0, WriteFailure::Fails);
    let ended = uci(alloc, &mut reader, &mut writer, &mut clock);
    assert!(rt; ended == Ended::WriteFault);
    clock.reading
}

/// What was replied is written before the next slice: `readyok` before the first, and the report of depth 1 before the 21st.
#[test]
fn writes_before_it_searches_on(rt: HostRuntime) {
    let readings = readings_before_a_write(&rt, rt.alloc(), b"go depth 3\n");
    assert!(rt; readings == 21);
    let readings = readings_before_a_write(&rt, rt.alloc(), b"isready\ngo depth 3\n");
    assert!(rt; readings == 2);
}
