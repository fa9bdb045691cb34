//! Runs of the board: input and output in pieces of any size, what is refused, and how a run ends.
use byte_streams::{Failed, FromBytes, Source, ToBytes, WriteFailure};
use chess_cli::{Ended, Kept, board, board_over_bytes, counts_text, eval_text};
use chess_types::{Colour, Square};
use linked_list_allocator::LocalHeap;
use std::test::Fail;

/// Lines of every kind: commands, blank lines, wrong words, both line ends, and a last line without a line feed.
const INPUT: &[u8] =
    b"counts w\ncounts b\n\n \t \nset 4k3/8/8/8/8/8/8/4K2R w KQkq - 0 1\r\n  counts\tw  \ncounts\ncounts x\n\
    counts w w\nmoves x\ngo\nnew x\nnew\r\r\nset\nset 4k3/8/8/8/8/8/4P3/4K3 w - - 0 1\neval\neval x\n\
    set 4k3/4p3/8/8/8/8/8/4K3 w - - 0 1\neval\nnew\neval\ncounts b";

const OUTPUT: &[u8] = b"\
0 1 1 1 1 1 1 0 / 1 1 1 4 4 1 1 1 / 2 2 3 2 2 3 2 2 / 0 0 0 0 0 0 0 0 / 0 0 0 0 0 0 0 0 / 0 0 0 0 0 0 0 0 / 0 0 0 0 0 0 0 0 / 0 0 0 0 0 0 0 0
0 0 0 0 0 0 0 0 / 0 0 0 0 0 0 0 0 / 0 0 0 0 0 0 0 0 / 0 0 0 0 0 0 0 0 / 0 0 0 0 0 0 0 0 / 2 2 3 2 2 3 2 2 / 1 1 1 4 4 1 1 1 / 0 1 1 1 1 1 1 0
ok
0 0 0 1 1 2 1 0 / 0 0 0 1 1 1 0 1 / 0 0 0 0 0 0 0 1 / 0 0 0 0 0 0 0 1 / 0 0 0 0 0 0 0 1 / 0 0 0 0 0 0 0 1 / 0 0 0 0 0 0 0 1 / 0 0 0 0 0 0 0 1
refused 7 Argument
refused 7 Argument
refused 7 Argument
refused 7 Argument
refused 6 Command
refused 7 Argument
refused 6 Command
refused 1 Fields
ok
110
refused 7 Argument
ok
-110
ok
0
0 0 0 0 0 0 0 0 / 0 0 0 0 0 0 0 0 / 0 0 0 0 0 0 0 0 / 0 0 0 0 0 0 0 0 / 0 0 0 0 0 0 0 0 / 2 2 3 2 2 3 2 2 / 1 1 1 4 4 1 1 1 / 0 1 1 1 1 1 1 0
";

/// How many bytes of the output the first two lines of it take, and the first line.
const TWO_LINES: usize = 284;

const ONE_LINE: usize = 142;

#[test]
fn answers_in_pieces_of_any_size(rt: HostRuntime) -> Result<(), Fail> {
    for piece in 1..=INPUT.len() {
        let mut reader = FromBytes::new(INPUT, piece);
        let mut room = [0; 1200];
        let mut writer = ToBytes::new(&mut room, piece);
        assert_eq!(rt; board(rt.alloc(), &mut reader, &mut writer), Ended::Good);
        assert_eq!(rt; writer.taken(), OUTPUT, "in pieces of {piece}");
    }
    Ok(())
}

#[test]
fn answers_over_bytes(rt: HostRuntime) -> Result<(), Fail> {
    let mut reader = FromBytes::new(b"counts w", 100);
    let mut room = [0; 200];
    let mut writer = ToBytes::new(&mut room, 100);
    assert_eq!(rt;
        board_over_bytes(rt.alloc(), &mut reader, &mut writer),
        Ended::Good
    );
    assert_eq!(rt; writer.taken(), &OUTPUT[..ONE_LINE]);
    Ok(())
}

/// The lines that had ended are answered, and what had begun is not.
#[test]
fn stops_at_a_failing_read(rt: HostRuntime) -> Result<(), Fail> {
    let input = b"counts w\ncounts b\ncounts w";
    for (calls, taken) in [
        (0, 0),
        (8, 0),
        (9, ONE_LINE),
        (18, TWO_LINES),
        (25, TWO_LINES),
        (26, TWO_LINES),
    ] {
        let mut reader = FromBytes::failing_after(input, 1, calls);
        let mut room = [0; 600];
        let mut writer = ToBytes::new(&mut room, 7);
        assert_eq!(rt;
            board(rt.alloc(), &mut reader, &mut writer),
            Ended::ReadFault
        );
        assert_eq!(rt; writer.taken(), &OUTPUT[..taken], "after {calls} reads");
    }
    Ok(())
}

/// A prefix of the answers is written.
#[test]
fn stops_at_a_failing_write(rt: HostRuntime) -> Result<(), Fail> {
    for refusal in [WriteFailure::Fails, WriteFailure::TakesNothing] {
        for calls in 0..100 {
            let mut reader = FromBytes::new(INPUT, 100);
            let mut room = [0; 600];
            let mut writer = ToBytes::refusing_after(&mut room, 3, calls as u64, refusal);
            assert_eq!(rt;
                board(rt.alloc(), &mut reader, &mut writer),
                Ended::WriteFault
            );
            // The answers to the lines of the first read take more than 100 calls.
            assert_eq!(rt;
                writer.taken(),
                &OUTPUT[..calls * 3],
                "after {calls} writes"
            );
        }
    }
    Ok(())
}

#[test]
fn stops_where_the_room_ends(rt: HostRuntime) -> Result<(), Fail> {
    let mut reader = FromBytes::new(INPUT, 100);
    let mut room = [0; 5];
    let mut writer = ToBytes::new(&mut room, 100);
    assert_eq!(rt;
        board(rt.alloc(), &mut reader, &mut writer),
        Ended::WriteFault
    );
    assert_eq!(rt; writer.taken(), &OUTPUT[..5]);
    Ok(())
}

/// Gives one letter `left` times, and then a line feed and a line of its own, a thousand bytes at a call.
#[derive(Drop)]
struct Letters {
    left: usize,
    has_ended: bool,
}

impl Source for Letters {
    ghost use Rattle.std.specs.Prelude.{false, ◌≡◌, true};

    ghost gives = { λ s bytes t. Unit {0} };

    ghost ended = { λ s. s.has_ended ≡ true };

    ghost failed = { λ s. false };

    fn read(&mut self, buf: &mut [u8]) -> Result<usize, Failed> {
        const TAIL: &[u8] = b"\ncounts w";
        if self.left > 0 {
            let count = self.left.min(1000).min(buf.len());
            for byte in &mut buf[..count] {
                *byte = b'a';
            }
            self.left -= count;
            return Ok(count);
        }
        if self.has_ended || buf.len() < TAIL.len() {
            self.has_ended = true;
            return Ok(0);
        }
        buf[..TAIL.len()].copy_from_slice(TAIL);
        self.has_ended = true;
        Ok(TAIL.len())
    }
}

/// A line of 1,048,576 bytes is read, a longer one is skipped, and the next line is answered.
#[test]
fn skips_a_long_line(rt: HostRuntime) -> Result<(), Fail> {
    let lines: [(usize, &[u8]); 3] = [
        (1_048_576, b"refused 6 Command\n"),
        (1_048_577, b"refused 8 LongLine\n"),
        (3_000_000, b"refused 8 LongLine\n"),
    ];
    for (letters, answer) in lines {
        let mut reader = Letters {
            left: letters,
            has_ended: false,
        };
        let mut room = [0; 200];
        let mut writer = ToBytes::new(&mut room, 200);
        assert_eq!(rt; board(rt.alloc(), &mut reader, &mut writer), Ended::Good);
        assert!(rt; writer.taken().len() == answer.len() + ONE_LINE);
        let (said, counts) = writer.taken().split_at(answer.len());
        assert_eq!(rt; said, answer);
        assert_eq!(rt; counts, &OUTPUT[..ONE_LINE]);
    }
    Ok(())
}

/// A line that finds no memory is skipped and refused, and the next one is answered.
#[test]
fn refuses_a_line_without_memory(rt: HostRuntime) -> Result<(), Fail> {
    let heap = LocalHeap::new(rt.alloc(), 300_000)?;
    let mut reader = Letters {
        left: 100_000,
        has_ended: false,
    };
    let mut room = [0; 200];
    let mut writer = ToBytes::new(&mut room, 200);
    assert_eq!(rt; board(&heap, &mut reader, &mut writer), Ended::Good);
    assert!(rt; writer.taken().len() == 17 + ONE_LINE);
    let (said, counts) = writer.taken().split_at(17);
    assert_eq!(rt; said, b"refused 5 Memory\n".as_slice());
    assert_eq!(rt; counts, &OUTPUT[..ONE_LINE]);
    Ok(())
}

/// Without memory to begin with nothing is read or written.
#[test]
fn ends_without_memory(rt: HostRuntime) -> Result<(), Fail> {
    let heap = LocalHeap::new(rt.alloc(), 190_000)?;
    let mut reader = FromBytes::new(INPUT, 100);
    let mut room = [0; 200];
    let mut writer = ToBytes::new(&mut room, 200);
    assert_eq!(rt; board(&heap, &mut reader, &mut writer), Ended::Memory);
    assert_eq!(rt; writer.taken().len(), 0);
    Ok(())
}

#[test]
fn reports_how_it_ended(rt: HostRuntime) {
    for (ended, status, message) in [
        (Ended::Good, 0, ""),
        (Ended::ReadFault, 3, "read fault"),
        (Ended::WriteFault, 3, "write fault"),
        (Ended::Memory, 3, "out of memory"),
    ] {
        assert_eq!(rt; ended.status(), status);
        assert!(rt; ended.message().as_str() == message);
    }
}

/// Keeps other numbers than those of any position.
struct Nines;

impl Kept for Nines {
    ghost use Rattle.std.specs.Prelude.{neg_ℤ, pos};

    ghost counts = { λ _ _ _. 9 };

    ghost evaluation = { λ _. neg_ℤ (pos 7) };

    fn count(&self, _colour: Colour, _square: Square) -> u8 {
        9
    }

    fn white(&self) -> i32 {
        -7
    }
}

#[test]
fn texts_of_any_numbers(rt: HostRuntime) {
    assert!(rt; eval_text(&Nines).as_str() == "-7");
    let text = counts_text(&Nines, Colour::White);
    let rank = "9 9 9 9 9 9 9 9";
    assert_eq!(rt; text.as_str().split(" / ").count(), 8);
    for part in text.as_str().split(" / ") {
        assert!(rt; part == rank);
    }
}
