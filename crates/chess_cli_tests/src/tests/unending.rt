//! Input in the greatest numbers, of all bytes, and without end.
use byte_streams::{Failed, FromBytes, Sink, Source, ToBytes};
use chess_cli::{Ended, board, board_within, pgn, uci};
use chess_key::KeyTable;
use chess_pgn::{FaultKind, PgnFault};
use linked_list_allocator::LocalHeap;
use std::alloc::Allocator;
use std::process::Abort;
use std::test::Fail;

/// Gives a text again and again, `left` bytes in all, as many at a call as there is room for.
#[derive(Drop)]
struct Repeated {
    text: &'static [u8],
    next: usize,
    left: u64,
}

impl Repeated {
    fn new(text: &'static [u8], left: u64) -> Repeated {
        Repeated {
            text,
            next: 0,
            left,
        }
    }

    /// The next byte of the text.
    fn byte(&mut self) -> u8 {
        let byte = self.text.get(self.next).copied().unwrap_or(b' ');
        self.next = self.next.saturating_add(1);
        if self.next >= self.text.len() {
            self.next = 0;
        }
        byte
    }
}

impl Source for Repeated {
    ghost use Rattle.std.specs.Prelude.{false};

    ghost gives = { λ s bytes t. Unit {0} };

    ghost ended = { λ s. Unit {0} };

    ghost failed = { λ s. false };

    fn read(&mut self, buf: &mut [u8]) -> Result<usize, Failed> {
        let count = (self.left.min(65_536) as usize).min(buf.len());
        for byte in &mut buf[..count] {
            *byte = self.byte();
        }
        self.left = self.left.saturating_sub(count as u64);
        Ok(count)
    }
}

/// Counts what it takes, and drops it.
#[derive(Drop)]
struct Counted {
    bytes: u64,
    lines: u64,
}

impl Counted {
    fn new() -> Counted {
        Counted { bytes: 0, lines: 0 }
    }
}

impl Sink for Counted {
    ghost use Rattle.std.specs.Prelude.{false};

    ghost takes = { λ s bytes t. Unit {0} };

    ghost failed = { λ s. false };

    fn write(&mut self, buf: &[u8]) -> Result<usize, Failed> {
        self.bytes = self.bytes.saturating_add(buf.len() as u64);
        for byte in buf {
            if *byte == b'\n' {
                self.lines = self.lines.saturating_add(1);
            }
        }
        Ok(buf.len())
    }
}

/// `given` bytes of a text again and again are answered by `bytes` bytes in `lines` lines, and no more memory is held than at the beginning.
fn assert_counted<A: Allocator>(
    rt: &impl Abort,
    alloc: A,
    text: &'static [u8],
    given: u64,
    bytes: u64,
    lines: u64,
) {
    let mut reader = Repeated::new(text, given);
    let mut writer = Counted::new();
    assert_eq!(rt; board(alloc, &mut reader, &mut writer), Ended::Good);
    assert_eq!(rt; writer.bytes, bytes);
    assert_eq!(rt; writer.lines, lines);
}

/// Memory for a board and no line of its own.
const LITTLE: usize = 300_000;

/// A million lines; a line of ten million bytes; ten million empty lines.
#[test]
fn a_million_lines_in_little_memory(rt: HostRuntime) -> Result<(), Fail> {
    let heap = LocalHeap::new(rt.alloc(), LITTLE)?;
    assert_counted(&rt, &heap, b"eval\n", 5_000_000, 2_000_000, 1_000_000);
    assert_counted(&rt, &heap, b"a", 10_000_000, 19, 1);
    assert_counted(&rt, &heap, b"\n", 10_000_000, 0, 0);
    assert_counted(&rt, &heap, b"play e4\nback\n", 1_300_000, 600_000, 200_000);
    assert_eq!(rt; heap.used(), 0);
    Ok(())
}

/// An input without end is read as often as is allowed, and no more.
#[test]
fn stops_after_the_most_reads(rt: HostRuntime) {
    let mut reader = Repeated::new(b"\n", u64::MAX);
    let mut writer = Counted::new();
    let table = KeyTable::new([0; 768]);
    assert_eq!(rt;
        board_within(rt.alloc(), &mut reader, &mut writer, &table, 100),
        Ended::ReadFault
    );
    assert_eq!(rt; reader.left, u64::MAX - 6_553_600);
    assert_eq!(rt; writer.bytes, 0);
}

#[test]
fn a_session_of_a_million_lines(rt: HostRuntime) -> Result<(), Fail> {
    let heap = LocalHeap::new(rt.alloc(), LITTLE)?;
    let mut reader = Repeated::new(b"isready\n", 8_000_000);
    let mut clock = crate::tests::sessions::STOPPED;
    let mut writer = Counted::new();
    assert_eq!(rt;
        uci(&heap, &mut reader, &mut writer, &mut clock),
        Ended::Good
    );
    assert_eq!(rt; writer.bytes, 8_000_000);
    assert_eq!(rt; heap.used(), 0);
    Ok(())
}

/// A game that is too large, from that place on.
fn too_large(place: u64) -> Ended {
    Ended::Input(PgnFault {
        place,
        kind: FaultKind::TooLarge,
    })
}

/// Whitespace is no game, however much of it; a comment and a line of moves that don't end are too large.
#[test]
fn games_without_end(rt: HostRuntime) {
    let mut writer = Counted::new();
    let mut spaces = Repeated::new(b" \n", 20_000_000);
    assert_eq!(rt; pgn(rt.alloc(), &mut spaces, &mut writer), Ended::Good);
    let mut comment = Repeated::new(b"{a", 20_000_000);
    assert_eq!(rt;
        pgn(rt.alloc(), &mut comment, &mut writer),
        too_large(1_048_576)
    );
    let mut moves = Repeated::new(b"Nf3 Nf6 Ng1 Ng8 ", 20_000_000);
    assert_eq!(rt; pgn(rt.alloc(), &mut moves, &mut writer), too_large(80_000));
    assert_eq!(rt; writer.bytes, 0);
    let mut games = Repeated::new(b"e4 * ", 500_000);
    assert_eq!(rt; pgn(rt.alloc(), &mut games, &mut writer), Ended::Good);
    assert_eq!(rt; writer.lines, 1_000_000);
}

/// What the board answers where a byte is in a comment, in a FEN and alone in a line.
fn answers(byte: u8) -> &'static [u8] {
    match byte {
        b'\n' => b"ok\nrefused 6 Command\nrefused 1 Fields\nrefused 6 Command\n1\n",
        b'}' => b"refused 4 BadComment\nrefused 1 Fields\nrefused 6 Command\n1\n",
        b'\t' | b'\r' | b' ' => b"ok\nrefused 1 Fields\n1\n",
        _ => b"ok\nrefused 1 Fields\nrefused 6 Command\n1\n",
    }
}

#[test]
fn each_byte_in_a_line(rt: HostRuntime) {
    for byte in 0..=255u8 {
        let input = [
            b'c', b'o', b'm', b'm', b'e', b'n', b't', b' ', b'x', byte, b'y', b'\n', b's', b'e',
            b't', b' ', byte, b'z', b'\n', byte, b'\n', b'c', b'o', b'u', b'n', b't', b'\n',
        ];
        let mut room = [0; 200];
        let mut writer = ToBytes::new(&mut room, 200);
        let mut reader = FromBytes::new(&input, 100);
        assert_eq!(rt; board(rt.alloc(), &mut reader, &mut writer), Ended::Good);
        assert_eq!(rt; writer.taken(), answers(byte), "byte {byte}");
    }
}

/// How a run ends where a byte is in a tag's value and in a comment.
fn ending(byte: u8) -> Ended {
    match byte {
        b'"' | b'\n' => Ended::Input(PgnFault {
            place: 0,
            kind: FaultKind::Tag,
        }),
        b'\\' => Ended::Input(PgnFault {
            place: 15,
            kind: FaultKind::Truncated,
        }),
        b'}' => Ended::Input(PgnFault {
            place: 10,
            kind: FaultKind::Token,
        }),
        _ => Ended::Good,
    }
}

#[test]
fn each_byte_in_a_game(rt: HostRuntime) {
    for byte in 0..=255u8 {
        let input = [
            b'[', b'A', b' ', b'"', byte, b'"', b']', b'{', b'x', byte, b'~', b'}', b' ', b'e',
            b'4',
        ];
        let mut writer = Counted::new();
        let ended = pgn(rt.alloc(), &mut FromBytes::new(&input, 100), &mut writer);
        assert_eq!(rt; ended, ending(byte), "byte {byte}");
    }
}
