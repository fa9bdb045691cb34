//! Each growth of memory refused in turn.
ghost use Rattle.std.specs.Prelude.{◌≡◌, false};

use byte_streams::{Failed, FromBytes, Source, ToBytes};
use chess_cli::{Ended, board_with};
use chess_key::KeyTable;
use linked_list_allocator::LocalHeap;
use std::alloc::AllocError;
use std::process::Abort;
use std::test::Fail;

/// Counts of the start position, repetitions, a tree with variations, notes, and every command.
const LINES: &[u8] = b"\
new\nset rnbqkbnr/pppppppp/8/8/8/8/PPPPPPPP/RNBQKBNR w KQkq - 0 1\ncounts w\n\
new\nplay Nf3\nplay Nf6\nplay Ng1\nplay Ng8\nplay Nf3\nplay Nf6\nplay Ng1\nclaims\nclaim Ng8\nplay Ng8\ncount\nclaims\nplay Nf3\nplay Nf6\nplay Ng1\n\
play Ng8\nplay Nf3\nplay Nf6\nplay Ng1\nplay Ng8\ncount\nstatus\nclaims\nplay Nf3\n\
new\nplay e4\nplay e5\nback\nplay c5\npath\nfen\neval\npromote\npath\nback\nstep 1\ndelete\npath\nstep 1\npgn\nstart\nback\npath\n\
new\nplay e4\nnag 1\ncomment a  b\nplay e5\nstart\nend\npath\ngoto 0\npath\ncomment }\ngoto 0.1\npgn\n\
nag 2\nnag 3\nnag 4\nnag 5\nnag 256\ncomment a longer one that takes more room than a line of its own would\ncounts b\nmoves\nchecks\nbest 1\nplay e2e5\n\
set 4k3/8/8/8/8/8/8/4K2R w K - 0 1\nplay O-O\npgn\nset 4k3/8/8/8/8/8/8/4K3 x - - 0 1\nbad\n";

/// What is shown of the position, the path, the line and the game.
const SHOWN: &[u8] = b"fen\npath\ncount\npgn\n";

const REFUSED: &[u8] = b"refused 5 Memory\n";

/// A text on the heap that is never short of memory.
type Text<'h> = Vec<u8, &'h LocalHeap>;

/// Pieces of a heap that are taken, in a list on another.
type Taken<'h> = Vec<Vec<u8, &'h LocalHeap>, &'h LocalHeap>;

/// Takes what a heap has left but for some bytes in one piece.
fn take_all_but<'h>(
    heap: &'h LocalHeap,
    other: &'h LocalHeap,
    left: usize,
) -> Result<Taken<'h>, AllocError> {
    let kept: Vec<u8, &LocalHeap> = Vec::with_capacity(heap, left)?;
    let mut taken = Vec::new(other);
    let mut size = 65_536usize;
    for _turn in 0..64u32 {
        match Vec::with_capacity(heap, size) {
            Ok(piece) => taken.push(piece)?,
            Err(_) => size = (size / 2).max(16),
        }
    }
    drop(kept);
    Ok(taken)
}

/// Gives some lines, then one while the heap has but `left` bytes left, and then other lines.
#[derive(Drop)]
struct Starving<'h, 't> {
    heap: &'h LocalHeap,
    other: &'h LocalHeap,
    before: &'t [u8],
    line: &'t [u8],
    after: &'t [u8],
    left: usize,
    calls: u64,
    taken: Taken<'h>,
}

impl Source for Starving<'_, '_> {
    ghost use Rattle.std.specs.Prelude.{false};

    ghost gives = { λ s bytes t. Unit {0} };

    ghost ended = { λ s. Unit {0} };

    ghost failed = { λ s. false };

    fn read(&mut self, buf: &mut [u8]) -> Result<usize, Failed> {
        self.calls = self.calls.saturating_add(1);
        let text = match self.calls {
            1 => self.before,
            2 => {
                if let Ok(taken) = take_all_but(self.heap, self.other, self.left) {
                    self.taken = taken;
                }
                self.line
            }
            3 => {
                self.taken.clear();
                self.after
            }
            _ => &[],
        };
        let count = text.len().min(buf.len());
        buf[..count].copy_from_slice(&text[..count]);
        Ok(count)
    }
}

/// What the board answers, with the memory of a heap.
fn answers<'h, R: Source>(
    rt: &impl Abort,
    heap: &'h LocalHeap,
    other: &'h LocalHeap,
    table: &KeyTable,
    reader: &mut R,
) -> Result<Text<'h>, Fail>
    requires reader { R.failed reader.old ≡ false }
{
    let mut room = [0; 4000];
    let mut writer = ToBytes::new(&mut room, 4000);
    assert_eq!(rt; board_with(heap, reader, &mut writer, table), Ended::Good);
    Ok(Vec::from_slice(other, writer.taken())?)
}

/// The texts, one after the other.
fn joined<'h>(other: &'h LocalHeap, texts: &[&'static [u8]]) -> Result<Text<'h>, AllocError> {
    let mut whole = Vec::new(other);
    for text in texts {
        whole.extend_from_slice(text)?;
    }
    Ok(whole)
}

/// What it answers to the texts, with all the memory of the heap.
fn plain<'h>(
    rt: &impl Abort,
    heap: &'h LocalHeap,
    other: &'h LocalHeap,
    table: &KeyTable,
    texts: &[&'static [u8]],
) -> Result<Text<'h>, Fail> {
    let input = joined(other, texts)?;
    let mut reader = FromBytes::new(input.as_slice(), 4000);
    answers(rt, heap, other, table, &mut reader)
}

/// Gives the board a line after others with more and more memory, until it isn't refused any more; it is then answered as usual. After a
/// refusal all is as before, and the same line is answered as usual. Answers how often it was refused.
fn refusals<'h>(
    rt: &impl Abort,
    heap: &'h LocalHeap,
    other: &'h LocalHeap,
    table: &KeyTable,
    before: &'static [u8],
    line: &'static [u8],
) -> Result<usize, Fail> {
    let first = plain(rt, heap, other, table, &[before])?;
    let shown = plain(rt, heap, other, table, &[before, SHOWN])?;
    let usual = plain(rt, heap, other, table, &[before, line, SHOWN])?;
    let after = joined(other, &[SHOWN, line, SHOWN])?;
    assert!(rt; first.len() <= shown.len() && first.len() <= usual.len());
    let mut refused = Vec::from_slice(other, first.as_slice())?;
    refused.extend_from_slice(REFUSED)?;
    refused.extend_from_slice(&shown[first.len()..])?;
    refused.extend_from_slice(&usual[first.len()..])?;
    for turn in 0..400usize {
        let mut reader = Starving {
            heap,
            other,
            before,
            line,
            after: after.as_slice(),
            left: 16 + turn * 16,
            calls: 0,
            taken: Vec::new(other),
        };
        let answered = answers(rt, heap, other, table, &mut reader)?;
        if answered.starts_with(usual.as_slice()) {
            return Ok(turn);
        }
        assert_eq!(rt; answered, refused);
    }
    assert!(rt; false);
    Ok(0)
}

/// A part of the lines.
fn part(from: usize, to: usize) -> &'static [u8] {
    LINES.get(from..to).unwrap_or(&[])
}

#[test]
fn refuses_each_growth_in_turn(rt: HostRuntime) -> Result<(), Fail> {
    let heap = LocalHeap::new(rt.alloc(), 400_000)?;
    let other = LocalHeap::new(rt.alloc(), 400_000)?;
    let table = KeyTable::new([1; 768]);
    let (mut start, mut refused) = (4usize, 0usize);
    for (number, byte) in LINES.iter().enumerate() {
        let end = number.saturating_add(1);
        if *byte != b'\n' || end <= start {
            continue;
        }
        let (before, line) = (part(0, start), part(start, end));
        let count = refusals(&rt, &heap, &other, &table, before, line)?;
        if count > 0 {
            let word = line.split(|byte| byte.is_ascii_whitespace()).next();
            assert!(rt;
                matches!(
                    word,
                    Some(b"new" | b"set" | b"play" | b"nag" | b"comment" | b"pgn")
                )
            );
        }
        refused = refused.saturating_add(count);
        start = end;
    }
    assert!(rt; refused > 40);
    Ok(())
}
