//! A collection cut into pieces of whole games, so that many processes read them.

ghost use Rattle.std.specs.Prelude.{◌≡◌, ℕ, ◌<◌, true, List, [], ◌∷◌, ◌++◌, length, vec_len, IfErr, IfOk, OnOk};
ghost use Rattle.byte_streams.specs.Calls.{Carries};
ghost use Rattle.chess_items.specs.Items.{is_name_byte};
ghost use Rattle.chess_items.specs.Sections.{OpensTag};
ghost use Rattle.chess_loop.specs.RunEnds.{Broken};
ghost use Rattle.chess_command_line.specs.declared.collection.Failure.TheVariants as by;
ghost use Rattle.chess_games.specs.declared.cut.CutFault.TheVariants as faults;
ghost use Rattle.chess_games.specs.Pieces.{IsCut, IsCutInPart, IsMarked, IsStopped};

use crate::put::put;
use byte_streams::{Sink, Source};
use chess_command_line::Failure;
use std::alloc::{AllocError, Allocator};

/// The most bytes of a read.
const PIECE: usize = 65_536;

/// As many reads as `Games` makes.
const READS: u64 = 1 << 40;

/// Why a collection isn't cut to its end.
#[derive(Clone, Copy, Debug, PartialEq, Eq)]
pub enum CutFault {
    /// A stream or memory failed.
    Failure(Failure),
    /// It has a zero byte, which is what pieces are separated by.
    Zero,
}

impl From<Failure> for CutFault {
    ghost from_gives = { λ failure fault. fault ≡ faults.Failure failure };

    fn from(failure: Failure) -> CutFault {
        CutFault::Failure(failure)
    }
}

// Where the next byte is, by the items of a text (PGN 7). What is no item is passed over.
#[derive(Clone, Copy)]
enum Zone {
    /// In the first column, or where a game begins.
    LineStart,
    /// Elsewhere outside of tags.
    InLine,
    /// In a comment between braces.
    Braced,
    /// In a comment or a hidden line, up to the line's end.
    ToLineEnd,
    /// In the first column between the parts of a tag.
    TagLineStart,
    /// Elsewhere between the parts of a tag.
    InTag,
    /// In a line that is hidden between the parts of a tag.
    TagToLineEnd,
    /// In a tag's value.
    InValue,
    /// There, after a backslash.
    Escaped,
}

/// Goes over the bytes of a collection, and finds where a game begins for whoever reads it, whether the games before are good or not.
#[derive(Drop)]
struct Borders {
    zone: Zone,
    /// The last bytes of the word that the last byte belongs to; zero where that is of no word.
    word: u64,
    /// How many line feeds there were since the last byte that is not whitespace, at most 255.
    feeds: u8,
    /// Whether the next byte is first on its line but for whitespace; a byte order mark begins a line, too.
    is_first: bool,
    /// Whether the last item but whitespace is the marker of a game's end.
    has_ended: bool,
    /// Whether a section of tags may begin in a comment, a hidden line or a value: a reader that passes over a bad game would begin there, and another would not.
    is_lost: bool,
    /// How many bytes there were since the last border.
    since: u64,
}

// Whitespace (PGN 7).
fn is_blank(b: u8) -> bool {
    matches!(b, 9..=13 | b' ')
}

// A byte of a tag's name.
#[tactic(auto, unfolding(chess_items::specs::Items::is_name_byte, chess_items::specs::Items::is_digit))]
fn is_name_byte(b: u8) -> bool
    ensures { result ≡ is_name_byte b }
{
    matches!(b, b'0'..=b'9' | b'A'..=b'Z' | b'a'..=b'z' | b'_')
}

// A byte of moves, numbers, markers and annotation numbers.
fn is_word_byte(b: u8) -> bool {
    is_name_byte(b) || matches!(b, b'+' | b'#' | b'=' | b':' | b'-' | b'/' | b'$')
}

// Whether the last bytes of a word are those of a marker: 1-0, 0-1 or 1/2-1/2 (PGN 8.2.6).
fn is_marker(word: u64) -> bool {
    matches!(word, 0x31_2d_30 | 0x30_2d_31 | 0x31_2f_32_2d_31_2f_32)
}

// The zone after a byte between a tag's brackets.
fn after_in_tag(zone: Zone, b: u8) -> Zone {
    match b {
        b'"' => Zone::InValue,
        b']' => Zone::InLine,
        b'\n' => Zone::TagLineStart,
        b'%' if matches!(zone, Zone::TagLineStart) => Zone::TagToLineEnd,
        _ => Zone::InTag,
    }
}

// The zone after a byte of a tag's value. A line feed is in none.
fn after_in_value(zone: Zone, b: u8) -> Zone {
    match b {
        b'\n' => Zone::LineStart,
        b'"' if matches!(zone, Zone::InValue) => Zone::InTag,
        b'\\' if matches!(zone, Zone::InValue) => Zone::Escaped,
        _ => Zone::InValue,
    }
}

impl Borders {
    // Before the first byte, which counts as after an empty line.
    fn new() -> Borders {
        Borders {
            zone: Zone::LineStart,
            word: 0,
            feeds: 2,
            is_first: true,
            has_ended: false,
            is_lost: false,
            since: 0,
        }
    }

    // A byte outside of tags and comments that is of no word.
    fn take_sign(&mut self, b: u8) {
        if is_marker(self.word) {
            self.has_ended = true;
            self.zone = Zone::LineStart;
        }
        self.word = 0;
        let is_first = matches!(self.zone, Zone::LineStart);
        self.zone = match b {
            b'\n' => Zone::LineStart,
            b'*' => Zone::LineStart,
            b'[' => Zone::InTag,
            b'{' => Zone::Braced,
            b';' => Zone::ToLineEnd,
            b'%' if is_first => Zone::ToLineEnd,
            // The bytes of a mark, after which a line begins.
            239 | 187 | 191 => Zone::LineStart,
            _ => Zone::InLine,
        };
        if b == b'*' {
            self.has_ended = true;
        } else if !is_blank(b) && !(b == b'%' && is_first) {
            self.has_ended = false;
        }
    }

    // A byte outside of tags and comments.
    fn take_outside(&mut self, b: u8) {
        if is_word_byte(b) {
            self.word = (self.word << 8) | u64::from(b);
            self.zone = Zone::InLine;
            self.has_ended = false;
        } else {
            self.take_sign(b);
        }
    }

    // The next byte.
    fn take(&mut self, b: u8) {
        match self.zone {
            Zone::LineStart | Zone::InLine => self.take_outside(b),
            Zone::Braced => {
                if b == b'}' {
                    self.zone = Zone::InLine;
                }
            }
            Zone::ToLineEnd => {
                if b == b'\n' {
                    self.zone = Zone::LineStart;
                }
            }
            Zone::TagToLineEnd => {
                if b == b'\n' {
                    self.zone = Zone::TagLineStart;
                }
            }
            Zone::TagLineStart | Zone::InTag => self.zone = after_in_tag(self.zone, b),
            Zone::InValue | Zone::Escaped => self.zone = after_in_value(self.zone, b),
        }
        if b == b'\n' {
            self.feeds = self.feeds.saturating_add(1);
        } else if !is_blank(b) {
            self.feeds = 0;
        }
        // 191 is the last byte of a mark.
        self.is_first = b == b'\n' || b == 191 || (self.is_first && is_blank(b));
        self.since = self.since.saturating_add(1);
    }

    // Whether a section of tags may begin with the next bytes, at least one.
    fn may_open(&self, next: &[u8]) -> bool
        ensures { result ≡ true → 1 < length next.now → OpensTag next.now }
    {
        match next {
            [b'['] => self.is_first,
            [b'[', b, ..] => self.is_first && is_name_byte(*b),
            _ => false,
        }
    }

    // The first of the next bytes, at least one. Whether a game surely begins with it, at least `least` bytes after the last border.
    fn take_next(&mut self, next: &[u8], least: u64) -> bool
        requires { 0 < length next.now }
        ensures { result ≡ true → OpensTag next.now }
    {
        let may_open = self.may_open(next);
        let is_outside = matches!(self.zone, Zone::LineStart | Zone::InLine);
        let is_hidden = matches!(
            self.zone,
            Zone::Braced | Zone::ToLineEnd | Zone::TagToLineEnd | Zone::InValue | Zone::Escaped
        );
        if may_open && is_hidden {
            self.is_lost = true;
        }
        let begins = may_open
            && is_outside
            && self.feeds >= 2
            && self.has_ended
            && !self.is_lost
            && self.since >= least
            && next.len() > 1;
        self.take(next[0]);
        if begins {
            self.since = 1;
        }
        begins
    }
}

// Writes all of the bytes, and a zero byte after them.
fn put_border<W: Sink>(writer: &mut W, bytes: &[u8]) -> Result<(), Failure>
    ensures all { OnOk result (Carries W.takes writer.old (bytes.now ++ 0 ∷ []) writer.new) }
    ensures well { OnOk result (W.failed writer.new ≡ W.failed writer.old) }
    ensures fault { IfErr result (λ failure. failure ≡ by.Write) }
    ensures broken { IfErr result (λ _. Broken W.takes W.failed writer.old (bytes.now ++ 0 ∷ []) writer.new) }
{
    put(writer, bytes)?;
    put(writer, b"\0")?;
    Ok(())
}

// Writes the bytes that were read, with a zero byte at each border.
fn put_piece<W: Sink>(
    borders: &mut Borders,
    piece: &[u8],
    least: u64,
    writer: &mut W,
) -> Result<(), CutFault>
    ensures all { OnOk result ((marked : List ℕ) × Carries W.takes writer.old marked writer.new × IsMarked piece.now marked) }
    ensures well { OnOk result (W.failed writer.new ≡ W.failed writer.old) }
    ensures stopped { IfErr result (λ fault. IsStopped W.takes W.failed piece.now writer.old writer.new fault) }
{
    if piece.contains(&0) {
        return Err(CutFault::Zero);
    }
    let mut written = 0;
    for at in 0..piece.len() {
        if borders.take_next(&piece[at..], least) {
            put_border(writer, &piece[written..at])?;
            written = at;
        }
    }
    put(writer, &piece[written..])?;
    Ok(())
}

// The contract says no more, since a list of `PIECE` zeros would be written out in each goal.
fn zeros<A: Allocator>(alloc: A) -> Result<Vec<u8, A>, AllocError>
    ensures { IfOk result (λ zeros. 0 < vec_len zeros) }
{
    vec![in alloc; 0u8; PIECE]
}

/// Copies the reader's bytes to the writer, with a zero byte where a game surely begins: before a section of tags (PGN 8.1) after an empty line
/// and a marker of a game's end, at least `least` bytes after the last. Whoever reads the pieces one by one reads the games that are read of
/// the whole, good and bad, whatever their moves. Where a section may begin in a comment, a hidden line or a value, the rest is one
/// piece, since a reader begins there only after a bad game.
///
/// # Errors
///
/// A zero byte, or the first failure of a stream or of memory; what was written before it stays written.
pub fn cut<A: Allocator, R: Source + Drop, W: Sink>(
    alloc: A,
    least: u64,
    reader: R,
    writer: &mut W,
) -> Result<(), CutFault>
    ensures good { OnOk result (IsCut R.gives R.failed R.ended W.takes W.failed reader writer.old writer.new) }
    ensures short { IfErr result (λ fault. IsCutInPart R.gives R.failed W.takes W.failed reader writer.old writer.new fault) }
{
    let mut reader = reader;
    let Ok(mut buffer) = zeros(alloc) else {
        return Err(CutFault::Failure(Failure::Memory));
    };
    let mut borders = Borders::new();
    for reads in 0..READS {
        match reader.read(buffer.as_mut_slice()) {
            Ok(0) => return Ok(()),
            Ok(count) => put_piece(&mut borders, &buffer[..count], least, writer)?,
            Err(_) => return Err(CutFault::Failure(Failure::Read)),
        }
    }
    Err(CutFault::Failure(Failure::Read))
}
