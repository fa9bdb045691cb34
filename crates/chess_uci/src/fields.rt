//! The fields of a `go` line, read from left to right.

ghost use Rattle.std.specs.Prelude.{◌≡◌, min, fold};
ghost use Rattle.std.specs.Char.{is_ascii_digit};
ghost use Rattle.std.specs.List.{list_all};
ghost use Rattle.byte_streams.specs.Words.{words};
ghost use Rattle.chess_uci.specs.Commands.{gaps};
ghost use Rattle.chess_uci.specs.Go.{with_digit, digits, number, is_infinite, field_named, with_number, fields_with_word, given_number, fields};

use crate::command::GAPS;
use crate::table::beside;
use byte_streams::split_word;

/// A field of `go` that takes a number.
#[derive(Clone, Copy)]
pub(crate) enum Name {
    Depth,
    MoveTime,
    WhiteTime,
    BlackTime,
    WhiteIncrement,
    BlackIncrement,
    /// One without effect.
    Ignored,
}

/// What `go` asks for: a depth in plies, times in milliseconds.
#[derive(Clone, Copy, Default)]
pub(crate) struct Fields {
    pub(crate) depth: Option<u32>,
    pub(crate) movetime: Option<u32>,
    pub(crate) white_time: Option<u32>,
    pub(crate) black_time: Option<u32>,
    pub(crate) white_increment: Option<u32>,
    pub(crate) black_increment: Option<u32>,
    pub(crate) infinite: bool,
}

/// The most that a number is read as.
const MOST: u32 = 1_000_000_000;

fn are_digits(word: &[u8]) -> bool
    ensures { result ≡ list_all is_ascii_digit word.now }
{
    word.iter().all(|byte| byte.is_ascii_digit())
}

// The number that digits write.
fn value_of(word: &[u8]) -> u32
    ensures { result ≡ min (fold with_digit 0 word.now) 1000000000 }
{
    let mut value: u32 = 0;
    for byte in word {
        let more = u64::from(value) * 10 + u64::from(byte.saturating_sub(b'0'));
        value = more.min(u64::from(MOST)) as u32;
    }
    value
}

fn digits(word: &[u8]) -> Option<u32>
    ensures { result ≡ digits word.now }
{
    if word.is_empty() || !are_digits(word) {
        return None;
    }
    Some(value_of(word))
}

// Digits, or a hyphen and digits.
fn number(word: &[u8]) -> Option<u32>
    ensures { result ≡ number word.now }
{
    match word {
        [b'-', rest @ ..] => digits(rest).map(|_n| 0),
        _ => digits(word),
    }
}

fn is_infinite(word: &[u8]) -> bool
    ensures { result ≡ is_infinite word.now }
{
    word == b"infinite".as_slice()
}

/// The field that the word names, if it is one that takes a number.
pub(crate) fn name_of(word: &[u8]) -> Option<Name>
    ensures { result ≡ field_named word.now }
{
    let table = [
        (b"depth".as_slice(), Name::Depth),
        (b"movetime", Name::MoveTime),
        (b"wtime", Name::WhiteTime),
        (b"btime", Name::BlackTime),
        (b"winc", Name::WhiteIncrement),
        (b"binc", Name::BlackIncrement),
        (b"movestogo", Name::Ignored),
        (b"nodes", Name::Ignored),
        (b"mate", Name::Ignored),
    ];
    beside(&table, word)
}

fn with_number(fields: Fields, name: Name, n: u32) -> Fields
    ensures { result ≡ with_number fields name n }
{
    let mut fields = fields;
    match name {
        Name::Depth => fields.depth = Some(n),
        Name::MoveTime => fields.movetime = Some(n),
        Name::WhiteTime => fields.white_time = Some(n),
        Name::BlackTime => fields.black_time = Some(n),
        Name::WhiteIncrement => fields.white_increment = Some(n),
        Name::BlackIncrement => fields.black_increment = Some(n),
        Name::Ignored => {}
    }
    fields
}

// The number that the word gives to the name before it.
fn given(wanted: Option<Name>, word: &[u8]) -> Option<(Name, u32)>
    ensures { result ≡ given_number wanted word.now }
{
    let name = wanted?;
    let n = number(word)?;
    Some((name, n))
}

fn fields_with_word(fields: Fields, word: &[u8]) -> Fields
    ensures { result ≡ fields_with_word fields word.now }
{
    let mut fields = fields;
    if is_infinite(word) {
        fields.infinite = true;
    }
    fields
}

/// What the words ask for, from left to right.
pub(crate) fn read_fields(text: &[u8]) -> Fields
    ensures { result ≡ fields (words gaps text.now) }
{
    let mut fields = Fields::default();
    let mut wanted: Option<Name> = None;
    let mut rest = text;
    while let Some((word, others)) = split_word(rest, GAPS) {
        if let Some((name, n)) = given(wanted, word) {
            fields = with_number(fields, name, n);
            wanted = None;
        } else {
            fields = fields_with_word(fields, word);
            wanted = name_of(word);
        }
        rest = others;
    }
    fields
}
