//! The first item of a text, by where in a game it is.

ghost use Rattle.std.specs.Prelude.{◌≡◌, Some, bytes_eq};
ghost use Rattle.std.specs.List.{list_all};
ghost use Rattle.chess_items.specs.Items.{digits_value, glyph_value, is_digit, word_item};
ghost use Rattle.chess_items.specs.steps.ItemAt.{escaped_at, hidden_at, item_at, mark_at, outside_at, sign_at, small, tag_at, value_at};
ghost use Rattle.chess_items.specs.steps.Tokens.{found, item_of};

use crate::class::{Class, is_blank, is_escapable};
use crate::outcome::Outcome;
use crate::place::Place;
use crate::token::Token;

// Whether each byte is a digit.
fn is_number(text: &[u8]) -> bool
    ensures { result ≡ list_all is_digit text.now }
{
    text.iter().all(|b| Class::Digit.has(*b))
}

/// Whether the two texts are one.
pub fn is(text: &[u8], other: &[u8]) -> bool
    ensures { result ≡ bytes_eq text.now other.now }
{
    text == other
}

// What a longest run of word bytes is.
#[tactic(auto, unfolding(crate::specs::Items::word_item))]
fn word_token(text: &[u8]) -> Token<'_>
    ensures { item_of result ≡ word_item text.now }
{
    let Some((&first, _)) = text.split_first() else {
        return Token::Skipped;
    };
    // No number and no marker begins so: a move's text is known by its first byte.
    if !Class::Digit.has(first) {
        return Token::Word(text);
    }
    if is_number(text) {
        Token::Skipped
    } else if is(text, b"1-0") {
        Token::Marker(Outcome::WhiteWins)
    } else if is(text, b"0-1") {
        Token::Marker(Outcome::BlackWins)
    } else if is(text, b"1/2-1/2") {
        Token::Marker(Outcome::Draw)
    } else {
        Token::Word(text)
    }
}

// The annotation number of a longest run of ! and ?.
#[tactic(auto, unfolding(crate::specs::Items::glyph_value))]
fn glyph_value(text: &[u8]) -> Option<u8>
    ensures { result ≡ glyph_value text.now }
{
    if is(text, b"!") {
        Some(1)
    } else if is(text, b"?") {
        Some(2)
    } else if is(text, b"!!") {
        Some(3)
    } else if is(text, b"??") {
        Some(4)
    } else if is(text, b"!?") {
        Some(5)
    } else if is(text, b"?!") {
        Some(6)
    } else {
        None
    }
}

/// The number that digits spell, if it is at most 255.
pub fn digits_value(digits: &[u8]) -> Option<u8>
    ensures { result ≡ small (digits_value 0 digits.now) }
{
    let mut n = 0u32;
    for d in digits {
        n = (10 * n + u32::from(d.saturating_sub(b'0'))).min(1000);
    }
    u8::try_from(n).ok()
}

// A line that % hides, after the %.
#[tactic(auto, unfolding(crate::specs::steps::ItemAt::run_at))]
fn hidden(start: bool, bytes: &[u8]) -> Option<(Token<'_>, &[u8])>
    ensures { found result ≡ hidden_at start bytes.now }
{
    if !start {
        return None;
    }
    let (_, rest) = bytes.split_at(Class::Line.run_len(bytes));
    Some((Token::Hidden, rest))
}

// A mark, after its first byte.
fn mark(rest: &[u8]) -> Option<(Token<'_>, &[u8])>
    ensures { found result ≡ mark_at rest.now }
{
    match rest {
        [187, 191, rest @ ..] => Some((Token::Mark, rest)),
        _ => None,
    }
}

// What begins with another byte than those of words, whitespace, ! and ?.
#[tactic(auto, unfolding(crate::specs::steps::ItemAt::sign_at, crate::specs::steps::ItemAt::run_at))]
#[inline(always)]
fn sign(start: bool, b: u8, rest: &[u8]) -> Option<(Token<'_>, &[u8])>
    ensures { found result ≡ sign_at start b rest.now }
{
    match b {
        b'%' => hidden(start, rest),
        b';' => {
            let (line, rest) = rest.split_at(Class::Line.run_len(rest));
            Some((Token::Line(line), rest))
        }
        b'{' => {
            let (text, rest) = rest.split_at(Class::Braced.run_len(rest));
            let (_, rest) = rest.split_first()?;
            Some((Token::Braced(text), rest))
        }
        b'$' => {
            let (digits, rest) = rest.split_at(Class::Digit.run_len(rest));
            if digits.is_empty() {
                return None;
            }
            Some((Token::Nag(digits_value(digits)?), rest))
        }
        b'(' => Some((Token::Open, rest)),
        b')' => Some((Token::Close, rest)),
        b'*' => Some((Token::Marker(Outcome::Unfinished), rest)),
        b'.' => Some((Token::Skipped, rest)),
        b'[' => Some((Token::TagOpen, rest)),
        239 => mark(rest),
        _ => None,
    }
}

// Outside of tags, in the first column or not.
#[tactic(auto, unfolding(crate::specs::steps::ItemAt::outside_at, crate::specs::steps::ItemAt::run_at))]
#[inline(always)]
fn outside(start: bool, bytes: &[u8]) -> Option<(Token<'_>, &[u8])>
    ensures { found result ≡ outside_at start bytes.now }
{
    let (&b, rest) = bytes.split_first()?;
    if Class::Word.has(b) {
        let (text, rest) = bytes.split_at(Class::Word.run_len(bytes));
        return Some((word_token(text), rest));
    }
    if is_blank(b) {
        return Some((Token::Blank(b), rest));
    }
    if Class::Glyph.has(b) {
        let (text, rest) = bytes.split_at(Class::Glyph.run_len(bytes));
        return Some((Token::Nag(glyph_value(text)?), rest));
    }
    sign(start, b, rest)
}

// Between the parts of a tag, in the first column or not.
#[tactic(auto, unfolding(crate::specs::steps::ItemAt::tag_at, crate::specs::steps::ItemAt::run_at))]
fn in_tag(start: bool, bytes: &[u8]) -> Option<(Token<'_>, &[u8])>
    ensures { found result ≡ tag_at start bytes.now }
{
    let (&b, rest) = bytes.split_first()?;
    if Class::Name.has(b) {
        let (name, rest) = bytes.split_at(Class::Name.run_len(bytes));
        return Some((Token::Name(name), rest));
    }
    if is_blank(b) {
        return Some((Token::Blank(b), rest));
    }
    match b {
        b'"' => Some((Token::Quote, rest)),
        b']' => Some((Token::TagClose, rest)),
        b'%' => hidden(start, rest),
        _ => None,
    }
}

// In a tag's value, after a backslash.
fn escaped(rest: &[u8]) -> (Token<'_>, &[u8])
    ensures { found (Some result) ≡ escaped_at rest.now }
{
    match rest.split_first() {
        Some((&b, others)) if is_escapable(b) => (Token::Escaped(b), others),
        _ => (Token::Stretch(b"\\"), rest),
    }
}

// In a tag's value.
#[tactic(auto, unfolding(crate::specs::steps::ItemAt::value_at, crate::specs::steps::ItemAt::run_at))]
fn in_value(bytes: &[u8]) -> Option<(Token<'_>, &[u8])>
    ensures { found result ≡ value_at bytes.now }
{
    let (&b, rest) = bytes.split_first()?;
    match b {
        b'"' => Some((Token::Quote, rest)),
        b'\\' => Some(escaped(rest)),
        b'\n' => None,
        _ => {
            let (text, rest) = bytes.split_at(Class::Plain.run_len(bytes));
            Some((Token::Stretch(text), rest))
        }
    }
}

/// The first item of a text, and what follows it; `None` where there is none, or its end is missing.
#[tactic(auto, unfolding(crate::specs::steps::ItemAt::item_at))]
#[inline(always)]
pub fn item(place: Place, bytes: &[u8]) -> Option<(Token<'_>, &[u8])>
    ensures { found result ≡ item_at place bytes.now }
{
    match place {
        Place::GameStart | Place::LineStart => outside(true, bytes),
        Place::InLine => outside(false, bytes),
        Place::TagLineStart => in_tag(true, bytes),
        Place::InTag => in_tag(false, bytes),
        Place::InValue => in_value(bytes),
    }
}
