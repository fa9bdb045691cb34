//! Whether bytes at hand decide the item that they begin with.

ghost use Rattle.std.specs.Prelude.{◌≡◌, ◌≤◌, ◌<◌, true, take, length, nat_lt, IfSome, MatchBool};
ghost use Rattle.std.specs.List.{list_all};
ghost use Rattle.chess_items.specs.Items.{digits_value};
ghost use Rattle.chess_items.specs.steps.Classes.{has_byte};
ghost use Rattle.chess_items.specs.steps.Unended.{BeginsComment};
ghost use Rattle.chess_items.specs.steps.Deciding.{Decides, is_open, mark_open, outside_open, tag_open, value_open};

use crate::class::{Class, is_blank};
use crate::lexer::digits_value;
use crate::place::Place;

// Whether each byte is of the class, where those before `from` are.
fn goes_on(class: Class, bytes: &[u8], from: usize) -> bool
    requires within { from ≤ length bytes.now }
    requires seen { list_all (has_byte class) (take from bytes.now) ≡ true }
    ensures { result ≡ list_all (has_byte class) bytes.now }
{
    let rest = &bytes[from..];
    class.run_len(rest) == rest.len()
}

// Whether the digits' number is below 256, where it is for the first `seen`. Those before the last three of them are zeros.
fn is_small(digits: &[u8], seen: usize) -> bool
    requires within { seen ≤ length digits.now }
    requires seen { digits_value 0 (take seen digits.now) < 256 }
    ensures { result ≡ nat_lt (digits_value 0 digits.now) 256 }
{
    digits_value(&digits[seen.saturating_sub(3)..]).is_some()
}

// After the first byte of a mark.
fn is_mark_open(rest: &[u8]) -> bool
    ensures { result ≡ mark_open rest.now }
{
    match rest {
        [] => true,
        [b] => *b == 187,
        _ => false,
    }
}

// Outside of tags, in the first column or not.
#[tactic(auto, unfolding(crate::specs::steps::Deciding::outside_open, crate::specs::steps::Deciding::sign_open))]
fn is_outside_open(start: bool, bytes: &[u8], looked: usize) -> bool
    requires within { looked ≤ length bytes.now }
    requires looked { outside_open start (take looked bytes.now) ≡ true }
    ensures { result ≡ outside_open start bytes.now }
{
    let Some((&b, rest)) = bytes.split_first() else {
        return true;
    };
    let seen = looked.saturating_sub(1);
    if Class::Word.has(b) {
        return goes_on(Class::Word, rest, seen);
    }
    if is_blank(b) {
        return false;
    }
    if Class::Glyph.has(b) {
        return goes_on(Class::Glyph, rest, seen) && rest.len() < 2;
    }
    if b == 239 {
        return is_mark_open(rest);
    }
    match b {
        b'%' => start && goes_on(Class::Line, rest, seen),
        b';' => goes_on(Class::Line, rest, seen),
        b'{' => goes_on(Class::Braced, rest, seen),
        b'$' => goes_on(Class::Digit, rest, seen) && is_small(rest, seen),
        _ => false,
    }
}

// Between the parts of a tag, in the first column or not.
#[tactic(auto, unfolding(crate::specs::steps::Deciding::tag_open))]
fn is_tag_open(start: bool, bytes: &[u8], looked: usize) -> bool
    requires within { looked ≤ length bytes.now }
    requires looked { tag_open start (take looked bytes.now) ≡ true }
    ensures { result ≡ tag_open start bytes.now }
{
    let Some((&b, rest)) = bytes.split_first() else {
        return true;
    };
    let seen = looked.saturating_sub(1);
    if Class::Name.has(b) {
        return goes_on(Class::Name, rest, seen);
    }
    if is_blank(b) {
        return false;
    }
    match b {
        b'"' | b']' => false,
        b'%' => start && goes_on(Class::Line, rest, seen),
        _ => false,
    }
}

// In a tag's value.
#[tactic(auto, unfolding(crate::specs::steps::Deciding::value_open))]
fn is_value_open(bytes: &[u8], looked: usize) -> bool
    requires within { looked ≤ length bytes.now }
    requires looked { value_open (take looked bytes.now) ≡ true }
    ensures { result ≡ value_open bytes.now }
{
    let Some((&b, rest)) = bytes.split_first() else {
        return true;
    };
    match b {
        b'"' | b'\n' => false,
        b'\\' => rest.is_empty(),
        _ => goes_on(Class::Plain, rest, looked.saturating_sub(1)),
    }
}

// Whether the first item reaches the end of the bytes and may go on, where it does in the first `looked`.
#[tactic(auto, unfolding(crate::specs::steps::Deciding::is_open))]
fn reaches_end(place: Place, bytes: &[u8], looked: usize) -> bool
    requires within { looked ≤ length bytes.now }
    requires looked { is_open place (take looked bytes.now) ≡ true }
    ensures { result ≡ is_open place bytes.now }
{
    match place {
        Place::GameStart | Place::LineStart => is_outside_open(true, bytes, looked),
        Place::InLine => is_outside_open(false, bytes, looked),
        Place::TagLineStart => is_tag_open(true, bytes, looked),
        Place::InTag => is_tag_open(false, bytes, looked),
        Place::InValue => is_value_open(bytes, looked),
    }
}

/// Which comment begins with a byte.
#[derive(Clone, Copy)]
pub enum Comment {
    /// Between braces.
    Braces,
    /// To the end of the line.
    Line,
}

/// Which comment the bytes begin with, outside of tags.
#[inline(always)]
pub fn comment_at(place: Place, bytes: &[u8]) -> Option<Comment>
    ensures { IfSome result (λ comment. BeginsComment comment place bytes.now) }
{
    if !matches!(place, Place::GameStart | Place::LineStart | Place::InLine) {
        return None;
    }
    match bytes.first() {
        Some(b'{') => Some(Comment::Braces),
        Some(b';') => Some(Comment::Line),
        _ => None,
    }
}

/// Whether more bytes may change the first item, where they may for the first `looked`.
pub fn is_undecided(place: Place, bytes: &[u8], looked: usize) -> bool
    requires within { looked ≤ length bytes.now }
    requires looked { Decides place (take looked bytes.now) → ⊥ }
    ensures { MatchBool result (Decides place bytes.now → ⊥) (Decides place bytes.now) }
{
    reaches_end(place, bytes, looked)
}
