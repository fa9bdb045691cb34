//! FEN tags whose value spells no position.

ghost use Rattle.std.specs.Prelude.{◌≡◌, ◌==◌, ◌++◌, Some, IfOk, IfSome};
ghost use Rattle.std.specs.List.{list_all, list_any};
ghost use Rattle.chess_repair.specs.Fens.{IsFen, IsFenOf, IsLonger, IsRighted, after_fen, fen_value, if_right, in_value, in_word, is_last_word, is_right, missing_ends, next_word, quoted_value, right, says_none, standard_rights, third, value_end};
ghost use Rattle.chess_repair.specs.Runs.{has_first, past};

use crate::marks::is_blank;
use crate::runs::{before, past_blanks};
use crate::tags::{is_quote, tag_len};
use arrayvec::ArrayVec;
use std::alloc::{AllocError, Allocator};

/// A FEN tag that is mended.
#[derive(Drop)]
pub struct MendedFen<'t, 'a, A: Allocator> {
    /// The bytes that it is written for.
    pub was: &'t [u8],
    pub text: Vec<u8, &'a A>,
}

// A byte of a word of a value.
#[tactic(auto, unfolding(crate::specs::Fens::in_word, crate::specs::Tags::is_quote))]
fn in_word(b: u8) -> bool
    ensures { result ≡ in_word b }
{
    !(is_blank(b) || b == b'"')
}

// A byte of a value.
#[tactic(auto, unfolding(crate::specs::Fens::in_value, crate::specs::Tags::is_quote))]
fn in_value(b: u8) -> bool
    ensures { result ≡ in_value b }
{
    b != b'"'
}

// A byte of a value that has no position.
#[tactic(auto, unfolding(crate::specs::Fens::says_none))]
fn says_none(b: u8) -> bool
    ensures { result ≡ says_none b }
{
    is_blank(b) || b == b'?'
}

// The text without bytes of a word at its beginning.
fn past_word(text: &[u8]) -> &[u8]
    ensures { result.now ≡ past in_word text.now }
{
    let mut rest = text;
    while let [b, more @ ..] = rest {
        if !in_word(*b) {
            break;
        }
        rest = more;
    }
    rest
}

// The text from a value's end on.
fn value_end(value: &[u8]) -> &[u8]
    ensures { result.now ≡ value_end value.now }
{
    let mut rest = value;
    while let [b, more @ ..] = rest {
        if !in_value(*b) {
            break;
        }
        rest = more;
    }
    rest
}

// The text without blanks and question marks at its beginning.
fn past_none(value: &[u8]) -> &[u8]
    ensures { result.now ≡ past says_none value.now }
{
    let mut rest = value;
    while let [b, more @ ..] = rest {
        if !says_none(*b) {
            break;
        }
        rest = more;
    }
    rest
}

// The text from its next word on.
fn next_word(text: &[u8]) -> &[u8]
    ensures { result.now ≡ next_word text.now }
{
    past_blanks(past_word(text))
}

// The text from a value's third word on.
fn third(value: &[u8]) -> &[u8]
    ensures { result.now ≡ third value.now }
{
    next_word(next_word(past_blanks(value)))
}

// What comes after a quotation mark at the beginning.
fn quoted_value(text: &[u8]) -> Option<&[u8]>
    ensures { IfSome result (λ value. quoted_value text.now ≡ Some value.now) }
{
    match text {
        [b, value @ ..] => { if is_quote(*b) { Some(value) } else { None } }
        [] => None,
    }
}

// What comes after the name FEN and a quotation mark.
fn after_fen(text: &[u8]) -> Option<&[u8]>
    ensures { IfSome result (λ value. after_fen text.now ≡ Some value.now) }
{
    match text {
        [f, e, n, more @ ..] => {
            if *f == b'F' && *e == b'E' && *n == b'N' {
                quoted_value(past_blanks(more))
            } else {
                None
            }
        }
        _ => None,
    }
}

// What comes after the first quotation mark of a FEN tag.
fn fen_value(tag: &[u8]) -> Option<&[u8]>
    ensures { IfSome result (λ value. fen_value tag.now ≡ Some value.now) }
{
    match tag {
        [b, inner @ ..] => {
            if *b == b'[' {
                after_fen(past_blanks(inner))
            } else {
                None
            }
        }
        [] => None,
    }
}

// Whether a word begins here.
fn has_word(text: &[u8]) -> bool
    ensures { result ≡ has_first in_word text.now }
{
    match text {
        [b, ..] => in_word(*b),
        [] => false,
    }
}

// Whether the value goes on here.
fn has_more(text: &[u8]) -> bool
    ensures { result ≡ has_first in_value text.now }
{
    match text {
        [b, ..] => in_value(*b),
        [] => false,
    }
}

// Whether a word begins here, and no word comes after it.
fn is_last_word(text: &[u8]) -> bool
    ensures { result ≡ is_last_word text.now }
{
    has_word(text) && !has_word(next_word(text))
}

// The fields that a value lacks, from its third word on.
fn missing_ends(from: &[u8]) -> Option<&'static [u8]>
    ensures some { IfSome result (λ more. missing_ends from.now ≡ Some more.now) }
{
    if is_last_word(from) {
        Some(b" - 0 1")
    } else if is_last_word(next_word(next_word(from))) {
        Some(b" 1")
    } else {
        None
    }
}

// The standard's letter for a right by the file of the rook in its corner; another byte itself.
#[tactic(auto, unfolding(crate::specs::Fens::right))]
fn right(b: u8) -> u8
    ensures { result ≡ right b }
{
    match b {
        b'H' => b'K',
        b'A' => b'Q',
        b'h' => b'k',
        b'a' => b'q',
        b => b,
    }
}

// A right by a file, or in the standard's letters.
#[tactic(auto, unfolding(crate::specs::Fens::is_right))]
fn is_right(b: u8) -> bool
    ensures { result ≡ is_right b }
{
    matches!(b, b'A'..=b'H' | b'a'..=b'h' | b'K' | b'Q' | b'k' | b'q')
}

// Whether all are rights.
fn are_rights(field: &[u8]) -> bool
    ensures { result ≡ list_all is_right field.now }
{
    field.iter().all(|b| is_right(*b))
}

// Whether all are rights in the standard's letters, or the sign of none.
fn are_standard(field: &[u8]) -> bool {
    field
        .iter()
        .all(|b| matches!(*b, b'K' | b'Q' | b'k' | b'q' | b'-'))
}

// Whether the field has that right, in either way.
fn has_right(field: &[u8], wanted: u8) -> bool
    ensures { result ≡ list_any (λ b. right b == wanted) field.now }
{
    field.iter().any(|b| right(*b) == wanted)
}

// Adds that right, where the field has it.
fn push_right(rights: &mut ArrayVec<u8, 8>, field: &[u8], wanted: u8) -> Option<()>
    ensures { IfSome result (λ _. rights.new.items ≡ rights.old.items ++ if_right field.now wanted) }
{
    if has_right(field, wanted) {
        rights.try_push(wanted).ok()
    } else {
        Some(())
    }
}

// The rights of a field in the standard's letters.
fn standard_rights(field: &[u8]) -> Option<ArrayVec<u8, 8>>
    ensures { IfSome result (λ rights. rights.items ≡ standard_rights field.now) }
{
    let mut rights = ArrayVec::new();
    push_right(&mut rights, field, b'K')?;
    push_right(&mut rights, field, b'Q')?;
    push_right(&mut rights, field, b'k')?;
    push_right(&mut rights, field, b'q')?;
    if rights.is_empty() {
        rights.try_push(b'-').ok()?;
    }
    Some(rights)
}

// Three texts one after another.
fn joined<'a, A: Allocator>(
    alloc: &'a A,
    front: &[u8],
    put: &[u8],
    rest: &[u8],
) -> Result<Vec<u8, &'a A>, AllocError>
    ensures { IfOk result (λ text. text.items ≡ front.now ++ (put.now ++ rest.now)) }
{
    let mut text = Vec::new(alloc);
    text.extend_from_slice(front)?;
    text.extend_from_slice(put)?;
    text.extend_from_slice(rest)?;
    Ok(text)
}

// The tag with the fields that its value lacks; nothing where it lacks others.
fn longer<'a, A: Allocator>(
    alloc: &'a A,
    was: &[u8],
    value: &[u8],
) -> Result<Option<Vec<u8, &'a A>>, AllocError>
    ensures { IfOk result (λ found. IfSome found (λ text. IsLonger was.now value.now text.items)) }
{
    let end = value_end(value);
    let Some(more) = missing_ends(third(value)) else {
        return Ok(None);
    };
    let Some(front) = before(was, end) else {
        return Ok(None);
    };
    Ok(Some(joined(alloc, front, more, end)?))
}

// The tag with its castling rights in the standard's letters; nothing where none is by a file.
fn righted<'a, A: Allocator>(
    alloc: &'a A,
    was: &[u8],
    value: &[u8],
) -> Result<Option<Vec<u8, &'a A>>, AllocError>
    ensures { IfOk result (λ found. IfSome found (λ text. IsRighted was.now value.now text.items)) }
{
    let from = third(value);
    let rest = past_word(from);
    let (Some(front), Some(field)) = (before(was, from), before(from, rest)) else {
        return Ok(None);
    };
    if field.is_empty() || !are_rights(field) || are_standard(field) {
        return Ok(None);
    }
    let Some(rights) = standard_rights(field) else {
        return Ok(None);
    };
    Ok(Some(joined(alloc, front, rights.as_slice(), rest)?))
}

// What is written for a FEN tag with a value; nothing where it can't be mended.
fn written<'a, A: Allocator>(
    alloc: &'a A,
    was: &[u8],
    value: &[u8],
) -> Result<Option<Vec<u8, &'a A>>, AllocError>
    ensures { IfOk result (λ found. IfSome found (λ text. IsFenOf (Some value.now) was.now text.items)) }
{
    if !has_more(past_none(value)) {
        return Ok(Some(Vec::new(alloc)));
    }
    if let Some(text) = longer(alloc, was, value)? {
        return Ok(Some(text));
    }
    righted(alloc, was, value)
}

/// The FEN tag at the start of the text with the fields that its value lacks, or with castling rights in the standard's letters, or no tag where it has
/// no position; nothing where it can't be mended.
pub fn mend_fen<'t, 'a, A: Allocator>(
    alloc: &'a A,
    text: &'t [u8],
) -> Result<Option<MendedFen<'t, 'a, A>>, AllocError>
    ensures { IfOk result (λ found. IfSome found (λ fen. IsFen fen.was.now fen.text.items)) }
{
    let Some(length) = tag_len(text) else {
        return Ok(None);
    };
    let was = &text[..length.min(text.len())];
    let Some(value) = fen_value(was) else {
        return Ok(None);
    };
    match written(alloc, was, value)? {
        Some(text) => Ok(Some(MendedFen { was, text })),
        None => Ok(None),
    }
}
