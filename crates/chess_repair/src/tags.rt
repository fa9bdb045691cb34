//! Tags that can be read, and tags that are mended.

ghost use Rattle.std.specs.Prelude.{◌≡◌, ◌++◌, None, Some, false, IfOk, IfSome};
ghost use Rattle.std.specs.List.{list_all};
ghost use Rattle.chess_items.specs.Items.{in_line, is_escapable};
ghost use Rattle.chess_repair.specs.Runs.{past_end};
ghost use Rattle.chess_repair.specs.Tags.{IsTagMeant, after_bracket, after_quote, as_tag, begins_tag, closes_tag, escapes, first_name, has_name, is_kept, is_quote, is_rough_tag, is_trimmed, meant_name, meant_value, name_before_quote, opens_tag, rough_value, unclosed, with_escapes};

use crate::marks::{after, blanks, is_blank, is_name, last_of, len_to, name_len, without_blanks};
use crate::runs::{past_blanks, past_name};
use chess_items::is_escapable;
use std::alloc::{AllocError, Allocator};

/// A quotation mark.
#[tactic(auto, unfolding(crate::specs::Tags::is_quote))]
pub fn is_quote(b: u8) -> bool
    ensures { result ≡ is_quote b }
{
    b == b'"'
}

#[tactic(auto, unfolding(crate::specs::Tags::closes_tag))]
fn closes_tag(b: u8) -> bool
    ensures { result ≡ closes_tag b }
{
    b == b']'
}

// A byte of names, or one beyond ASCII.
#[tactic(auto, unfolding(crate::specs::Tags::is_kept))]
fn is_kept(b: u8) -> bool
    ensures { result ≡ is_kept b }
{
    is_name(b) || 128 <= b
}

// A byte that is trimmed from the end of a value.
#[tactic(auto, unfolding(crate::specs::Tags::is_trimmed))]
fn is_trimmed(b: u8) -> bool
    ensures { result ≡ is_trimmed b }
{
    is_blank(b) || is_quote(b)
}

// Whether a byte escapes the one after it (PGN 7): a backslash before a quotation mark or a backslash.
fn escapes(b: u8, next: &[u8]) -> bool
    ensures { result ≡ escapes b next.now }
{
    match next {
        [c, ..] => b == b'\\' && is_escapable(*c),
        [] => false,
    }
}

// The same of the byte at a place of a text.
fn escapes_at(text: &[u8], at: usize) -> bool {
    matches!(after(text, at), [b'\\', b'"' | b'\\', ..])
}

// How many bytes the value of a tag has up to its quotation mark, which isn't escaped; nothing where its line ends before.
fn value_len(text: &[u8]) -> Option<usize> {
    let mut is_escaped = false;
    for at in 0..text.len() {
        match text[at] {
            b'\n' => return None,
            b'"' if !is_escaped => return Some(at),
            _ => is_escaped = !is_escaped && escapes_at(text, at),
        }
    }
    None
}

/// How many bytes the tag at the start of a text has, where strict reading takes it (PGN 8.1).
pub fn tag_len(text: &[u8]) -> Option<usize> {
    let [b'[', inner @ ..] = text else {
        return None;
    };
    let name = after(inner, blanks(inner));
    let quote = after(name, name_len(name));
    if name_len(name) == 0 {
        return None;
    }
    let [b'"', value @ ..] = after(quote, blanks(quote)) else {
        return None;
    };
    let end = after(value, value_len(value)?);
    let close = after(end, 1);
    match after(close, blanks(close)) {
        [b']', rest @ ..] => Some(text.len().saturating_sub(rest.len())),
        _ => None,
    }
}

/// Whether a tag may begin with the text.
pub fn opens_tag(text: &[u8]) -> bool
    ensures { result ≡ opens_tag text.now }
{
    match text {
        [b, inner @ ..] => *b == b'['
            && match past_blanks(inner) {
                [c, ..] => is_name(*c),
                [] => false,
            },
        [] => false,
    }
}

// Whether a text begins with a name and a quotation mark.
fn has_name(text: &[u8]) -> bool
    ensures { result ≡ has_name text.now }
{
    match text {
        [b, ..] => is_name(*b)
            && match past_blanks(past_name(text)) {
                [c, ..] => is_quote(*c),
                [] => false,
            },
        [] => false,
    }
}

/// Whether a text begins with a tag, up to the quotation mark before its value.
pub fn begins_tag(text: &[u8]) -> bool
    ensures { result ≡ begins_tag text.now }
{
    match text {
        [b, inner @ ..] => *b == b'[' && has_name(past_blanks(inner)),
        [] => false,
    }
}

/// What is wrong with a tag.
#[derive(Clone, Copy, PartialEq, Eq)]
pub enum TagFault {
    /// It has no quotation marks, or bare ones within its value.
    Quotes,
    /// It has no right bracket.
    Bracket,
    /// Its name has other bytes than those of names.
    Name,
}

/// A tag that is mended.
#[derive(Drop)]
pub struct MendedTag<'t, 'a, A: Allocator> {
    /// The bytes that it is written for.
    pub was: &'t [u8],
    pub text: Vec<u8, &'a A>,
    pub fault: TagFault,
}

// How many bytes a tag has that can't be read, and why it can't.
#[derive(Clone, Copy)]
struct Extent {
    length: usize,
    fault: TagFault,
}

// How many blank bytes there are at the beginning, on the same line.
fn blanks_in_line(bytes: &[u8]) -> usize {
    bytes
        .iter()
        .take_while(|b| is_blank(**b) && **b != b'\n')
        .count()
}

// The first mark on the line that is a quotation mark and not escaped, with a right bracket after it: it ends a value whose quotation marks are bare. How many
// bytes come before it, and how many with the bracket.
fn first_end(value: &[u8]) -> Option<(usize, usize)> {
    let mut is_escaped = false;
    for at in 0..value.len() {
        if value[at] == b'\n' {
            return None;
        }
        if value[at] == b'"' && !is_escaped {
            let more = &value[at + 1..];
            if let [b']', tail @ ..] = after(more, blanks_in_line(more)) {
                return Some((at, value.len().saturating_sub(tail.len())));
            }
        }
        is_escaped = !is_escaped && escapes_at(value, at);
    }
    None
}

// A tag without quotation marks, on one line.
fn unquoted(text: &[u8]) -> Option<Extent> {
    let [b'[', inner @ ..] = text else {
        return None;
    };
    let start = after(inner, blanks_in_line(inner));
    let (name, more) = start.split_at(name_len(start).min(start.len()));
    let value = after(more, blanks_in_line(more));
    if name.is_empty() || blanks_in_line(more) == 0 {
        return None;
    }
    let len = value
        .iter()
        .take_while(|b| !matches!(**b, b'[' | b']' | b'{' | b'}' | b'\n'))
        .count();
    match after(value, len) {
        [b']', rest @ ..] => Some(Extent {
            length: text.len().saturating_sub(rest.len()),
            fault: TagFault::Quotes,
        }),
        _ => None,
    }
}

// A tag whose value isn't closed by a quotation mark before a right bracket: how many bytes its value has with what closes it.
fn rough_end(value: &[u8]) -> (usize, TagFault) {
    if let Some(at) = last_of(b']', value) {
        return (at.saturating_add(1), TagFault::Quotes);
    }
    match last_of(b'"', value) {
        Some(at) => (at.saturating_add(1), TagFault::Bracket),
        None => (value.len(), TagFault::Bracket),
    }
}

// A tag with quotation marks: its name comes before the first, which is after `quote` bytes.
fn quoted(text: &[u8], quote: usize) -> Option<Extent> {
    let (head, more) = text.split_at(quote.min(text.len()));
    let name = after(head, 1);
    let value = after(more, 1);
    if !name.iter().any(|b| is_name(*b)) || name.iter().any(|b| 128 <= *b) {
        return None;
    }
    let (end, fault) = match first_end(value) {
        Some((len, end)) if value_len(value) == Some(len) => (end, TagFault::Name),
        Some((_, end)) => (end, TagFault::Quotes),
        None => rough_end(without_blanks(&value[..len_to(b'\n', value).min(value.len())])),
    };
    Some(Extent {
        length: quote.saturating_add(1).saturating_add(end),
        fault,
    })
}

// What comes after the first quotation mark.
fn after_quote(text: &[u8]) -> Option<&[u8]>
    ensures some { IfSome result (λ rest. after_quote text.now ≡ Some rest.now) }
    ensures none { result ≡ None → after_quote text.now ≡ None }
{
    let mut rest = text;
    while let [b, more @ ..] = rest {
        if is_quote(*b) {
            return Some(more);
        }
        rest = more;
    }
    None
}

// What comes after the bracket at the beginning of a tag, and blanks.
fn after_bracket(tag: &[u8]) -> &[u8]
    ensures { result.now ≡ after_bracket tag.now }
{
    match tag {
        [_, inner @ ..] => past_blanks(inner),
        [] => tag,
    }
}

// Adds the bytes before the first quotation mark that a name keeps.
fn push_name_before_quote<'a, A: Allocator>(
    text: &mut Vec<u8, &'a A>,
    tag: &[u8],
) -> Result<(), AllocError>
    ensures { IfOk result (λ _. text.new.items ≡ text.old.items ++ name_before_quote tag.now) }
{
    let mut rest = tag;
    while let [b, more @ ..] = rest {
        if is_quote(*b) {
            break;
        }
        if is_kept(*b) {
            text.push(*b)?;
        }
        rest = more;
    }
    Ok(())
}

// Adds the bytes of names at the beginning.
fn push_first_name<'a, A: Allocator>(
    text: &mut Vec<u8, &'a A>,
    start: &[u8],
) -> Result<(), AllocError>
    ensures { IfOk result (λ _. text.new.items ≡ text.old.items ++ first_name start.now) }
{
    let mut rest = start;
    while let [b, more @ ..] = rest {
        if !is_name(*b) {
            break;
        }
        text.push(*b)?;
        rest = more;
    }
    Ok(())
}

// Adds the name of a tag.
fn push_name<'a, A: Allocator>(text: &mut Vec<u8, &'a A>, tag: &[u8]) -> Result<(), AllocError>
    ensures { IfOk result (λ _. text.new.items ≡ text.old.items ++ meant_name tag.now) }
{
    match after_quote(tag) {
        Some(_) => push_name_before_quote(text, tag),
        None => push_first_name(text, after_bracket(tag)),
    }
}

// What comes after the first quotation mark of a tag, or its name.
fn rough_value(tag: &[u8]) -> &[u8]
    ensures { result.now ≡ rough_value tag.now }
{
    match after_quote(tag) {
        Some(value) => value,
        None => past_name(after_bracket(tag)),
    }
}

// The text without one right bracket at its end.
fn unclosed(text: &[u8]) -> &[u8]
    ensures { result.now ≡ unclosed text.now }
{
    match text {
        [more @ .., b] => { if closes_tag(*b) { more } else { text } }
        [] => text,
    }
}

// The text without blanks and quotation marks at its end.
fn without_edges(text: &[u8]) -> &[u8]
    ensures { result.now ≡ past_end is_trimmed text.now }
{
    let mut rest = text;
    while let [more @ .., b] = rest {
        if !is_trimmed(*b) {
            break;
        }
        rest = more;
    }
    rest
}

// The value of a tag.
fn value_of(tag: &[u8]) -> &[u8]
    ensures { result.now ≡ meant_value tag.now }
{
    past_blanks(without_edges(unclosed(rough_value(tag))))
}

// Adds a value with its quotation marks and backslashes escaped.
fn push_escaped<'a, A: Allocator>(text: &mut Vec<u8, &'a A>, value: &[u8]) -> Result<(), AllocError>
    ensures { IfOk result (λ _. text.new.items ≡ text.old.items ++ with_escapes false value.now) }
{
    let mut is_escaped = false;
    let mut rest = value;
    while let [b, more @ ..] = rest {
        let begins = !is_escaped && escapes(*b, more);
        if !is_escaped && !begins && is_escapable(*b) {
            text.push(b'\\')?;
        }
        text.push(*b)?;
        is_escaped = begins;
        rest = more;
    }
    Ok(())
}

// The tag that is meant by a text.
fn text_of<'a, A: Allocator>(alloc: &'a A, tag: &[u8]) -> Result<Vec<u8, &'a A>, AllocError>
    ensures { IfOk result (λ text. text.items ≡ as_tag (meant_name tag.now) (meant_value tag.now)) }
{
    let mut text = Vec::new(alloc);
    text.push(b'[')?;
    push_name(&mut text, tag)?;
    text.extend_from_slice(b" \"")?;
    push_escaped(&mut text, value_of(tag))?;
    text.extend_from_slice(b"\"]")?;
    Ok(text)
}

// Whether a text is on one line, and begins with a left bracket.
fn is_rough_tag(text: &[u8]) -> bool
    ensures { result ≡ is_rough_tag text.now }
{
    match text {
        [b, more @ ..] => *b == b'[' && are_in_line(more),
        [] => false,
    }
}

// Whether no byte ends a line.
fn are_in_line(text: &[u8]) -> bool
    ensures { result ≡ list_all in_line text.now }
{
    text.iter().all(|b| *b != b'\n')
}

// How many bytes a tag has at the start of a text that strict reading refuses. Each call looks at as many bytes as the tag has, or at the rest of its line.
fn extent_of(text: &[u8]) -> Option<Extent> {
    let len = after(text, 1)
        .iter()
        .take_while(|b| !matches!(**b, b'"' | b'[' | b']' | b'\n'))
        .count()
        .saturating_add(1);
    match after(text, len) {
        [b'"', ..] => quoted(text, len),
        _ => unquoted(text),
    }
}

/// The tag that is meant at the start of a text where strict reading takes none; nothing where none is meant.
pub fn mend_tag<'t, 'a, A: Allocator>(
    alloc: &'a A,
    text: &'t [u8],
) -> Result<Option<MendedTag<'t, 'a, A>>, AllocError>
    ensures { IfOk result (λ found. IfSome found (λ tag. IsTagMeant tag.was.now tag.text.items)) }
{
    let Some(Extent { length, fault }) = extent_of(text) else {
        return Ok(None);
    };
    let was = &text[..length.min(text.len())];
    if !is_rough_tag(was) {
        return Ok(None);
    }
    Ok(Some(MendedTag {
        was,
        text: text_of(alloc, was)?,
        fault,
    }))
}
