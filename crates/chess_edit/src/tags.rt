//! A game's tags set and cleared by their rules (PGN 8.1), and why a tag isn't set.

ghost use Rattle.std.specs.Prelude.{◌≡◌, Some, OnOk, OnErr, IfOk, option_map};
ghost use Rattle.chess_pgn.specs.Games.{tag_value, unknown};
ghost use Rattle.chess_edit.specs.SetTags.{IsSet, IsTagAnswer, is_tag_name, tag_answer, is_derived};
ghost use Rattle.chess_items.specs.Items.{in_line, is_digit, is_letter, is_name_byte};
ghost use Rattle.std.specs.List.{list_all};
ghost use Rattle.chess_pgn.specs.steps.GameCode.{tags_of};

use chess_items::is;
use chess_pgn::Tags;
use std::alloc::{AllocError, Allocator};
use thiserror::Error;

/// Why a tag isn't set (PGN 8.1).
#[derive(Clone, Copy, Debug, PartialEq, Eq, Error)]
pub enum TagFault {
    /// The name is empty, or has a byte that is no letter, digit or underscore.
    #[error("a tag's name has letters, digits and underscores")]
    BadName,
    /// The tag says how the game ended or where it begins, which the game itself says: Result, FEN, SetUp.
    #[error("the game itself has its result and its start")]
    OwnTag,
    /// The value goes on in another line.
    #[error("a tag's value is on one line")]
    BadValue,
    /// There is no memory.
    #[error("there is no memory")]
    Memory,
}

// A digit.
#[tactic(auto, unfolding(chess_items::specs::Items::is_digit))]
fn is_digit(b: u8) -> bool
    ensures { result ≡ is_digit b }
{
    b.is_ascii_digit()
}

// A letter.
fn is_letter(b: u8) -> bool
    ensures { result ≡ is_letter b }
{
    b.is_ascii_alphabetic()
}

// A byte of a tag's name.
#[tactic(auto, unfolding(chess_items::specs::Items::is_name_byte))]
fn is_name_byte(b: u8) -> bool
    ensures { result ≡ is_name_byte b }
{
    is_digit(b) | is_letter(b) | (b == b'_')
}

// Whether each byte is one of a tag's name.
fn has_name_bytes(name: &[u8]) -> bool
    ensures { result ≡ list_all is_name_byte name.now }
{
    name.iter().all(|b| is_name_byte(*b))
}

// Whether it is the name of a tag.
fn is_named(name: &[u8]) -> bool
    ensures { result ≡ is_tag_name name.now }
{
    !name.is_empty() && has_name_bytes(name)
}

// Whether the game itself says what the tag says.
fn is_derived(name: &[u8]) -> bool
    ensures { result ≡ is_derived name.now }
{
    is(name, b"Result") || is(name, b"FEN") || is(name, b"SetUp")
}

// Whether the text is on one line.
fn is_on_line(text: &[u8]) -> bool
    ensures { result ≡ list_all in_line text.now }
{
    text.iter().all(|b| *b != b'\n')
}

/// The first thing wrong with a tag of that name and value, as `set_tag` finds it.
///
/// # Errors
///
/// Those of `set_tag` but `Memory`.
pub fn check_tag(name: &[u8], value: &[u8]) -> Result<(), TagFault>
    ensures { result ≡ tag_answer name.now value.now }
{
    if !is_named(name) {
        return Err(TagFault::BadName);
    }
    if is_derived(name) {
        return Err(TagFault::OwnTag);
    }
    if !is_on_line(value) {
        return Err(TagFault::BadValue);
    }
    Ok(())
}

// A text of one's own.
fn owned<'a, A: Allocator>(alloc: &'a A, text: &[u8]) -> Result<Vec<u8, &'a A>, AllocError>
    ensures { IfOk result (λ owned. owned.items ≡ text.now) }
{
    let mut owned = Vec::new(alloc);
    owned.extend_from_slice(text)?;
    Ok(owned)
}

// The tag of that name with the value.
fn put<'a, A: Allocator>(
    alloc: &'a A,
    tags: &mut Tags<'a, A>,
    name: &[u8],
    value: Vec<u8, &'a A>,
) -> Result<(), AllocError>
    ensures ok { OnOk result (IsSet name.now (Some value.entry.items) (tags_of tags.old) (tags_of tags.new)) }
    ensures err { OnErr result (tags_of tags.new ≡ tags_of tags.old) }
{
    if is(name, b"Event") {
        tags.event = value;
    } else if is(name, b"Site") {
        tags.site = value;
    } else if is(name, b"Date") {
        tags.date = value;
    } else if is(name, b"Round") {
        tags.round = value;
    } else if is(name, b"White") {
        tags.white = value;
    } else if is(name, b"Black") {
        tags.black = value;
    } else {
        let name = owned(alloc, name)?;
        tags.others.insert(name, value)?;
    }
    Ok(())
}

/// Gives the tag of that name the value, whether or not the game has it yet (PGN 8.1). The name has letters, digits and underscores; the
/// value is any text on one line, as it is to be read: `write_game` writes what stands for a quotation mark or a backslash.
///
/// # Errors
///
/// `BadName`, else `OwnTag` of Result, FEN and SetUp, else `BadValue`, else `Memory` where there is none. The tags are then as before.
pub fn set_tag<'a, A: Allocator>(
    alloc: &'a A,
    tags: &mut Tags<'a, A>,
    name: &[u8],
    value: &[u8],
) -> Result<(), TagFault>
    ensures answer { IsTagAnswer (tag_answer name.now value.now) result }
    ensures ok { OnOk result (IsSet name.now (Some value.now) (tags_of tags.old) (tags_of tags.new)) }
    ensures err { OnErr result (tags_of tags.new ≡ tags_of tags.old) }
{
    check_tag(name, value)?;
    let Ok(value) = owned(alloc, value) else {
        return Err(TagFault::Memory);
    };
    match put(alloc, tags, name, value) {
        Ok(()) => Ok(()),
        Err(_) => Err(TagFault::Memory),
    }
}

/// The value of a tag that each game has besides Result, where nothing is known (PGN 8.1.1); `None` of any other name.
#[tactic(auto, unfolding(chess_pgn::specs::Games::tag_value))]
pub fn unknown_value(name: &[u8]) -> Option<&'static [u8]>
    ensures { option_map (λ value. value.now) result ≡ tag_value name.now unknown }
{
    if is(name, b"Event") {
        Some(b"?")
    } else if is(name, b"Site") {
        Some(b"?")
    } else if is(name, b"Date") {
        Some(b"????.??.??")
    } else if is(name, b"Round") {
        Some(b"?")
    } else if is(name, b"White") {
        Some(b"?")
    } else if is(name, b"Black") {
        Some(b"?")
    } else {
        None
    }
}

/// Takes the tag of that name out; one of the six that each game has besides Result says that nothing is known: `?`, and `????.??.??` for the date
/// (PGN 8.1.1).
///
/// # Errors
///
/// Want of memory. The tags are then as before.
pub fn clear_tag<'a, A: Allocator>(
    alloc: &'a A,
    tags: &mut Tags<'a, A>,
    name: &[u8],
) -> Result<(), AllocError>
    ensures ok { OnOk result (IsSet name.now (tag_value name.now unknown) (tags_of tags.old) (tags_of tags.new)) }
    ensures err { OnErr result (tags_of tags.new ≡ tags_of tags.old) }
{
    let Some(value) = unknown_value(name) else {
        let _gone = tags.others.remove(name);
        return Ok(());
    };
    let value = owned(alloc, value)?;
    put(alloc, tags, name, value)
}
