//! A game written in export form (PGN 3.2): its tags in order, then its movetext.

ghost use Rattle.std.specs.Prelude.{◌≡◌, ◌++◌, ◌∷◌, [], if◌then◌else◌, bytes_eq, option_map, IfOk, IfErr, OnOk};
ghost use Rattle.chess_items.specs.declared.fault.FaultKind.TheVariants.{Memory};
ghost use Rattle.chess_fen.specs.Writing.{written};
ghost use Rattle.chess_types.specs.board.Position.{PositionParts, start};
ghost use Rattle.chess_pgn.specs.Games.{untagged};
ghost use Rattle.chess_pgn.specs.Written.{other_tags_text, escaped, game_text, is_before, is_within, others_text, tag_text, tags_text};
ghost use Rattle.chess_pgn.specs.steps.GameCode.{game_of, tags_of};

use crate::game::Game;
use crate::lines::Lines;
use crate::movetext::push_movetext;
use crate::others::OtherTags;
use crate::speller::Halt;
use crate::tags::Tags;
use crate::texts::Texts;
use crate::usual::start_of;
use chess_items::{Outcome, PgnFault, is_escapable};
use chess_tree::Tree;
use std::alloc::{AllocError, Allocator};

/// The bytes for which a text has room before it is written, so that a short game's grows once.
const ROOM: usize = 1024;

// A byte of a value.
fn push_byte<'a, A: Allocator>(text: &mut Vec<u8, &'a A>, b: u8) -> Result<(), AllocError>
    ensures { OnOk result (text.new.items ≡ text.old.items ++ escaped (b ∷ [])) }
{
    if is_escapable(b) {
        text.push(b'\\')?;
        text.push(b)?;
        return Ok(());
    }
    text.push(b)?;
    Ok(())
}

// A value between quotation marks.
fn push_escaped<'a, A: Allocator>(text: &mut Vec<u8, &'a A>, value: &[u8]) -> Result<(), AllocError>
    ensures { OnOk result (text.new.items ≡ text.old.items ++ escaped value.now) }
{
    for b in value {
        push_byte(text, *b)?;
    }
    Ok(())
}

// A tag.
fn push_tag<'a, A: Allocator>(
    text: &mut Vec<u8, &'a A>,
    name: &[u8],
    value: &[u8],
) -> Result<(), AllocError>
    ensures { OnOk result (text.new.items ≡ text.old.items ++ tag_text name.now value.now) }
{
    text.push(b'[')?;
    text.extend_from_slice(name)?;
    text.extend_from_slice(b" \"")?;
    push_escaped(text, value)?;
    text.extend_from_slice(b"\"]\n")
}

// Whether a name comes before another in ASCII order.
fn is_before(name: &[u8], next: &[u8]) -> bool
    ensures { result ≡ is_before name.now next.now }
{
    name < next
}

// Whether a name is this one or comes after it, and comes before the other, if there is one.
fn is_within(from: &[u8], to: Option<&[u8]>, name: &[u8]) -> bool
    ensures { result ≡ is_within from.now (option_map (λ next. next.now) to.entry) name.now }
{
    if is_before(name, from) {
        return false;
    }
    match to {
        Some(next) => is_before(name, next),
        None => true,
    }
}

// A tag, if its name is within those bounds.
fn push_within<'a, A: Allocator>(
    text: &mut Vec<u8, &'a A>,
    from: &[u8],
    to: Option<&[u8]>,
    name: &[u8],
    value: &[u8],
) -> Result<(), AllocError>
    ensures { OnOk result (text.new.items ≡ text.old.items ++ (if is_within from.now (option_map (λ next. next.now) to.entry) name.now then tag_text name.now value.now else [])) }
{
    if is_within(from, to, name) {
        return push_tag(text, name, value);
    }
    Ok(())
}

// The other tags whose names are within those bounds.
fn push_others<'a, A: Allocator>(
    text: &mut Vec<u8, &'a A>,
    from: &[u8],
    to: Option<&[u8]>,
    others: &OtherTags<'a, A>,
) -> Result<(), AllocError>
    ensures { OnOk result (text.new.items ≡ text.old.items ++ others_text from.now (option_map (λ next. next.now) to.entry) others.now) }
{
    for (name, value) in others.as_map().iter() {
        push_within(text, from, to, name.as_slice(), value.as_slice())?;
    }
    Ok(())
}

// The other tags, and among them the FEN of the position in which a game begins, unless it is the usual one.
fn push_other_tags<'a, A: Allocator>(
    text: &mut Vec<u8, &'a A>,
    others: &OtherTags<'a, A>,
    fen: &[u8],
    is_usual: bool,
) -> Result<(), AllocError>
    requires usual { is_usual ≡ bytes_eq fen.now (written start) }
    ensures { OnOk result (text.new.items ≡ text.old.items ++ other_tags_text others.now fen.now) }
{
    if is_usual {
        return push_others(text, b"", None, others);
    }
    push_others(text, b"", Some(b"FEN"), others)?;
    push_tag(text, b"FEN", fen)?;
    push_others(text, b"FEN", Some(b"SetUp"), others)?;
    push_tag(text, b"SetUp", b"1")?;
    push_others(text, b"SetUp", None, others)
}

// All tags.
fn push_tags<'a, A: Allocator>(
    text: &mut Vec<u8, &'a A>,
    tags: &Tags<'a, A>,
    outcome: Outcome,
    fen: &[u8],
    is_usual: bool,
) -> Result<(), AllocError>
    requires usual { is_usual ≡ bytes_eq fen.now (written start) }
    ensures { (p : PositionParts) → fen.now ≡ written p → OnOk result (text.new.items ≡ text.old.items ++ tags_text (tags_of tags.now) outcome p) }
{
    push_tag(text, b"Event", tags.event.as_slice())?;
    push_tag(text, b"Site", tags.site.as_slice())?;
    push_tag(text, b"Date", tags.date.as_slice())?;
    push_tag(text, b"Round", tags.round.as_slice())?;
    push_tag(text, b"White", tags.white.as_slice())?;
    push_tag(text, b"Black", tags.black.as_slice())?;
    push_tag(text, b"Result", outcome.marker().as_bytes())?;
    push_other_tags(text, &tags.others, fen, is_usual)
}

// The tags, an empty line, the movetext in lines of at most 79 bytes, and an empty line; by the texts of the moves, if they are given.
fn write_by<'a, A: Allocator>(
    alloc: &'a A,
    tags: &Tags<'a, A>,
    outcome: Outcome,
    tree: &Tree<'a, A>,
    texts: Option<&Texts<'a, A>>,
) -> Result<Vec<u8, &'a A>, Halt>
    ensures { IfOk result (λ text. text.items ≡ game_text (record { tags = tags_of tags.now; outcome = outcome; tree = tree.now.tree })) }
{
    let (fen, is_usual) = start_of(tree);
    let mut text = Vec::new(alloc);
    text.reserve(ROOM)?;
    push_tags(&mut text, tags, outcome, fen.as_bytes(), is_usual)?;
    let known = if is_usual { texts } else { None };
    let lines = push_movetext(Lines::new(text)?, alloc, tree, outcome, known)?;
    Ok(lines.finish()?)
}

// The same, by the texts that are known, if there are any. Where they are others than those of the game's moves, these are made.
fn write_parts<'a, A: Allocator>(
    alloc: &'a A,
    tags: &Tags<'a, A>,
    outcome: Outcome,
    tree: &Tree<'a, A>,
    texts: &Texts<'a, A>,
) -> Result<Vec<u8, &'a A>, PgnFault>
    ensures ok { IfOk result (λ text. text.items ≡ game_text (record { tags = tags_of tags.now; outcome = outcome; tree = tree.now.tree })) }
    ensures memory { IfErr result (λ fault. fault ≡ record { place = 0; kind = Memory }) }
{
    if !texts.is_empty() {
        match write_by(alloc, tags, outcome, tree, Some(texts)) {
            Ok(text) => return Ok(text),
            Err(Halt::Memory) => return Err(AllocError.into()),
            Err(Halt::Unknown) => {}
        }
    }
    match write_by(alloc, tags, outcome, tree, None) {
        Ok(text) => Ok(text),
        Err(_) => Err(AllocError.into()),
    }
}

/// The same as `write_game`, by the texts of moves that `Games::next_with` has found out, whichever they are: where they are those of
/// the game's moves, these need not be made.
///
/// # Errors
///
/// `Memory` at place 0, where there is none.
pub fn write_game_with<'a, A: Allocator>(
    alloc: &'a A,
    game: &Game<'a, A>,
    texts: &Texts<'a, A>,
) -> Result<Vec<u8, &'a A>, PgnFault>
    ensures ok { IfOk result (λ text. text.items ≡ game_text (game_of game.now)) }
    ensures memory { IfErr result (λ fault. fault ≡ record { place = 0; kind = Memory }) }
{
    write_parts(alloc, &game.tags, game.result, &game.tree, texts)
}

/// The export form of a game (PGN 3.2): its tags, an empty line, the movetext in lines of at most 79 bytes, and an empty line.
///
/// # Errors
///
/// `Memory` at place 0, where there is none.
pub fn write_game<'a, A: Allocator>(
    alloc: &'a A,
    game: &Game<'a, A>,
) -> Result<Vec<u8, &'a A>, PgnFault>
    ensures ok { IfOk result (λ text. text.items ≡ game_text (game_of game.now)) }
    ensures memory { IfErr result (λ fault. fault ≡ record { place = 0; kind = Memory }) }
{
    write_game_with(alloc, game, &Texts::unwanted(alloc))
}

/// The export form of a game by its parts: its tags, how it ended, and its moves.
///
/// # Errors
///
/// `Memory` at place 0, where there is none.
pub fn write_as<'a, A: Allocator>(
    alloc: &'a A,
    tags: &Tags<'a, A>,
    outcome: Outcome,
    tree: &Tree<'a, A>,
) -> Result<Vec<u8, &'a A>, PgnFault>
    ensures ok { IfOk result (λ text. text.items ≡ game_text (record { tags = tags_of tags.now; outcome = outcome; tree = tree.now.tree })) }
    ensures memory { IfErr result (λ fault. fault ≡ record { place = 0; kind = Memory }) }
{
    write_parts(alloc, tags, outcome, tree, &Texts::unwanted(alloc))
}

/// The export form of a game of which the moves are known and nothing else: tags `?`, and `*` for how it ended.
///
/// # Errors
///
/// `Memory` at place 0, where there is none.
pub fn write_tree<'a, A: Allocator>(
    alloc: &'a A,
    tree: &Tree<'a, A>,
) -> Result<Vec<u8, &'a A>, PgnFault>
    ensures ok { IfOk result (λ text. text.items ≡ game_text (untagged tree.now.tree)) }
    ensures memory { IfErr result (λ fault. fault ≡ record { place = 0; kind = Memory }) }
{
    let tags = Tags::unknown(alloc)?;
    write_as(alloc, &tags, Outcome::Unfinished, tree)
}
