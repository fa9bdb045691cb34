//! What is done where strict reading refuses an item of a spelled text: it is written otherwise, or the rest of its line is cut off.

ghost use Rattle.std.specs.Prelude.{◌≡◌, IfOk, IfSome};
ghost use Rattle.chess_repair.specs.Spelled.{IsRewritten};

use crate::fen::mend_fen;
use crate::marks::{is_blank, last_of, len_to, without_blanks};
use crate::moves::is_form;
use crate::pen::Pen;
use crate::repair::RepairKind;
use crate::spelling::Spelled;
use crate::words::{castling_of, is_marker, is_null};
use chess_items::{FaultKind, PgnFault};
use std::alloc::{AllocError, Allocator};

/// What is written before what is cut off.
const CUT: &[u8] = b"cut: ";

// How many bytes the word at the start of the text has: up to whitespace, a bracket or a brace.
fn word_len(text: &[u8]) -> usize {
    text.iter()
        .take_while(|b| !is_blank(**b)
            && !matches!(**b, b'(' | b')' | b'{' | b'}' | b';' | b'[' | b']'))
        .count()
}

// How many bytes the item at the start of the text has: a comment, or a word, or one byte.
fn item_len(text: &[u8]) -> usize {
    match text {
        [] => 0,
        [b'{', ..] => len_to(b'}', text).saturating_add(1),
        [b';', ..] => len_to(b'\n', text).saturating_add(1),
        _ => word_len(text).max(1),
    }
}

// Whether the game ends with the item.
fn is_end(item: &[u8]) -> bool {
    matches!(item, [b'*', ..]) || is_marker(item)
}

// How many bytes the rest of a line at the start of the text has, or the variation that begins there: what comes before the right parenthesis that ends
// it, the marker of the game's end, or the text's.
fn line_len(text: &[u8]) -> usize {
    let is_variation = text.first() == Some(&b'(');
    let mut rest = text;
    let mut depth = 0u32;
    for _ in 0..text.len() {
        let (item, next) = rest.split_at(item_len(rest).min(rest.len()));
        match item {
            [] => break,
            [b'(', ..] => depth = depth.saturating_add(1),
            [b')', ..] => {
                if depth == 0 {
                    break;
                }
                depth -= 1;
                if is_variation && depth == 0 {
                    return text.len().saturating_sub(next.len());
                }
            }
            _ => {
                if is_end(item) {
                    break;
                }
            }
        }
        rest = next;
    }
    text.len().saturating_sub(rest.len())
}

// Cuts off the rest of a line, or a variation.
fn cut_off<A: Allocator>(pen: &mut Pen<'_, '_, A>, line: &[u8]) -> Result<(), AllocError>
    ensures { pen.new ≡ pen.old }
{
    let word = &line[..word_len(line).min(line.len())];
    if line.first() == Some(&b'(') {
        pen.quote(line, RepairKind::Variation, CUT)
    } else if is_null(word) {
        pen.quote(line, RepairKind::Null, CUT)
    } else if is_form(word) {
        pen.quote(line, RepairKind::Illegal, CUT)
    } else {
        pen.quote(line, RepairKind::Unreadable, CUT)
    }
}

// Writes the text anew where its reading stopped, at that place. False where nothing can be done.
fn mend_move<A: Allocator>(pen: &mut Pen<'_, '_, A>, place: usize) -> Result<bool, AllocError>
    ensures { pen.new ≡ pen.old }
{
    pen.keep(place)?;
    let rest = pen.rest();
    let word = &rest[..word_len(rest).min(rest.len())];
    if let Some(castling) = castling_of(word) {
        pen.mend(word, RepairKind::Squares, castling)?;
        return Ok(true);
    }
    let line = without_blanks(&rest[..line_len(rest).min(rest.len())]);
    if line.is_empty() {
        return Ok(false);
    }
    cut_off(pen, line)?;
    Ok(true)
}

// The same of a FEN that spells no position, in its tag's value.
fn mend_start<A: Allocator>(
    alloc: &A,
    pen: &mut Pen<'_, '_, A>,
    place: usize,
) -> Result<bool, AllocError>
    ensures { pen.new ≡ pen.old }
{
    let text = pen.rest();
    let Some(at) = last_of(b'[', &text[..place.saturating_add(1).min(text.len())]) else {
        return Ok(false);
    };
    pen.keep(at)?;
    match mend_fen(alloc, pen.rest())? {
        None => Ok(false),
        Some(fen) => {
            pen.mend(fen.was, RepairKind::Fen, fen.text.as_slice())?;
            Ok(true)
        }
    }
}

/// The spelled text with what strict reading refused there mended or cut off; nothing where that can't be.
///
/// # Errors
///
/// There is no memory.
pub fn mend_at<'a, A: Allocator>(
    alloc: &'a A,
    text: &[u8],
    fault: PgnFault,
) -> Result<Option<Spelled<'a, A>>, AllocError>
    ensures { IfOk result (λ found. IfSome found (λ s. IsRewritten text.now s)) }
{
    let Ok(place) = usize::try_from(fault.place) else {
        return Ok(None);
    };
    let mut pen = Pen::new(alloc, text);
    let is_mended = match fault.kind {
        FaultKind::Move | FaultKind::Token | FaultKind::Variation | FaultKind::Deep => mend_move(
            &mut pen, place,
        )?,
        FaultKind::Fen => mend_start(alloc, &mut pen, place)?,
        _ => false,
    };
    if !is_mended {
        return Ok(None);
    }
    let rest = pen.rest().len();
    pen.keep(rest)?;
    let (text, repairs, used) = pen.finish();
    Ok(Some(Spelled {
        text,
        repairs,
        used,
    }))
}
