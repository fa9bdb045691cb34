//! The texts of moves: the forms that strict reading takes, and a text with the same man and squares in such a form.

ghost use Rattle.std.specs.Prelude.{IfSome, List, ℕ};
ghost use Rattle.chess_repair.specs.Moves.{IsMove};
ghost use Rattle.chess_repair.specs.Repairs.{IsRepair};

use crate::marks::after;
use crate::repair::RepairKind;
use crate::senses::{ends_square, is_circle, is_piece, is_rank, says_the_same};
use arrayvec::ArrayVec;
use chess_items::is;

/// The most bytes of a move that is mended.
const MOST: usize = 14;

/// The text without the signs of check and mate at its end.
pub fn before_checks(text: &[u8]) -> &[u8] {
    let checks = text
        .iter()
        .rev()
        .take_while(|b| matches!(**b, b'+' | b'#'))
        .count();
    &text[..text.len().saturating_sub(checks)]
}

/// A file's letter.
pub fn is_file(b: u8) -> bool {
    matches!(b, b'a'..=b'h')
}

// The text without the man that a pawn is promoted to.
fn before_promotion(text: &[u8]) -> &[u8] {
    match text {
        [.., rank, b'=', piece] if is_rank(*rank) && is_piece(*piece) => &text[..text
            .len()
            .saturating_sub(2)],
        [.., rank, piece] if is_rank(*rank) && is_piece(*piece) => &text[..text
            .len()
            .saturating_sub(1)],
        _ => text,
    }
}

// What may come before a move's target, after the man.
fn is_origin(text: &[u8]) -> bool {
    match text {
        [] | [b'x'] => true,
        [a] | [a, b'x'] => is_file(*a) || is_rank(*a),
        [a, b] | [a, b, b'x'] => is_file(*a) && is_rank(*b),
        _ => false,
    }
}

fn is_path(text: &[u8]) -> bool {
    match text {
        [from @ .., file, rank] => is_file(*file) && is_rank(*rank) && is_origin(from),
        _ => false,
    }
}

/// Whether strict reading takes the text for a move, in some position: in SAN, or as two squares.
pub fn is_form(text: &[u8]) -> bool {
    let text = before_checks(text);
    if is(text, b"O-O") || is(text, b"O-O-O") || is(text, b"0-0") || is(text, b"0-0-0") {
        return true;
    }
    match text {
        [b'N' | b'B' | b'R' | b'Q' | b'K', path @ ..] => is_path(path),
        _ => is_path(before_promotion(text)),
    }
}

/// A move in a form that strict reading takes, and what was repaired.
#[derive(Drop)]
pub struct Mended {
    pub text: ArrayVec<u8, 16>,
    pub kind: RepairKind,
}

// A repair that leaves what the move says.
fn kept(word: &[u8], text: ArrayVec<u8, 16>, kind: RepairKind) -> Option<Mended>
    requires { (now : List ℕ) → IsMove kind word.now now → IsRepair kind word.now now }
    ensures { IfSome result (λ m. IsRepair m.kind word.now m.text.items) }
{
    if !says_the_same(kind, word, text.as_slice()) {
        return None;
    }
    Some(Mended { text, kind })
}

// Castling, without the signs of check: how many circles there are, joined by hyphens or not; 0 where it is something else.
fn circles(text: &[u8]) -> usize {
    match text {
        [a, b] | [a, b'-', b] if is_circle(*a) && is_circle(*b) => 2,
        [a, b, c] | [a, b'-', b, b'-', c] if is_circle(*a) && is_circle(*b) && is_circle(*c) => 3,
        _ => 0,
    }
}

// Castling as it is written, with the signs of check; nothing where it is something else. Zeros alone are a number.
fn castling(word: &[u8]) -> Option<ArrayVec<u8, 16>> {
    let bare = before_checks(word);
    if word.len() > MOST || bare.iter().all(|b| b.is_ascii_digit()) {
        return None;
    }
    let mut text = ArrayVec::new();
    match circles(bare) {
        2 => text.try_extend_from_slice(b"O-O").ok()?,
        3 => text.try_extend_from_slice(b"O-O-O").ok()?,
        _ => return None,
    }
    text.try_extend_from_slice(after(word, bare.len())).ok()?;
    Some(text)
}

// What is written for a byte of a move, between its neighbours; 0 for nothing.
fn plain_byte(before: Option<u8>, b: u8, next: Option<u8>) -> (u8, u8) {
    match b {
        b'-' | b'(' | b')' | b'/' | b'=' => (0, 0),
        b':' => (0, b'x'),
        b'P' if before.is_none() => (0, 0),
        b'n' | b'r' | b'q' | b'k' if before.is_none() => (0, b.to_ascii_uppercase()),
        b'A' | b'C'..=b'H' if before.is_none() && next.is_some_and(is_rank) => (
            0,
            b.to_ascii_lowercase(),
        ),
        _ if is_piece(b) && before.is_some_and(ends_square) && !next.is_some_and(is_rank) => (
            b'=',
            b.to_ascii_uppercase(),
        ),
        _ => (0, b),
    }
}

// The move with the same man and squares, without other signs.
fn plain(word: &[u8]) -> Option<ArrayVec<u8, 16>> {
    if word.len() > MOST {
        return None;
    }
    let mut text = ArrayVec::new();
    let mut before = None;
    for at in 0..word.len() {
        let next = after(word, at).get(1).copied();
        let (first, second) = plain_byte(before, word[at], next);
        if first != 0 {
            text.try_push(first).ok()?;
        }
        if second != 0 {
            text.try_push(second).ok()?;
        }
        before = Some(word[at]);
    }
    Some(text)
}

// What was repaired.
fn kind_of(word: &[u8]) -> RepairKind
    ensures { (now : List ℕ) → IsMove result word.now now → IsRepair result word.now now }
{
    match word {
        [b'P', ..] => RepairKind::Pawn,
        [b'n' | b'r' | b'q' | b'k', ..] => RepairKind::Small,
        [b'A' | b'C'..=b'H', ..] => RepairKind::Large,
        _ if word.contains(&b'-') => RepairKind::Hyphen,
        _ if word.contains(&b':') => RepairKind::Colon,
        _ => RepairKind::Promotion,
    }
}

/// The move that a text means which is none in a strict form; nothing where it means no move.
pub fn mend(word: &[u8]) -> Option<Mended>
    ensures { IfSome result (λ m. IsRepair m.kind word.now m.text.items) }
{
    if let Some(text) = castling(word) {
        return kept(word, text, RepairKind::Castling);
    }
    let text = plain(word)?;
    if !is_form(text.as_slice()) {
        return None;
    }
    kept(word, text, kind_of(word))
}
