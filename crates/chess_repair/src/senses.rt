//! The meaning of a move's text, and the comparison of two such texts.

ghost use Rattle.std.specs.Prelude.{◌≡◌, ◌++◌, true, IfSome};
ghost use Rattle.chess_repair.specs.Moves.{IsMove, capital, ends_square, first_meant, has_rank_next, is_circle, is_large, is_piece, is_rank, is_sign, is_small, byte_marks, meant, move_marks, small};

use crate::repair::RepairKind;
use arrayvec::ArrayVec;

/// A rank's digit.
#[tactic(auto, unfolding(crate::specs::Moves::is_rank))]
pub fn is_rank(b: u8) -> bool
    ensures { result ≡ is_rank b }
{
    matches!(b, b'1'..=b'8')
}

/// The letter of a man that a pawn may become, of either size.
#[tactic(auto, unfolding(crate::specs::Moves::is_piece))]
pub fn is_piece(b: u8) -> bool
    ensures { result ≡ is_piece b }
{
    matches!(b, b'Q' | b'R' | b'B' | b'N' | b'q' | b'r' | b'b' | b'n')
}

/// A byte that may come before the man of a promotion: the rank of its square, or a sign.
#[tactic(auto, unfolding(crate::specs::Moves::ends_square))]
pub fn ends_square(b: u8) -> bool
    ensures { result ≡ ends_square b }
{
    matches!(b, b'1' | b'8' | b'=' | b'/' | b'(')
}

/// A circle of castling.
#[tactic(auto, unfolding(crate::specs::Moves::is_circle))]
pub fn is_circle(b: u8) -> bool
    ensures { result ≡ is_circle b }
{
    matches!(b, b'O' | b'o' | b'0')
}

// A sign between the parts of a move.
#[tactic(auto, unfolding(crate::specs::Moves::is_sign))]
fn is_sign(b: u8) -> bool
    ensures { result ≡ is_sign b }
{
    matches!(b, b'-' | b':' | b'x' | b'=' | b'(' | b')' | b'/')
}

#[tactic(auto, unfolding(crate::specs::Moves::capital))]
fn capital(b: u8) -> u8
    ensures { result ≡ capital b }
{
    match b {
        b'a'..=b'z' => b - 32,
        b => b,
    }
}

#[tactic(auto, unfolding(crate::specs::Moves::small))]
fn small(b: u8) -> u8
    ensures { result ≡ small b }
{
    match b {
        b'A'..=b'Z' => b + 32,
        b => b,
    }
}

// A man's letter that is small.
#[tactic(auto, unfolding(crate::specs::Moves::is_small))]
fn is_small(b: u8) -> bool
    ensures { result ≡ is_small b }
{
    matches!(b, b'n' | b'r' | b'q' | b'k')
}

// A file's letter that is large.
#[tactic(auto, unfolding(crate::specs::Moves::is_large))]
fn is_large(b: u8) -> bool
    ensures { result ≡ is_large b }
{
    matches!(b, b'A' | b'C'..=b'H')
}

// Whether a rank's digit comes next.
fn has_rank_next(more: &[u8]) -> bool
    ensures { result ≡ has_rank_next more.now }
{
    match more {
        [b, ..] => is_rank(*b),
        [] => false,
    }
}

/// The meaning of a move's text.
type Marks = ArrayVec<u8, 32>;

// Adds the meaning of a byte between its neighbours.
fn push_mark(marks: &mut Marks, before: u8, b: u8, more: &[u8]) -> Option<()>
    ensures { IfSome result (λ _. marks.new.items ≡ marks.old.items ++ byte_marks before b more.now) }
{
    if is_piece(b) && ends_square(before) && !has_rank_next(more) {
        marks.try_push(b'=').ok()?;
        marks.try_push(capital(b)).ok()
    } else if is_sign(b) {
        Some(())
    } else if is_circle(b) {
        marks.try_push(b'O').ok()
    } else {
        marks.try_push(b).ok()
    }
}

// The meaning of a move's text; `None` if the text is too long.
fn said(text: &[u8]) -> Option<Marks>
    ensures { IfSome result (λ marks. marks.items ≡ move_marks text.now) }
{
    let mut marks = ArrayVec::new();
    let mut before = 0u8;
    let mut rest = text;
    while let [b, more @ ..] = rest {
        push_mark(&mut marks, before, *b, more)?;
        before = *b;
        rest = more;
    }
    Some(marks)
}

// Adds the first byte of a move as a kind of repair reads it.
fn push_first(text: &mut Marks, kind: RepairKind, b: u8, more: &[u8]) -> Option<()>
    ensures { IfSome result (λ _. text.new.items ≡ text.old.items ++ first_meant kind b more.now) }
{
    match kind {
        RepairKind::Pawn if b == b'P' => Some(()),
        RepairKind::Small if is_small(b) => text.try_push(capital(b)).ok(),
        RepairKind::Large if is_large(b) && has_rank_next(more) => text.try_push(small(b)).ok(),
        _ => text.try_push(b).ok(),
    }
}

// The text of a move as a kind of repair reads it.
fn meant(kind: RepairKind, word: &[u8]) -> Option<Marks>
    ensures { IfSome result (λ text. text.items ≡ meant kind word.now) }
{
    let mut text = ArrayVec::new();
    if let [b, more @ ..] = word {
        push_first(&mut text, kind, *b, more)?;
        text.try_extend_from_slice(more).ok()?;
    }
    Some(text)
}

/// Whether a text surely has the meaning of a word, which a kind of repair reads.
pub fn says_the_same(kind: RepairKind, word: &[u8], text: &[u8]) -> bool
    ensures { result ≡ true → IsMove kind word.now text.now }
{
    let Some(meant) = meant(kind, word) else {
        return false;
    };
    match (said(meant.as_slice()), said(text)) {
        (Some(was), Some(now)) => was.as_slice() == now.as_slice(),
        _ => false,
    }
}
