//! How a list of moves and a set of squares are written, with single spaces.

ghost use Rattle.std.specs.Prelude.{◌≡◌, ◌+◌, ◌≤◌, ◌∷◌, ◌++◌, filter, length, map};
ghost use Rattle.std.specs.FinSet.{contains};
ghost use Rattle.arrayvec.specs.ArrayString.{array_string_len};
ghost use Rattle.chess_types.specs.board.Squares.{squares};
ghost use Rattle.chess_types.specs.board.Texts.{move_text, square_text};
ghost use Rattle.chess_cli.specs.Answers.{list_text};
ghost use Rattle.chess_cli.specs.steps.Lists.{with_another};

use arrayvec::ArrayString;
use chess_loop::OutputBuffer;
use chess_types::{Move, Square, SquareSet};
use std::alloc::Allocator;

// Another text, after a space where it isn't the first.
fn push_word<const N: usize>(text: &mut ArrayString<N>, next: &str)
    requires { array_string_len text.old + 1 + length next.now ≤ N }
    ensures bytes { text.new.bytes ≡ with_another text.old.bytes next.now }
    ensures len { array_string_len text.new ≤ array_string_len text.old + 1 + length next.now }
{
    if text.is_empty() {
        text.push_str(next);
    } else {
        text.push_str(" ");
        text.push_str(next);
    }
}

// The name of a square.
#[inline(always)]
fn push_square(text: &mut ArrayString<128>, square: Square)
    requires { array_string_len text.old + 2 ≤ 128 }
    ensures bytes { text.new.bytes ≡ text.old.bytes ++ square_text square }
    ensures len { array_string_len text.new ≡ array_string_len text.old + 2 }
{
    text.push(char::from(b'a' + square.file()));
    text.push(char::from(b'1' + square.rank()));
}

// The text of a move.
#[inline(always)]
fn push_move(text: &mut ArrayString<128>, m: Move)
    requires { array_string_len text.old + 5 ≤ 128 }
    ensures bytes { text.new.bytes ≡ text.old.bytes ++ move_text m }
    ensures len { array_string_len text.new ≤ array_string_len text.old + 5 }
{
    push_square(text, m.from);
    push_square(text, m.to);
    if let Some(kind) = m.promo {
        text.push(kind.letter());
    }
}

// Another move, after a space. What was gathered goes on the page first where there is no room for it.
#[inline(always)]
fn gather<A: Allocator>(page: &mut OutputBuffer<A>, text: &mut ArrayString<128>, m: Move)
    requires { length page.old + array_string_len text.old + 6 ≤ 65536 }
    ensures bytes { page.new ++ text.new.bytes ≡ (page.old ++ text.old.bytes) ++ 32 ∷ move_text m }
    ensures len { length page.new + array_string_len text.new ≤ length page.old + array_string_len text.old + 6 }
{
    if text.len() > 120 {
        page.put(text.as_str().as_bytes());
        text.clear();
    }
    text.push(' ');
    push_move(text, m);
}

/// The texts of at most 432 moves, separated by one space, after what is on the page; `none` where there is none.
pub fn put_moves<A: Allocator>(page: &mut OutputBuffer<A>, moves: &[Move])
    requires few { length moves.now ≤ 432 }
    requires room { length page.old + 2600 ≤ 65536 }
    ensures bytes { page.new ≡ page.old ++ list_text (map move_text moves.now) }
    ensures len { length page.new ≤ length page.old + 2592 }
{
    let Some((first, others)) = moves.split_first() else {
        page.put(b"none");
        return;
    };
    let mut text = ArrayString::new();
    push_move(&mut text, *first);
    for m in others {
        gather(page, &mut text, *m);
    }
    page.put(text.as_str().as_bytes());
}

/// The names of the squares in order, separated by one space; `none` where there is none.
pub fn squares_text(set: &SquareSet) -> ArrayString<192>
    ensures { result.bytes ≡ list_text (map square_text (filter (contains set.now) squares)) }
{
    let mut text = ArrayString::new();
    for square in set.iter() {
        push_word(&mut text, square.text().as_str());
    }
    if text.is_empty() {
        text.push_str("none");
    }
    text
}
