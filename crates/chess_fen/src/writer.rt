//! A position written as its FEN, field by field (PGN 16.1.3).

ghost use Rattle.std.specs.Prelude.{◌≡◌, ◌≤◌, ◌<◌, ◌+◌, if◌then◌else◌, List, [], ◌∷◌, ◌++◌, Option, None, Ok, length, ℕ, is_none};
ghost use Rattle.std.specs.List.{list_all};
ghost use Rattle.arrayvec.specs.ArrayString.{array_string_len};
ghost use Rattle.chess_types.specs.declared.board.man.Man.{Man};
ghost use Rattle.chess_types.specs.board.Board.{man_at};
ghost use Rattle.chess_types.specs.board.Cells.{board_of};
ghost use Rattle.chess_types.specs.board.Position.{man_on};
ghost use Rattle.chess_fen.specs.Reading.{fen_reading};
ghost use Rattle.chess_fen.specs.Writing.{run_text, cells_text, four_fields, placement_text, side_text, rights_text, target_text, written};

use arrayvec::ArrayString;
use chess_types::{Colour, Content, Position, Rights, Setup, Square};
use itoa::Buffer;

// An ASCII character. The bound shows the compiler that it takes one byte.
#[inline(always)]
fn push_ascii(text: &mut ArrayString<128>, c: char)
    requires ascii { c < 128 }
    requires room { array_string_len text.old + 1 ≤ 128 }
    ensures bytes { text.new.bytes ≡ text.old.bytes ++ c ∷ [] }
    ensures len { array_string_len text.new ≡ array_string_len text.old + 1 }
{
    text.push(char::from((c as u8).min(127)));
}

// The digit of a run of empty squares, where there is one.
fn push_run(text: &mut ArrayString<128>, run: u8)
    requires few { run ≤ 8 }
    requires room { array_string_len text.old + run ≤ 128 }
    ensures bytes { text.new.bytes ≡ text.old.bytes ++ run_text run }
    ensures len { array_string_len text.new ≤ array_string_len text.old + run }
{
    if run > 0 {
        push_ascii(text, char::from(b'0' + run));
    }
}

// What stands on the next square, after a run of empty squares that isn't written yet; how long the run is then.
fn push_cell(text: &mut ArrayString<128>, run: u8, cell: Content) -> u8
    requires few { run < 8 }
    requires room { array_string_len text.old + run + 1 ≤ 128 }
    ensures bytes { (cells : List (Option Man)) → text.new.bytes ++ cells_text result cells ≡ text.old.bytes ++ cells_text run (cell ∷ cells) }
    ensures len { array_string_len text.new + result ≤ array_string_len text.old + run + 1 }
    ensures grows { result ≤ run + 1 }
{
    match cell.letter() {
        None => run + 1,
        Some(letter) => {
            push_run(text, run);
            push_ascii(text, letter);
            0
        }
    }
}

// Whether there is no man on the squares.
fn are_empty(cells: &[Content]) -> bool
    ensures { result ≡ list_all is_none cells.now }
{
    cells.iter().all(|cell| cell.is_empty())
}

// A rank, from file a.
fn push_rank(text: &mut ArrayString<128>, cells: &[Content])
    requires eight { length cells.now ≡ 8 }
    requires room { array_string_len text.old + 8 ≤ 128 }
    ensures bytes { text.new.bytes ≡ text.old.bytes ++ cells_text 0 cells.now }
    ensures len { array_string_len text.new ≤ array_string_len text.old + 8 }
{
    if are_empty(cells) {
        push_ascii(text, '8');
        return;
    }
    let mut run = 0;
    for cell in cells {
        run = push_cell(text, run, *cell);
    }
    push_run(text, run);
}

// The men, the eighth rank first.
fn placement_text(cells: &[Content]) -> ArrayString<128>
    requires { length cells.now ≡ 64 }
    ensures bytes { result.bytes ≡ placement_text (man_at (board_of cells.now)) }
    ensures len { array_string_len result ≤ 71 }
    ensures on_board { (s : ℕ) → 64 ≤ s → man_at (board_of cells.now) s ≡ None }
{
    let mut text = ArrayString::new();
    push_rank(&mut text, &cells[56..64]);
    for rank in (0..7).rev() {
        text.push_str("/");
        push_rank(&mut text, &cells[8 * rank..8 * rank + 8]);
    }
    text
}

fn side_text(side: Colour) -> &'static str
    ensures { result.now ≡ side_text side }
{
    match side {
        Colour::White => "w",
        Colour::Black => "b",
    }
}

fn push_right(text: &mut ArrayString<4>, held: bool, letter: &str)
    requires room { array_string_len text.old + length letter.now ≤ 4 }
    ensures bytes { text.new.bytes ≡ text.old.bytes ++ (if held then letter.now else []) }
    ensures len { array_string_len text.new ≤ array_string_len text.old + length letter.now }
{
    if held {
        text.push_str(letter);
    }
}

// The letters of the rights held, in the order `KQkq`.
#[tactic(auto, unfolding(crate::specs::Writing::rights_text))]
fn rights_text(rights: Rights) -> ArrayString<4>
    ensures { result.bytes ≡ rights_text rights }
{
    let mut text = ArrayString::new();
    push_right(&mut text, rights.white_king, "K");
    push_right(&mut text, rights.white_queen, "Q");
    push_right(&mut text, rights.black_king, "k");
    push_right(&mut text, rights.black_queen, "q");
    if text.is_empty() {
        text.push_str("-");
    }
    text
}

#[tactic(auto, unfolding(crate::specs::Writing::target_text))]
fn target_text(target: Option<Square>) -> ArrayString<2>
    ensures { result.bytes ≡ target_text target }
{
    match target {
        Some(square) => square.text(),
        None => {
            let mut text = ArrayString::new();
            text.push_str("-");
            text
        }
    }
}

/// The first four fields of the FEN of a position, with that en passant target in place of its own, separated by one space.
#[tactic(auto, unfolding(crate::specs::Writing::four_fields))]
pub fn write_fields(setup: &Setup, target: Option<Square>) -> ArrayString<128>
    ensures bytes { result.bytes ≡ four_fields setup.now target }
    ensures len { array_string_len result ≤ 81 }
    ensures on_board { (s : ℕ) → 64 ≤ s → man_on setup.now s ≡ None }
{
    let mut text = placement_text(setup.placement.cells());
    text.push_str(" ");
    text.push_str(side_text(setup.side));
    text.push_str(" ");
    text.push_str(&rights_text(setup.rights));
    text.push_str(" ");
    text.push_str(&target_text(target));
    text
}

/// The FEN of a position (PGN 16.1.3), 128 bytes at most: six fields separated by one space. The rights that are held stand in
/// the order `KQkq`, and a target is written whenever the position has one. `read` reads the position back from it where both
/// counters are at most 99,999.
#[tactic(auto, unfolding(crate::specs::Writing::written))]
pub fn write(position: &Position) -> ArrayString<128>
    ensures bytes { result.bytes ≡ written position.now }
    ensures read_back { position.now.clock ≤ 99999 → position.now.number ≤ 99999 → fen_reading result.bytes ≡ Ok position.now }
{
    let setup = position.setup();
    let mut text = write_fields(setup, setup.target);
    text.push_str(" ");
    text.push_str(Buffer::new().format(setup.clock));
    text.push_str(" ");
    text.push_str(Buffer::new().format(setup.number));
    text
}
