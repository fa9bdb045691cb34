//! The ranks of a FEN's first field, read as 64 squares (PGN 16.1.3.1).

ghost use Rattle.std.specs.Prelude.{◌≡◌, ◌==◌, Some, option_map};
ghost use Rattle.chess_fen.specs.Ranks.{stands_for_empty, starts_with_digit, has_adjacent_digits, cells_of_byte, both_cells, at_most, rank_cells, board_cells};

use arrayvec::ArrayVec;
use chess_types::Man;

fn stands_for_empty(byte: u8) -> bool
    ensures { result ≡ stands_for_empty byte }
{
    b'1' <= byte && byte <= b'8'
}

fn starts_with_digit(text: &[u8]) -> bool
    ensures { result ≡ starts_with_digit text.now }
{
    match text {
        [] => false,
        [first, ..] => stands_for_empty(*first),
    }
}

fn has_adjacent_digits(text: &[u8]) -> bool
    ensures { result ≡ has_adjacent_digits text.now }
{
    let mut rest = text;
    while let [first, others @ ..] = rest {
        if stands_for_empty(*first) && starts_with_digit(others) {
            return true;
        }
        rest = others;
    }
    false
}

// Puts the squares that a byte stands for after those that are there; `None` where there is no room, or none are meant.
fn push_cells(cells: &mut ArrayVec<Option<Man>, 8>, byte: u8) -> Option<()>
    ensures { option_map (λ _. cells.new.items) result
        ≡ at_most 8 (both_cells (Some cells.old.items) (cells_of_byte byte)) }
{
    if stands_for_empty(byte) {
        let run = (byte - b'0') as usize;
        cells.try_extend_from_slice(&[None; 8][..run]).ok()
    } else {
        let man = Man::of_letter(byte)?;
        cells.try_push(Some(man)).ok()
    }
}

// The eight squares of a rank, from file a.
fn read_rank(text: &[u8]) -> Option<[Option<Man>; 8]>
    ensures { result ≡ rank_cells text.now }
{
    if has_adjacent_digits(text) {
        return None;
    }
    let mut cells = ArrayVec::new();
    let mut rest = text;
    while let [first, others @ ..] = rest {
        push_cells(&mut cells, *first)?;
        rest = others;
    }
    cells.into_inner().ok()
}

/// The 64 squares that the first field describes, from a1 to h8; the field begins with the eighth rank.
pub fn read_cells(field: &[u8]) -> Option<[Option<Man>; 64]>
    ensures { result ≡ board_cells field.now }
{
    let mut cells = [None; 64];
    let mut from = 64;
    for rank in field.split(|byte| *byte == b'/') {
        if from == 0 {
            return None;
        }
        from -= 8;
        cells[from..from + 8].copy_from_slice(&read_rank(rank)?);
    }
    if from == 0 { Some(cells) } else { None }
}
