//! The castling rights of a FEN, read, and those kept whose king and rook stand at home (PGN 16.1.3.3).

ghost use Rattle.std.specs.Prelude.{◌≡◌, count_by, ◌==◌};
ghost use Rattle.std.specs.List.{list_all};
ghost use Rattle.chess_types.specs.board.Board.{man_at};
ghost use Rattle.chess_fen.specs.Reading.{has_letter, is_castling_letter, rights_of, castling_in, kept_rights};

use super::fault::FenFault;
use chess_types::{Colour, Placement, Rights, Wing, is_home};

fn has_letter(letters: &[u8], letter: u8) -> bool
    ensures { result ≡ has_letter letters.now letter }
{
    letters.contains(&letter)
}

fn count_of(letter: u8, letters: &[u8]) -> usize
    ensures { result ≡ count_by (λ l. l == letter) letters.now }
{
    letters.iter().filter(|l| **l == letter).count()
}

// A letter of `KQkq` that stands in the field once.
fn is_castling_letter(field: &[u8], letter: u8) -> bool
    ensures { result ≡ is_castling_letter field.now letter }
{
    has_letter(b"KQkq", letter) && count_of(letter, field) == 1
}

fn are_castling_letters(field: &[u8]) -> bool
    ensures { result ≡ list_all (is_castling_letter field.now) field.now }
{
    field
        .iter()
        .all(|letter| is_castling_letter(field, *letter))
}

fn rights_of(field: &[u8]) -> Rights
    ensures { result ≡ rights_of field.now }
{
    Rights {
        white_king: has_letter(field, b'K'),
        white_queen: has_letter(field, b'Q'),
        black_king: has_letter(field, b'k'),
        black_queen: has_letter(field, b'q'),
    }
}

/// The castling rights that are written.
#[tactic(auto, unfolding(crate::specs::Reading::castling_in))]
pub fn read_castling(field: &[u8]) -> Result<Rights, FenFault>
    ensures { result ≡ castling_in field.now }
{
    if field == b"-".as_slice() {
        Ok(Rights {
            white_king: false,
            white_queen: false,
            black_king: false,
            black_queen: false,
        })
    } else if !field.is_empty() && are_castling_letters(field) {
        Ok(rights_of(field))
    } else {
        Err(FenFault::Castling)
    }
}

/// The rights whose king and rook stand at home.
#[tactic(auto, unfolding(crate::specs::Reading::kept_rights))]
pub fn kept_rights(placement: &Placement, rights: Rights) -> Rights
    ensures { result ≡ kept_rights (man_at placement.now) rights }
{
    Rights {
        white_king: rights.white_king && is_home(placement, Colour::White, Wing::KingSide),
        white_queen: rights.white_queen && is_home(placement, Colour::White, Wing::QueenSide),
        black_king: rights.black_king && is_home(placement, Colour::Black, Wing::KingSide),
        black_queen: rights.black_queen && is_home(placement, Colour::Black, Wing::QueenSide),
    }
}
