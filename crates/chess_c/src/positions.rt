//! A position by its six fields, as C sees it.
ghost use Rattle.std.specs.Prelude.{◌≡◌, ◌≤◌, IfOk, map};
ghost use Rattle.std.specs.List.{list_all};
ghost use Rattle.chess_types.specs.board.Board.{man_at};
ghost use Rattle.chess_types.specs.board.Squares.{squares};
ghost use Rattle.chess_types.specs.board.Texts.{man_of_letter};
ghost use Rattle.chess_c.specs.Positions.{cells_in, fields_meant, is_cell, letter_of, position_meant, position_shown, rights_code, rights_in, target_code, target_of_code};

use crate::codes::{colour_code, colour_in};
use chess_attack::position;
use chess_fen::FenFault;
use chess_types::{Draft, Man, Placement, Position, Rights, Setup, Square};

/// A position by its six fields.
#[repr(C)]
#[derive(Clone, Copy)]
pub struct CPosition {
    /// What is on each square, a1 first: a man's letter (PGN 16.1.3.1), or 0 for nothing.
    pub men: [u8; 64],
    /// The side to move: 0 for White, 1 for Black.
    pub side: u8,
    /// The castling rights held, added up: 1 and 2 for White's with the rooks of h1 and a1, 4 and 8 for Black's with those of h8 and a8.
    pub castling: u8,
    /// The en passant target: the square passed over by a pawn's advance of two squares just made; 64 for none.
    pub target: u8,
    /// The halfmove clock: plies since the last pawn move or capture, at most 99,999.
    pub clock: u32,
    /// The fullmove number, 1 to 99,999.
    pub number: u32,
}

// Whether a byte says what is on a square.
fn is_cell(letter: u8) -> bool
    ensures { result ≡ is_cell letter }
{
    letter == 0 || Man::of_letter(letter).is_some()
}

fn are_cells(letters: &[u8; 64]) -> bool
    ensures { result ≡ list_all is_cell letters.now }
{
    letters.iter().all(|letter| is_cell(*letter))
}

fn men_of(letters: [u8; 64]) -> [Option<Man>; 64]
    ensures { result ≡ map man_of_letter letters }
{
    letters.map(|letter| Man::of_letter(letter))
}

// What is on the squares.
fn cells_in(letters: [u8; 64]) -> Option<[Option<Man>; 64]>
    ensures { result ≡ cells_in letters }
{
    if are_cells(&letters) {
        Some(men_of(letters))
    } else {
        None
    }
}

fn rights_in(code: u8) -> Option<Rights>
    ensures { result ≡ rights_in code }
{
    if code >= 16 {
        return None;
    }
    Some(Rights {
        white_king: code % 2 == 1,
        white_queen: code / 2 % 2 == 1,
        black_king: code / 4 % 2 == 1,
        black_queen: code / 8 % 2 == 1,
    })
}

fn target_in(code: u8) -> Option<Option<Square>>
    ensures { result ≡ target_of_code code }
{
    match code {
        0..64 => Some(Some(Square::from_index(code))),
        64 => Some(None),
        _ => None,
    }
}

/// A man's letter (PGN 16.1.3.1), or 0 for nothing.
pub fn letter_of(cell: Option<Man>) -> u8
    ensures { result ≡ letter_of cell }
{
    match cell {
        Some(man) => man.letter() as u8,
        None => 0,
    }
}

fn letters_of(placement: &Placement) -> [u8; 64]
    ensures { result ≡ map (λ square. letter_of (man_at placement.now square)) squares }
{
    let mut letters = [0; 64];
    for number in 0..64u8 {
        letters[number as usize] = letter_of(placement.get(Square::from_index(number)));
    }
    letters
}

fn rights_code(rights: Rights) -> u8
    ensures { result ≡ rights_code rights }
{
    u8::from(rights.white_king)
        + 2 * u8::from(rights.white_queen)
        + 4 * u8::from(rights.black_king)
        + 8 * u8::from(rights.black_queen)
}

fn target_code(target: Option<Square>) -> u8
    ensures { result ≡ target_code target }
{
    match target {
        Some(square) => square.index() as u8,
        None => 64,
    }
}

impl CPosition {
    /// A position by its six fields.
    pub fn of(setup: &Setup) -> CPosition
        ensures { result ≡ position_shown setup.now }
    {
        CPosition {
            men: letters_of(&setup.placement),
            side: colour_code(setup.side),
            castling: rights_code(setup.rights),
            target: target_code(setup.target),
            clock: setup.clock,
            number: setup.number,
        }
    }

    // The six fields, each of which says something.
    fn fields(&self) -> Result<Draft, FenFault>
        ensures { result ≡ fields_meant self.now }
    {
        let men = cells_in(self.men).ok_or(FenFault::Placement)?;
        let side = colour_in(self.side).ok_or(FenFault::Side)?;
        let rights = rights_in(self.castling).ok_or(FenFault::Castling)?;
        let target = target_in(self.target).ok_or(FenFault::Target)?;
        if self.clock > 99_999 || self.number > 99_999 {
            return Err(FenFault::Counter);
        }
        Ok(Draft {
            men,
            side,
            rights,
            target,
            clock: self.clock,
            number: self.number,
        })
    }

    /// The position that the fields are.
    ///
    /// # Errors
    ///
    /// The fault of the first field that says nothing; else the first of the position, by the field of a FEN that spells it. Nothing is dropped: a right
    /// without its king and its rook at home, a target that no advance explains and the number 0 are faults.
    pub fn read(&self) -> Result<Position, FenFault>
        ensures exact { result ≡ position_meant self.now }
        ensures clock { IfOk result (λ p. p.clock ≤ 99999) }
        ensures number { IfOk result (λ p. p.number ≤ 99999) }
    {
        Ok(position(&self.fields()?)?)
    }
}
