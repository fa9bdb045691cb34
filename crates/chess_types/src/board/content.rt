//! What a square holds, in one byte.

ghost use Rattle.std.specs.Prelude.{◌≡◌, ◌<◌, IfSome, None, is_none, option_map};
ghost use Rattle.chess_types.specs.board.Texts.{man_letter};
ghost use Rattle.chess_types.specs.steps.Marks.{white_mark, black_mark};

use super::man::{Colour, Kind, Man};
use std::marker::Model;

// An empty square, or one of the 12 men.
#[derive(Clone, Copy, Debug, PartialEq, Eq)]
enum Mark {
    Empty,
    WhitePawn,
    WhiteKnight,
    WhiteBishop,
    WhiteRook,
    WhiteQueen,
    WhiteKing,
    BlackPawn,
    BlackKnight,
    BlackBishop,
    BlackRook,
    BlackQueen,
    BlackKing,
}

impl Mark {
    // The mark of a White man of the kind.
    #[inline(always)]
    fn of_white(kind: Kind) -> Mark
        ensures { result ≡ white_mark kind }
    {
        match kind {
            Kind::Pawn => Mark::WhitePawn,
            Kind::Knight => Mark::WhiteKnight,
            Kind::Bishop => Mark::WhiteBishop,
            Kind::Rook => Mark::WhiteRook,
            Kind::Queen => Mark::WhiteQueen,
            Kind::King => Mark::WhiteKing,
        }
    }

    // The mark of a Black man of the kind.
    #[inline(always)]
    fn of_black(kind: Kind) -> Mark
        ensures { result ≡ black_mark kind }
    {
        match kind {
            Kind::Pawn => Mark::BlackPawn,
            Kind::Knight => Mark::BlackKnight,
            Kind::Bishop => Mark::BlackBishop,
            Kind::Rook => Mark::BlackRook,
            Kind::Queen => Mark::BlackQueen,
            Kind::King => Mark::BlackKing,
        }
    }
}

/// What a square holds, a man or nothing, in one byte. Contracts see the `Option<Man>` that it is.
#[derive(Clone, Copy, Debug, PartialEq, Eq)]
pub struct Content {
    mark: Mark,
}

impl Model for Content {
    ghost use Rattle.std.specs.Prelude.{Option};
    ghost use Rattle.chess_types.specs.declared.board.man.Man.{Man};
    ghost use Rattle.chess_types.specs.steps.Marks.{cell_of_mark, mark_of, mark_of-cell};

    ghost Value = { Option Man };

    ghost view = { λ c. cell_of_mark c.mark };

    ghost inverse = { λ cell. record { mark = mark_of cell } };

    ghost inverse_ok = { λ c _ i. record { mark = mark_of-cell c.mark i } };
}

impl Content {
    /// An empty square.
    #[inline(always)]
    pub fn empty() -> Content
        ensures { result ≡ None }
    {
        Content { mark: Mark::Empty }
    }

    /// A square that holds this.
    #[inline(always)]
    pub fn of(cell: Option<Man>) -> Content
        ensures { result ≡ cell }
    {
        let mark = match cell {
            None => Mark::Empty,
            Some(man) => match man.colour {
                Colour::White => Mark::of_white(man.kind),
                Colour::Black => Mark::of_black(man.kind),
            },
        };
        Content { mark }
    }

    /// The man, if there is one.
    #[inline(always)]
    pub fn man(self) -> Option<Man>
        ensures { result ≡ self }
    {
        let (colour, kind) = match self.mark {
            Mark::Empty => return None,
            Mark::WhitePawn => (Colour::White, Kind::Pawn),
            Mark::WhiteKnight => (Colour::White, Kind::Knight),
            Mark::WhiteBishop => (Colour::White, Kind::Bishop),
            Mark::WhiteRook => (Colour::White, Kind::Rook),
            Mark::WhiteQueen => (Colour::White, Kind::Queen),
            Mark::WhiteKing => (Colour::White, Kind::King),
            Mark::BlackPawn => (Colour::Black, Kind::Pawn),
            Mark::BlackKnight => (Colour::Black, Kind::Knight),
            Mark::BlackBishop => (Colour::Black, Kind::Bishop),
            Mark::BlackRook => (Colour::Black, Kind::Rook),
            Mark::BlackQueen => (Colour::Black, Kind::Queen),
            Mark::BlackKing => (Colour::Black, Kind::King),
        };
        Some(Man { colour, kind })
    }

    /// The man's letter, in upper case for White and in lower case for Black (PGN 16.1.3.1); `None` where there is no man.
    #[inline(always)]
    pub fn letter(self) -> Option<char>
        ensures value { result ≡ option_map man_letter self }
        ensures ascii { IfSome result (λ letter. letter < 128) }
    {
        let letter = match self.mark {
            Mark::Empty => return None,
            Mark::WhitePawn => 'P',
            Mark::WhiteKnight => 'N',
            Mark::WhiteBishop => 'B',
            Mark::WhiteRook => 'R',
            Mark::WhiteQueen => 'Q',
            Mark::WhiteKing => 'K',
            Mark::BlackPawn => 'p',
            Mark::BlackKnight => 'n',
            Mark::BlackBishop => 'b',
            Mark::BlackRook => 'r',
            Mark::BlackQueen => 'q',
            Mark::BlackKing => 'k',
        };
        Some(letter)
    }

    /// Whether there is no man.
    #[inline(always)]
    pub fn is_empty(self) -> bool
        ensures { result ≡ is_none self }
    {
        match self.mark {
            Mark::Empty => true,
            _ => false,
        }
    }
}
