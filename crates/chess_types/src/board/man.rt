//! Colours, kinds of men, and men, with their letters.

ghost use Rattle.std.specs.Prelude.{◌≡◌, ◌+◌, ◌*◌, ◌<◌};
ghost use Rattle.chess_types.specs.board.Men.{opponent, colour_number, is_king, is_pawn, kind_number};
ghost use Rattle.chess_types.specs.board.Texts.{colour_of_letter, kind_letter, kind_of_letter, man_letter, man_of_letter};

/// The two sides (FIDE Laws 1.1).
#[derive(Clone, Copy, Debug, PartialEq, Eq)]
pub enum Colour {
    White,
    Black,
}

impl Colour {
    /// The other side.
    pub fn opponent(self) -> Colour
        ensures { result ≡ opponent self }
    {
        match self {
            Colour::White => Colour::Black,
            Colour::Black => Colour::White,
        }
    }
}

/// The six kinds of men (FIDE Laws 2.2).
#[derive(Clone, Copy, Debug, PartialEq, Eq)]
pub enum Kind {
    Pawn,
    Knight,
    Bishop,
    Rook,
    Queen,
    King,
}

impl Kind {
    /// Which of the six it is: 0 to 5 for the pawn, knight, bishop, rook, queen and king.
    #[inline(always)]
    pub fn number(self) -> usize
        ensures value { result ≡ kind_number self }
        ensures below { result < 6 }
    {
        match self {
            Kind::Pawn => 0,
            Kind::Knight => 1,
            Kind::Bishop => 2,
            Kind::Rook => 3,
            Kind::Queen => 4,
            Kind::King => 5,
        }
    }

    /// Whether it is the pawn.
    #[inline(always)]
    pub fn is_pawn(self) -> bool
        ensures { result ≡ is_pawn self }
    {
        self == Kind::Pawn
    }

    /// Whether it is the king.
    #[inline(always)]
    pub fn is_king(self) -> bool
        ensures { result ≡ is_king self }
    {
        self == Kind::King
    }

    /// Its letter in lower case: `p`, `n`, `b`, `r`, `q` or `k`.
    pub fn letter(self) -> char
        ensures value { result ≡ kind_letter self }
        ensures ascii { result < 128 }
    {
        match self {
            Kind::Pawn => 'p',
            Kind::Knight => 'n',
            Kind::Bishop => 'b',
            Kind::Rook => 'r',
            Kind::Queen => 'q',
            Kind::King => 'k',
        }
    }

    /// The kind of an upper-case letter, `P`, `N`, `B`, `R`, `Q` or `K`; `None` for any other byte.
    pub fn of_letter(letter: u8) -> Option<Kind>
        ensures { result ≡ kind_of_letter letter }
    {
        match letter {
            b'P' => Some(Kind::Pawn),
            b'N' => Some(Kind::Knight),
            b'B' => Some(Kind::Bishop),
            b'R' => Some(Kind::Rook),
            b'Q' => Some(Kind::Queen),
            b'K' => Some(Kind::King),
            _ => None,
        }
    }
}

/// A man of one side.
#[derive(Clone, Copy, Debug, PartialEq, Eq)]
pub struct Man {
    pub colour: Colour,
    pub kind: Kind,
}

impl Man {
    /// Which of the 12 men it is: 0 to 5 for White's pawn, knight, bishop, rook, queen and king, 6 to 11 for Black's.
    #[inline(always)]
    pub fn number(self) -> usize
        ensures value { result ≡ 6 * colour_number self.colour + kind_number self.kind }
        ensures below { result < 12 }
    {
        match self.colour {
            Colour::White => self.kind.number(),
            Colour::Black => 6 + self.kind.number(),
        }
    }

    /// His letter: that of the kind, in upper case for White and in lower case for Black (PGN 16.1.3.1).
    pub fn letter(self) -> char
        ensures value { result ≡ man_letter self }
        ensures ascii { result < 128 }
    {
        match self.colour {
            Colour::White => self.kind.letter().to_ascii_uppercase(),
            Colour::Black => self.kind.letter(),
        }
    }

    /// The man of a letter (PGN 16.1.3.1); `None` for any other byte.
    pub fn of_letter(letter: u8) -> Option<Man>
        ensures { result ≡ man_of_letter letter }
    {
        let kind = Kind::of_letter(letter.to_ascii_uppercase())?;
        Some(Man {
            colour: colour_of(letter),
            kind,
        })
    }
}

// Whose men a letter names.
fn colour_of(letter: u8) -> Colour
    ensures { result ≡ colour_of_letter letter }
{
    if letter.is_ascii_uppercase() {
        Colour::White
    } else {
        Colour::Black
    }
}
