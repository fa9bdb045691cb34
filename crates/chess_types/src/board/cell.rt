//! What stands on a square: whether it is a man of some colour or kind.

ghost use Rattle.std.specs.Prelude.{◌≡◌, count_by};
ghost use Rattle.chess_types.specs.board.Men.{is_of, is_king_of, is_man, holds_pawn};

use super::man::{Colour, Kind, Man};

/// Whether a man of the colour stands on a square that holds this.
pub fn is_of(colour: Colour, cell: Option<Man>) -> bool
    ensures { result ≡ is_of colour cell }
{
    match cell {
        None => false,
        Some(man) => man.colour == colour,
    }
}

/// Whether the king of the colour stands on a square that holds this.
pub fn is_king_of(colour: Colour, cell: Option<Man>) -> bool
    ensures { result ≡ is_king_of colour cell }
{
    match cell {
        None => false,
        Some(man) => man.colour == colour && man.kind == Kind::King,
    }
}

/// Whether that man stands on a square that holds this.
pub fn is_man(cell: Option<Man>, colour: Colour, kind: Kind) -> bool
    ensures { result ≡ is_man cell colour kind }
{
    match cell {
        None => false,
        Some(man) => man.colour == colour && man.kind == kind,
    }
}

/// Whether a pawn stands on a square that holds this.
pub fn holds_pawn(cell: Option<Man>) -> bool
    ensures { result ≡ holds_pawn cell }
{
    match cell {
        None => false,
        Some(man) => man.kind == Kind::Pawn,
    }
}
