//! Squares, men, moves as texts, placements and positions.

mod axis;
mod cell;
mod content;
mod diagram;
mod draft;
mod faults;
mod kept;
mod kept_move;
mod man;
mod moves;
mod outcome;
mod placement;
mod position;
mod square;
mod square_set;
mod start;

pub use axis::Axis;
pub use cell::{holds_pawn, is_king_of, is_man, is_of};
pub use content::Content;
pub use diagram::Diagram;
pub use draft::Draft;
pub use faults::{PositionFault, is_explained, is_home};
pub use kept_move::KeptMove;
pub use man::{Colour, Kind, Man};
pub use moves::{Move, NotAMove};
pub use outcome::{Claims, Status};
pub use placement::Placement;
pub use position::{Position, Rights, Setup, Wing};
pub use square::{NotASquare, Square};
pub use square_set::{SquareSet, SquareSetIter};
