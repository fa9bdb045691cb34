//! Moves as C sees them, in three numbers, and lists of them written to a caller's room.

ghost use Rattle.std.specs.Prelude.{◌≡◌, ◌≤◌, ◌++◌, drop, length, map};
ghost use Rattle.chess_bindings.specs.Handed.{IsHanded};
ghost use Rattle.chess_c.specs.Moves.{IsParsed, IsWrittenLong, move_meant, promotion_code, promotion_of_code, move_shown};

use chess_bindings::{ARGUMENT, FORM, OK, ROOM, hand};
use chess_draws::Line;
use chess_memory::Heap;
use chess_types::{Kind, Move, Square};

/// A move, as C sees it.
#[repr(C)]
#[derive(Clone, Copy)]
pub struct CMove {
    /// From where, 0 for a1 to 63 for h8.
    pub from: u8,
    /// To where.
    pub to: u8,
    /// What a pawn becomes: 0 for no promotion, else 1 to 4 for knight, bishop, rook and queen.
    pub promotion: u8,
}

fn promotion_code(promo: Option<Kind>) -> u8
    ensures { result ≡ promotion_code promo }
{
    match promo {
        Some(Kind::Knight) => 1,
        Some(Kind::Bishop) => 2,
        Some(Kind::Rook) => 3,
        Some(Kind::Queen) => 4,
        _ => 0,
    }
}

fn promotion_in(code: u8) -> Option<Option<Kind>>
    ensures { result ≡ promotion_of_code code }
{
    match code {
        0 => Some(None),
        1 => Some(Some(Kind::Knight)),
        2 => Some(Some(Kind::Bishop)),
        3 => Some(Some(Kind::Rook)),
        4 => Some(Some(Kind::Queen)),
        _ => None,
    }
}

impl CMove {
    /// A move in three numbers.
    pub fn of(m: Move) -> CMove
        ensures { result ≡ move_shown m }
    {
        CMove {
            from: m.from.index() as u8,
            to: m.to.index() as u8,
            promotion: promotion_code(m.promo),
        }
    }

    /// The move of three numbers; `None` where they are none.
    pub fn read(self) -> Option<Move>
        ensures { result ≡ move_meant self }
    {
        if self.from >= 64 || self.to >= 64 {
            return None;
        }
        let promo = promotion_in(self.promotion)?;
        Some(Move {
            from: Square::from_index(self.from),
            to: Square::from_index(self.to),
            promo,
        })
    }
}

// Puts the moves first in a room that is large enough.
fn put_moves(moves: &[Move], room: &mut [CMove])
    requires { length moves.now ≤ length room.old }
    ensures { room.new ≡ map move_shown moves.now ++ drop (length moves.now) room.old }
{
    for i in 0..moves.len() {
        room[i] = CMove::of(moves[i]);
    }
}

/// Puts the moves where there is room for them, and says how many they are.
pub fn hand_moves(moves: &[Move], room: &mut [CMove], count: &mut usize) -> u32
    ensures { IsHanded (map move_shown moves.now) result count.new room.old room.new }
{
    *count = moves.len();
    if moves.len() > room.len() {
        return ROOM;
    }
    put_moves(moves, room);
    OK
}

// Puts the moves of a line first in a room that is large enough.
fn put_line(line: &Line<'static, &'static Heap>, room: &mut [CMove])
    requires still { line.now.looked ≡ 0 }
    requires room { length line.now.line.moves ≤ length room.old }
    ensures { room.new ≡ map move_shown line.now.line.moves ++ drop (length line.now.line.moves) room.old }
{
    for ply in 0..line.plies() {
        let Some(m) = line.played(ply) else {
            unreachable!();
        };
        room[ply as usize] = CMove::of(m);
    }
}

/// The same of the moves of a line.
pub fn hand_line(line: &Line<'static, &'static Heap>, room: &mut [CMove], count: &mut usize) -> u32
    requires { line.now.looked ≡ 0 }
    ensures { IsHanded (map move_shown line.now.line.moves) result count.new room.old room.new }
{
    let plies = line.plies() as usize;
    *count = plies;
    if plies > room.len() {
        return ROOM;
    }
    put_line(line, room);
    OK
}

/// The text of a move in the long algebraic notation of UCI, at most 5 bytes: `e2e4`, `e7e8q`. Whether it is legal isn't asked.
#[unsafe(no_mangle)]
pub extern "C" fn jatshegi_move_write(m: CMove, text: &mut [u8], count: &mut usize) -> u32
    ensures { IsWrittenLong (move_meant m) result count.old count.new text.old text.new }
{
    match m.read() {
        None => ARGUMENT,
        Some(found) => hand(found.text().as_str().as_bytes(), text, count),
    }
}

/// The move that has this text in the long algebraic notation of UCI.
#[unsafe(no_mangle)]
pub extern "C" fn jatshegi_move_read(text: &[u8], m: &mut CMove) -> u32
    ensures { IsParsed text.now result m.old m.new }
{
    match Move::parse(text) {
        None => FORM,
        Some(found) => {
            *m = CMove::of(found);
            OK
        }
    }
}
