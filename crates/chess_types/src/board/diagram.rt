//! A placement as a diagram of eight lines, to be printed.

ghost use Rattle.std.specs.Prelude.{◌≡◌, ◌<◌, ◌≤◌, ◌+◌, ◌++◌, [], ◌∷◌, Some};
ghost use Rattle.arrayvec.specs.ArrayString.{array_string_len};
ghost use Rattle.chess_types.specs.declared.board.man.Colour.TheVariants.{White};
ghost use Rattle.chess_types.specs.board.Board.{man_at};
ghost use Rattle.chess_types.specs.board.Position.{man_on};
ghost use Rattle.chess_types.specs.board.Diagram.{shown as shown_of, seen_at as square_seen_at, line_text, diagram};

use super::man::{Colour, Man};
use super::placement::Placement;
use super::position::Position;
use super::square::Square;
use arrayvec::ArrayString;
use std::fmt;

/// A placement as a player of one side sees it: eight lines of eight letters, White's men in upper case, Black's in lower case
/// (PGN 16.1.3.1), and a dot for each empty square. White sees the eighth rank first and file a on the left, Black the first
/// rank first and file h on the left.
#[derive(Clone, Copy)]
pub struct Diagram<'a> {
    pub placement: &'a Placement,
    pub side: Colour,
}

// A man's letter, or a dot.
fn shown(cell: Option<Man>) -> char
    ensures value { result ≡ shown_of cell }
    ensures ascii { result < 128 }
{
    match cell {
        None => '.',
        Some(man) => man.letter(),
    }
}

// The square in a line and a column, each counted from 0.
fn seen_at(side: Colour, line: u8, column: u8) -> Square
    requires line { line < 8 }
    requires column { column < 8 }
    ensures { result ≡ square_seen_at side line column }
{
    match side {
        Colour::White => Square::at(column, 7 - line),
        Colour::Black => Square::at(7 - column, line),
    }
}

// The letter in a line and a column.
fn push_letter(
    text: &mut ArrayString<127>,
    placement: &Placement,
    side: Colour,
    line: u8,
    column: u8,
)
    requires line { line < 8 }
    requires column { column < 8 }
    requires room { array_string_len text.old + 1 ≤ 127 }
    ensures bytes { text.new.bytes ≡ text.old.bytes ++ shown_of (man_at placement.now (square_seen_at side line column)) ∷ [] }
    ensures len { array_string_len text.new ≡ array_string_len text.old + 1 }
{
    text.push(shown(placement.get(seen_at(side, line, column))));
}

// A line: eight letters, and a space between each two.
fn push_line(text: &mut ArrayString<127>, placement: &Placement, side: Colour, line: u8)
    requires line { line < 8 }
    requires room { array_string_len text.old + 15 ≤ 127 }
    ensures bytes { text.new.bytes ≡ text.old.bytes ++ line_text (man_at placement.now) side line }
    ensures len { array_string_len text.new ≡ array_string_len text.old + 15 }
{
    push_letter(text, placement, side, line, 0);
    for column in 1..8u8 {
        text.push_str(" ");
        push_letter(text, placement, side, line, column);
    }
}

impl Diagram<'_> {
    /// The eight lines, separated by line feeds; in each the letters are separated by single spaces: 127 bytes.
    pub fn text(&self) -> ArrayString<127>
        ensures { result.bytes ≡ diagram (man_at self.now.placement.now) self.now.side }
    {
        let placement = self.placement;
        let side = self.side;
        let mut text = ArrayString::new();
        push_line(&mut text, placement, side, 0);
        for line in 1..8u8 {
            text.push_str("\n");
            push_line(&mut text, placement, side, line);
        }
        text
    }
}

impl fmt::Display for Diagram<'_> {
    ghost output = { λ seen. Some (diagram (man_at seen.placement.now) seen.side) };

    /// The eight lines of `text`.
    fn fmt<W: fmt::Write>(&self, f: &mut fmt::Formatter<W>) -> fmt::Result {
        f.write_str(&self.text())
    }
}

impl Placement {
    /// The men as a player of that side sees them, to be printed.
    pub fn seen_by(&self, side: Colour) -> Diagram<'_>
        ensures placement { result.placement.now ≡ self.now }
        ensures side { result.side ≡ side }
    {
        Diagram {
            placement: self,
            side,
        }
    }
}

impl fmt::Display for Placement {
    ghost output = { λ board. Some (diagram (man_at board) White) };

    /// The diagram that White sees.
    fn fmt<W: fmt::Write>(&self, f: &mut fmt::Formatter<W>) -> fmt::Result {
        f.write_str(&self.seen_by(Colour::White).text())
    }
}

impl fmt::Debug for Placement {
    /// Each man with its square, in the order of the squares.
    fn fmt<W: fmt::Write>(&self, f: &mut fmt::Formatter<W>) -> fmt::Result {
        let mut men = f.debug_map();
        for at in self.occupied().iter() {
            men.entry(&at, &self.get(at));
        }
        men.finish()
    }
}

impl Position {
    /// The men as a player of that side sees them, to be printed.
    pub fn seen_by(&self, side: Colour) -> Diagram<'_>
        ensures placement { result.placement.now ≡ self.now.placement }
        ensures side { result.side ≡ side }
    {
        self.setup().placement.seen_by(side)
    }
}

impl fmt::Display for Position {
    ghost output = { λ position. Some (diagram (man_on position) White) };

    /// The diagram that White sees; whose move it is, the rights, the target and the counters aren't shown.
    fn fmt<W: fmt::Write>(&self, f: &mut fmt::Formatter<W>) -> fmt::Result {
        f.write_str(&self.seen_by(Colour::White).text())
    }
}
