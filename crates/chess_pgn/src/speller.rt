//! The texts of the moves of a game that is written: known beforehand, or found by making the moves.

ghost use Rattle.std.specs.Prelude.{◌≡◌, ◌<◌, ◌++◌, [], IsTrue, OnOk, length};
ghost use Rattle.chess_types.specs.board.Position.{start};
ghost use Rattle.chess_types.specs.board.Legal.{is_legal};
ghost use Rattle.chess_types.specs.board.Lines.{extended, last};
ghost use Rattle.chess_draws.specs.Pushes.{most_plies};
ghost use Rattle.chess_pgn.specs.Written.{number_text};
ghost use Rattle.chess_pgn.specs.steps.Adding.{Adds};
ghost use Rattle.chess_pgn.specs.steps.KnownTexts.{line_at};
ghost use Rattle.chess_pgn.specs.steps.Spelling.{spoken_text};
ghost use Rattle.chess_pgn.specs.steps.Tasks.{shortened};

use crate::lines::Lines;
use crate::texts::Texts;
use chess_draws::PlainLine;
use chess_types::{Colour, Move};
use itoa::Buffer;
use std::alloc::{AllocError, Allocator};
use std::marker::Model;

/// Why a text isn't written to its end.
#[derive(Clone, Copy, Debug, PartialEq, Eq)]
pub enum Halt {
    /// There is no memory.
    Memory,
    /// The text of a move isn't among those that are known.
    Unknown,
}

impl From<AllocError> for Halt {
    fn from(_: AllocError) -> Halt {
        Halt::Memory
    }
}

/// How the texts are found.
#[derive(Drop)]
pub enum Way<'t, 'a, A: Allocator> {
    /// By making the moves.
    Made(PlainLine<&'a A>),
    /// Among the known ones, by the place of the last move.
    Known(&'t Texts<'a, A>, usize),
}

/// Finds the texts of moves along the lines of a game, forward and back. Contracts see the line.
#[derive(Drop)]
pub struct Speller<'t, 'a, A: Allocator> {
    way: Way<'t, 'a, A>,
}

impl<'t, 'a, A: Allocator> Model for Speller<'t, 'a, A> {
    ghost use Rattle.chess_types.specs.board.Lines.{Line};
    ghost use Rattle.chess_pgn.specs.steps.Spelling.{IsStill, line_of};
    ghost use Rattle.chess_types.specs.steps.LineCode.{coded_line};

    ghost Value = { Line };

    ghost coded = { coded_line };

    ghost view = { λ s. line_of s.way };

    ghost invariant = { λ s. IsStill s.way };
}

// The number of a move and its periods, where it is due.
fn push_number<'a, A: Allocator>(
    lines: &mut Lines<'a, A>,
    due: bool,
    side: Colour,
    number: u32,
) -> Result<(), AllocError>
    ensures { OnOk result (Adds lines.old lines.new (number_text due side number)) }
{
    let periods: &[u8] = match side {
        Colour::White => b". ",
        Colour::Black if due => b"... ",
        Colour::Black => return Ok(()),
    };
    lines.push(Buffer::new().format(number).as_bytes())?;
    lines.push(periods)
}

// What comes before a move, its number where it is due, and its text.
#[inline(always)]
fn push_spoken<'a, A: Allocator>(
    lines: &mut Lines<'a, A>,
    opening: &[u8],
    due: bool,
    side: Colour,
    number: u32,
    text: &[u8],
) -> Result<(), AllocError>
    ensures { OnOk result (Adds lines.old lines.new (opening.now ++ (number_text due side number ++ text.now))) }
{
    lines.push(opening)?;
    push_number(lines, due, side, number)?;
    lines.push(text)
}

// Makes a move, and writes it: its mark is asked after it.
fn make<'a, A: Allocator>(
    line: &mut PlainLine<&'a A>,
    lines: &mut Lines<'a, A>,
    opening: &[u8],
    due: bool,
    played: Move,
) -> Result<(), Halt>
    requires legal { IsTrue (is_legal (last line.old.line) played) }
    requires few { length line.old.line.moves < most_plies }
    requires still { line.old.looked ≡ 0 }
    ensures adds { OnOk result (Adds lines.old lines.new (spoken_text opening.now due (last line.old.line) played)) }
    ensures line { OnOk result (line.new.line ≡ extended line.old.line played) }
    ensures still { line.new.looked ≡ 0 }
{
    if line.reserve(1).is_err() {
        return Err(Halt::Memory);
    }
    let setup = line.live().position();
    let (side, number) = (setup.side, setup.number);
    let text = line.write_unmarked(played);
    line.push_prepared(played);
    push_spoken(lines, opening, due, side, number, text.as_bytes())?;
    lines.push(line.write_mark().as_bytes())?;
    Ok(())
}

// Goes on by a known move, from the place of the one before it to its own, and writes it.
fn follow<'a, A: Allocator>(
    texts: &Texts<'a, A>,
    place: &mut usize,
    lines: &mut Lines<'a, A>,
    opening: &[u8],
    due: bool,
    next: usize,
    played: Move,
) -> Result<(), Halt>
    ensures adds { OnOk result (Adds lines.old lines.new (spoken_text opening.now due (last (line_at texts.now place.old)) played)) }
    ensures line { OnOk result (line_at texts.now place.new ≡ extended (line_at texts.now place.old) played) }
{
    let Some(known) = texts.find(next, *place, played) else {
        return Err(Halt::Unknown);
    };
    *place = next;
    push_spoken(
        lines,
        opening,
        due,
        known.side,
        known.number,
        known.text.as_bytes(),
    )?;
    Ok(())
}

impl<'t, 'a, A: Allocator> Speller<'t, 'a, A> {
    /// By the moves made on a line.
    pub fn making(line: PlainLine<&'a A>) -> Speller<'t, 'a, A>
        requires still { line.looked ≡ 0 }
        ensures { result ≡ line.entry.line }
    {
        Speller {
            way: Way::Made(line),
        }
    }

    /// Among those that are known of a game that begins as usual.
    pub fn knowing(texts: &'t Texts<'a, A>) -> Speller<'t, 'a, A>
        ensures { result ≡ record { start = start; moves = [] } }
    {
        Speller {
            way: Way::Known(texts, 0),
        }
    }

    /// Goes on by a legal move, that of the node with that number, and writes it after `opening`, its number where it is due.
    #[inline(always)]
    pub fn write(
        &mut self,
        lines: &mut Lines<'a, A>,
        opening: &[u8],
        due: bool,
        node: usize,
        played: Move,
    ) -> Result<(), Halt>
        requires legal { IsTrue (is_legal (last self.old) played) }
        requires few { length self.old.moves < most_plies }
        ensures adds { OnOk result (Adds lines.old lines.new (spoken_text opening.now due (last self.old) played)) }
        ensures line { OnOk result (self.new ≡ extended self.old played) }
    {
        match &mut self.way {
            Way::Made(line) => make(line, lines, opening, due, played),
            Way::Known(texts, place) => follow(texts, place, lines, opening, due, node, played),
        }
    }

    /// The same, but the move is written already.
    pub fn go_on(&mut self, node: usize, played: Move) -> Result<(), Halt>
        requires legal { IsTrue (is_legal (last self.old) played) }
        requires few { length self.old.moves < most_plies }
        ensures line { OnOk result (self.new ≡ extended self.old played) }
    {
        match &mut self.way {
            Way::Made(line) => {
                if line.reserve(1).is_err() {
                    return Err(Halt::Memory);
                }
                line.push_prepared(played);
            }
            Way::Known(texts, place) => {
                if texts.find(node, *place, played).is_none() {
                    return Err(Halt::Unknown);
                }
                *place = node;
            }
        }
        Ok(())
    }

    /// Goes back by a move; nowhere from the beginning.
    pub fn back(&mut self)
        ensures { self.new ≡ shortened self.old }
    {
        match &mut self.way {
            Way::Made(line) => {
                let _taken = line.pop();
            }
            Way::Known(texts, place) => {
                *place = texts.before(*place);
            }
        }
    }
}
