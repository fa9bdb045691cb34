//! What a row has in each column, written after the last move of a line.

ghost use Rattle.std.specs.Prelude.{◌≡◌, ◌++◌, true, option_map, OnOk};
ghost use Rattle.chess_types.specs.board.Lines.{last};
ghost use Rattle.chess_types.specs.board.Texts.{move_text};
ghost use Rattle.chess_fen.specs.Writing.{identity, written};
ghost use Rattle.chess_draws.specs.LineParts.{IsAsBefore};
ghost use Rattle.chess_polyglot.specs.Keys.{polyglot_key};
ghost use Rattle.chess_positions.specs.Columns.{Text, key_text, text_if, san_of, datum};
ghost use Rattle.chess_positions.specs.Rows.{datum_text};
ghost use Rattle.chess_positions.specs.steps.Made.{IsReached, is_san};

use crate::column::Column;
use crate::layout::Format;
use crate::made::Made;
use crate::put::{put, put_both, put_nothing, put_number, put_text};
use arrayvec::ArrayString;
use chess_draws::PlainLine;
use chess_fen::write_fields;
use chess_items::Outcome;
use chess_types::Setup;
use hex::encode_to_slice;
use itoa::Buffer;
use std::alloc::{AllocError, Allocator};

/// What is the same in all rows of a game.
#[derive(Clone, Copy)]
pub(crate) struct Of {
    pub number: u64,
    pub outcome: Outcome,
}

// The move that led here.
fn put_move<A: Allocator>(
    out: &mut Vec<u8, A>,
    format: Format,
    reached: &Option<Made>,
) -> Result<(), AllocError>
    ensures { OnOk result (out.new.items ≡ out.old.items ++ datum_text format (text_if (option_map (λ made. move_text made.played) reached.now))) }
{
    match reached {
        Some(made) => put_text(out, format, made.played.text().as_bytes()),
        None => put_nothing(out, format),
    }
}

// Its text in standard algebraic notation.
fn put_san<A: Allocator, B: Allocator>(
    out: &mut Vec<u8, A>,
    format: Format,
    reached: &Option<Made>,
    line: &mut PlainLine<B>,
) -> Result<(), AllocError>
    requires reached { IsReached true line.old.line reached.now }
    ensures text { OnOk result (out.new.items ≡ out.old.items ++ datum_text format (text_if (san_of line.old.line))) }
    ensures as_before { IsAsBefore line.old line.new }
{
    match reached {
        Some(made) => {
            let mark = line.write_mark();
            put_both(out, format, made.unmarked.as_bytes(), mark.as_bytes())
        }
        None => put_nothing(out, format),
    }
}

// The FEN of a position.
#[tactic(auto, unfolding(chess_fen::specs::Writing::written, chess_fen::specs::Writing::four_fields))]
fn fen_text(setup: &Setup) -> ArrayString<128>
    ensures { result.bytes ≡ written setup.now }
{
    let mut text = write_fields(setup, setup.target);
    text.push_str(" ");
    text.push_str(Buffer::new().format(setup.clock));
    text.push_str(" ");
    text.push_str(Buffer::new().format(setup.number));
    text
}

// A key's digits.
fn key_text(key: u64) -> [u8; 16]
    ensures { result ≡ key_text key }
{
    let mut digits = [0; 16];
    if encode_to_slice(key.to_be_bytes(), &mut digits).is_err() {
        unreachable!();
    }
    digits
}

// The FEN of the last position, the four fields that show which positions are the same, and Polyglot's key: each buffer is in a frame of its own,
// so that no other cell has to clear it.
#[inline(never)]
fn put_fen<A: Allocator, B: Allocator>(
    out: &mut Vec<u8, A>,
    format: Format,
    line: &PlainLine<B>,
) -> Result<(), AllocError>
    ensures { OnOk result (out.new.items ≡ out.old.items ++ datum_text format (Text (written (last line.now.line)))) }
{
    put_text(out, format, fen_text(line.live().position()).as_bytes())
}

#[inline(never)]
fn put_epd<A: Allocator, B: Allocator>(
    out: &mut Vec<u8, A>,
    format: Format,
    line: &PlainLine<B>,
) -> Result<(), AllocError>
    ensures { OnOk result (out.new.items ≡ out.old.items ++ datum_text format (Text (identity (last line.now.line)))) }
{
    put_text(out, format, line.identity().as_bytes())
}

#[inline(never)]
fn put_key<A: Allocator, B: Allocator>(
    out: &mut Vec<u8, A>,
    format: Format,
    line: &PlainLine<B>,
) -> Result<(), AllocError>
    ensures { OnOk result (out.new.items ≡ out.old.items ++ datum_text format (Text (key_text (polyglot_key (last line.now.line))))) }
{
    let key = chess_polyglot::key(line.live().position());
    put_text(out, format, &key_text(key))
}

/// What a row has in a column, after the last move of the line.
pub(crate) fn put_value<A: Allocator, B: Allocator>(
    out: &mut Vec<u8, A>,
    format: Format,
    column: Column,
    of: Of,
    reached: &Option<Made>,
    line: &mut PlainLine<B>,
) -> Result<(), AllocError>
    requires none { line.old.looked ≡ 0 }
    requires reached { IsReached (is_san column) line.old.line reached.now }
    ensures text { OnOk result (out.new.items ≡ out.old.items ++ datum_text format (datum column of.number of.outcome line.old.line)) }
    ensures as_before { IsAsBefore line.old line.new }
{
    match column {
        Column::Game => put_number(out, of.number),
        Column::Ply => put_number(out, line.plies() as u64),
        Column::Uci => put_move(out, format, reached),
        Column::San => put_san(out, format, reached, line),
        Column::Fen => put_fen(out, format, line),
        Column::Epd => put_epd(out, format, line),
        Column::Key => put_key(out, format, line),
        Column::Repetitions => put_number(out, line.count() as u64),
        Column::Status => put_text(out, format, line.status().name().as_bytes()),
        Column::Result => put_text(out, format, of.outcome.marker().as_bytes()),
    }
}
