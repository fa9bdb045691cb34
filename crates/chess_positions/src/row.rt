//! A row from its cells: what comes before, between and after them in each format.

ghost use Rattle.std.specs.Prelude.{◌≡◌, ◌++◌, ◌∷◌, [], map, OnOk};
ghost use Rattle.std.specs.List.{list_any};
ghost use Rattle.chess_draws.specs.LineParts.{IsAsBefore};
ghost use Rattle.chess_positions.specs.Columns.{datum};
ghost use Rattle.chess_positions.specs.Rows.{cell_text, with_commas, closing, label, after_commas, opening, ply_text};
ghost use Rattle.chess_positions.specs.steps.Made.{IsReached, is_san};

use crate::cell::{Of, put_value};
use crate::column::Column;
use crate::layout::{Format, Layout};
use crate::made::Made;
use crate::put::put;
use chess_draws::PlainLine;
use std::alloc::{AllocError, Allocator};

// What comes before a value.
fn label(format: Format, column: Column) -> &'static [u8]
    ensures { result.now ≡ label format column }
{
    match (format, column) {
        (Format::Csv, _) => b"",
        (Format::Jsonl, Column::Game) => b"\"game\":",
        (Format::Jsonl, Column::Ply) => b"\"ply\":",
        (Format::Jsonl, Column::Uci) => b"\"uci\":",
        (Format::Jsonl, Column::San) => b"\"san\":",
        (Format::Jsonl, Column::Fen) => b"\"fen\":",
        (Format::Jsonl, Column::Epd) => b"\"epd\":",
        (Format::Jsonl, Column::Key) => b"\"key\":",
        (Format::Jsonl, Column::Repetitions) => b"\"repetitions\":",
        (Format::Jsonl, Column::Status) => b"\"status\":",
        (Format::Jsonl, Column::Result) => b"\"result\":",
    }
}

// What comes before the cells of a row.
fn opening(format: Format) -> &'static [u8]
    ensures { result.now ≡ opening format }
{
    match format {
        Format::Csv => b"",
        Format::Jsonl => b"{",
    }
}

// What comes after them.
fn closing(format: Format) -> &'static [u8]
    ensures { result.now ≡ closing format }
{
    match format {
        Format::Csv => b"\r\n",
        Format::Jsonl => b"}\n",
    }
}

// A cell: a value, after its name where the format has that.
fn put_cell<A: Allocator, B: Allocator>(
    out: &mut Vec<u8, A>,
    format: Format,
    column: Column,
    of: Of,
    reached: &Option<Made>,
    line: &mut PlainLine<B>,
) -> Result<(), AllocError>
    requires none { line.old.looked ≡ 0 }
    requires reached { IsReached (is_san column) line.old.line reached.now }
    ensures text { OnOk result (out.new.items ≡ out.old.items ++ cell_text format of.number of.outcome line.old.line column) }
    ensures as_before { IsAsBefore line.old line.new }
{
    put(out, label(format, column))?;
    put_value(out, format, column, of, reached, line)
}

// The cells of some columns, each after a comma.
fn put_more<A: Allocator, B: Allocator>(
    out: &mut Vec<u8, A>,
    format: Format,
    columns: &[Column],
    of: Of,
    reached: &Option<Made>,
    line: &mut PlainLine<B>,
) -> Result<(), AllocError>
    requires none { line.old.looked ≡ 0 }
    requires reached { IsReached (list_any is_san columns.now) line.old.line reached.now }
    ensures text { OnOk result (out.new.items ≡ out.old.items ++ after_commas (cell_text format of.number of.outcome line.old.line) columns.now) }
    ensures as_before { IsAsBefore line.old line.new }
{
    for column in columns {
        put(out, b",")?;
        put_cell(out, format, *column, of, reached, line)?;
    }
    Ok(())
}

// The cells of some columns, with commas between them.
fn put_cells<A: Allocator, B: Allocator>(
    out: &mut Vec<u8, A>,
    format: Format,
    columns: &[Column],
    of: Of,
    reached: &Option<Made>,
    line: &mut PlainLine<B>,
) -> Result<(), AllocError>
    requires none { line.old.looked ≡ 0 }
    requires reached { IsReached (list_any is_san columns.now) line.old.line reached.now }
    ensures text { OnOk result (out.new.items ≡ out.old.items ++ with_commas (cell_text format of.number of.outcome line.old.line) columns.now) }
    ensures as_before { IsAsBefore line.old line.new }
{
    let Some((first, rest)) = columns.split_first() else {
        return Ok(());
    };
    put_cell(out, format, *first, of, reached, line)?;
    put_more(out, format, rest, of, reached, line)
}

/// The row of the line's last ply.
pub(crate) fn put_row<A: Allocator, B: Allocator>(
    out: &mut Vec<u8, A>,
    layout: &Layout,
    of: Of,
    reached: &Option<Made>,
    line: &mut PlainLine<B>,
) -> Result<(), AllocError>
    requires none { line.old.looked ≡ 0 }
    requires reached { IsReached (list_any is_san layout.now.columns.items) line.old.line reached.now }
    ensures text { OnOk result (out.new.items ≡ out.old.items ++ ply_text layout.now.format layout.now.columns.items of.number of.outcome line.old.line) }
    ensures as_before { IsAsBefore line.old line.new }
{
    put(out, opening(layout.format))?;
    put_cells(
        out,
        layout.format,
        layout.columns.as_slice(),
        of,
        reached,
        line,
    )?;
    put(out, closing(layout.format))
}
