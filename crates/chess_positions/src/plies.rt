//! The rows of a game's main line, ply by ply, and the header before them.

ghost use Rattle.std.specs.Prelude.{◌≡◌, ◌≤◌, ◌++◌, [], IfOk, OnOk};
ghost use Rattle.std.specs.List.{list_any};
ghost use Rattle.chess_draws.specs.Pushes.{most_plies};
ghost use Rattle.chess_tree.specs.Forest.{height};
ghost use Rattle.chess_tree.specs.WellFormed.{AreSound};
ghost use Rattle.chess_report.specs.MainLine.{main};
ghost use Rattle.chess_positions.specs.Columns.{column_name};
ghost use Rattle.chess_positions.specs.Rows.{with_commas, names_text, after_commas, plies_text};
ghost use Rattle.chess_positions.specs.steps.Made.{is_san};

use crate::cell::Of;
use crate::column::Column;
use crate::layout::{Format, Layout};
use crate::made::make;
use crate::put::put;
use crate::row::put_row;
use chess_attack::Nothing;
use chess_draws::{LineWith, PlainLine};
use chess_pgn::Game;
use chess_tree::Tree;
use std::alloc::{AllocError, Allocator};

// Whether a column has moves in standard algebraic notation.
fn has_san(columns: &[Column]) -> bool
    ensures { result ≡ list_any is_san columns.now }
{
    columns.iter().any(|column| *column == Column::San)
}

// The rows of all plies of the main line.
fn follow<A: Allocator, B: Allocator, C: Allocator>(
    out: &mut Vec<u8, C>,
    layout: &Layout,
    of: Of,
    tree: &Tree<'_, A>,
    line: &mut PlainLine<B>,
) -> Result<(), AllocError>
    requires start { line.old.line ≡ record { start = tree.now.tree.start; moves = [] } }
    requires none { line.old.looked ≡ 0 }
    requires sound { AreSound tree.now.tree.start tree.now.tree.below }
    requires deep { height tree.now.tree.below ≤ most_plies }
    ensures { OnOk result (out.new.items ≡ out.old.items ++ plies_text layout.now.format layout.now.columns.items of.number of.outcome (main tree.now.tree)) }
{
    let with_san = has_san(layout.columns.as_slice());
    put_row(out, layout, of, &None, line)?;
    let mut node = tree.root();
    while let Some(next) = node.child(0) {
        let Some(played) = next.move_at() else {
            unreachable!();
        };
        let made = make(line, with_san, played)?;
        put_row(out, layout, of, &Some(made), line)?;
        node = next;
    }
    Ok(())
}

/// The rows of the plies of a game's main line, from its start to its last position, one after another.
///
/// # Errors
///
/// Want of memory.
pub fn rows<'a, A: Allocator, B: Allocator>(
    alloc: &'a B,
    layout: &Layout,
    number: u64,
    game: &Game<'_, A>,
) -> Result<Vec<u8, &'a B>, AllocError>
    ensures { IfOk result (λ rows. rows.items ≡ plies_text layout.now.format layout.now.columns.items number game.now.result (main game.now.tree.tree)) }
{
    let Ok(start) = game.tree.position().clone() else {
        unreachable!();
    };
    let mut line = LineWith::with(alloc, start, Nothing);
    let mut out = Vec::new(alloc);
    let of = Of {
        number,
        outcome: game.result,
    };
    follow(&mut out, layout, of, &game.tree, &mut line)?;
    Ok(out)
}

// The names of some columns, each after a comma.
fn put_names<A: Allocator>(out: &mut Vec<u8, A>, columns: &[Column]) -> Result<(), AllocError>
    ensures { OnOk result (out.new.items ≡ out.old.items ++ after_commas column_name columns.now) }
{
    for column in columns {
        put(out, b",")?;
        put(out, column.name().as_bytes())?;
    }
    Ok(())
}

// The names of some columns, with commas between them.
fn put_all_names<A: Allocator>(out: &mut Vec<u8, A>, columns: &[Column]) -> Result<(), AllocError>
    ensures { OnOk result (out.new.items ≡ out.old.items ++ with_commas column_name columns.now) }
{
    let Some((first, rest)) = columns.split_first() else {
        return Ok(());
    };
    put(out, first.name().as_bytes())?;
    put_names(out, rest)
}

/// What comes before the rows: of comma-separated values a row of the columns' names, of JSON nothing.
///
/// # Errors
///
/// Want of memory.
pub fn header<A: Allocator>(alloc: A, layout: &Layout) -> Result<Vec<u8, A>, AllocError>
    ensures { IfOk result (λ text. text.items ≡ names_text layout.now.format layout.now.columns.items) }
{
    let mut out = Vec::new(alloc);
    match layout.format {
        Format::Jsonl => {}
        Format::Csv => {
            put_all_names(&mut out, layout.columns.as_slice())?;
            put(&mut out, b"\r\n")?;
        }
    }
    Ok(out)
}
