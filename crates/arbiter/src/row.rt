//! How the cells of a row are written: as comma-separated values (RFC 4180), or as a JSON object on a line.

ghost use Rattle.std.specs.Prelude.{◌≡◌, ◌<◌, ◌++◌, ◌∷◌, [], flat_map, length, map, string_bytes, IfOk, OnOk};
ghost use Rattle.std.specs.Char.{encode_utf8};
ghost use Rattle.csv.specs.Writing as csv;
ghost use Rattle.json.specs.Token.{string};
ghost use Rattle.json.specs.Print.{print};
ghost use Rattle.arbiter.specs.Cells.{as_text, as_utf8, begins_formula, behind_comma, csv_lines, csv_text, is_formula, json_value, member, name_and_value, object, row_text, value_of};
ghost use Rattle.arbiter.specs.declared.row.Format.TheVariants.{Csv, Jsonl};

use crate::cell::{Cell, Value};
use itoa::Buffer;
use json::Writer;
use std::alloc::{AllocError, Global};
use std::str;

/// How rows are written.
#[derive(Clone, Copy)]
pub enum Format {
    /// Comma-separated values (RFC 4180). A value that isn't there is empty.
    Csv,
    /// A JSON object a line. A value that isn't there is `null`.
    Jsonl,
}

// Whether a field with that byte has to be between quotation marks.
fn is_special(byte: u8) -> bool
    ensures { result ≡ csv.needs_byte csv_lines byte }
{
    matches!(byte, b',' | b'"' | b'\r' | b'\n')
}

// Whether a field has to be between quotation marks.
fn needs_quotes(field: &[u8]) -> bool
    ensures { result ≡ csv.needs_quotes csv_lines field.now }
{
    for byte in field {
        if is_special(*byte) {
            return true;
        }
    }
    false
}

// Adds a field between quotation marks.
fn put_quoted(row: &mut Vec<u8>, field: &[u8]) -> Result<(), AllocError>
    ensures { OnOk result (row.new.items ≡ row.old.items ++ csv.quoted csv_lines field.now) }
{
    row.push(b'"')?;
    for byte in field {
        if *byte == b'"' {
            row.push(b'"')?;
        }
        row.push(*byte)?;
    }
    row.push(b'"')?;
    Ok(())
}

// Adds a field.
fn put_field(row: &mut Vec<u8>, field: &[u8]) -> Result<(), AllocError>
    ensures { OnOk result (row.new.items ≡ row.old.items ++ csv.field_text csv_lines field.now) }
{
    if needs_quotes(field) {
        return put_quoted(row, field);
    }
    row.extend_from_slice(field)
}

// Whether a byte begins a formula.
fn begins_formula(byte: u8) -> bool
    ensures { result ≡ begins_formula byte }
{
    matches!(byte, b'=' | b'+' | b'-' | b'@' | b'\t' | b'\n' | b'\r')
}

// Whether a spreadsheet may take a text for a formula.
fn is_formula(text: &[u8]) -> bool
    ensures { result ≡ is_formula text.now }
{
    match text {
        [] => false,
        [byte] => begins_formula(*byte) & (*byte != b'-'),
        [byte, ..] => begins_formula(*byte),
    }
}

// Adds a text as a field that is no formula.
fn put_plain(alloc: Global, row: &mut Vec<u8>, text: &[u8]) -> Result<(), AllocError>
    ensures { OnOk result (row.new.items ≡ row.old.items ++ csv.field_text csv_lines (as_text text.now)) }
{
    if !is_formula(text) {
        return put_field(row, text);
    }
    let mut field = Vec::from_slice(alloc, b"'")?;
    field.extend_from_slice(text)?;
    put_field(row, field.as_slice())
}

// A text of ISO 8859-1.
fn latin_1(alloc: Global, text: &[u8]) -> Result<String, AllocError>
    ensures { IfOk result (λ s. string_bytes s ≡ flat_map encode_utf8 text.now) }
{
    let mut chars = String::new(alloc);
    for byte in text {
        chars.push(*byte as char)?;
    }
    Ok(chars)
}

// Adds a text of any bytes as a field.
fn put_bytes(alloc: Global, row: &mut Vec<u8>, text: &[u8]) -> Result<(), AllocError>
    ensures { OnOk result (row.new.items ≡ row.old.items ++ csv.field_text csv_lines (as_text (as_utf8 text.now))) }
{
    match str::from_utf8(text) {
        Ok(text) => put_plain(alloc, row, text.as_bytes()),
        Err(_) => put_plain(alloc, row, latin_1(alloc, text)?.as_bytes()),
    }
}

// Adds a value as a field.
fn put_csv(alloc: Global, row: &mut Vec<u8>, value: Value<'_>) -> Result<(), AllocError>
    ensures { OnOk result (row.new.items ≡ row.old.items ++ csv.field_text csv_lines (csv_text (value_of value.entry))) }
{
    match value {
        Value::Number(number) => put_field(row, Buffer::new().format(number).as_bytes()),
        Value::Word(word) => put_plain(alloc, row, word.as_bytes()),
        Value::Text(text) => put_bytes(alloc, row, text),
        Value::Truth(truth) => put_field(row, if truth { b"true" } else { b"false" }),
        Value::Nothing => put_field(row, b""),
    }
}

// Adds the fields after the first.
fn put_others(alloc: Global, row: &mut Vec<u8>, cells: &[Cell<'_>]) -> Result<(), AllocError>
    ensures { OnOk result (row.new.items ≡ row.old.items ++ flat_map behind_comma (map name_and_value cells.now)) }
{
    for cell in cells {
        row.push(b',')?;
        put_csv(alloc, row, cell.value)?;
    }
    Ok(())
}

// A row as comma-separated values.
fn csv_row(alloc: Global, cells: &[Cell<'_>]) -> Result<Vec<u8>, AllocError>
    requires { 1 < length cells.now }
    ensures { IfOk result (λ row. row.items ≡ row_text Csv (map name_and_value cells.now)) }
{
    let mut row = Vec::with_capacity(alloc, 512)?;
    put_csv(alloc, &mut row, cells[0].value)?;
    put_others(alloc, &mut row, &cells[1..])?;
    row.extend_from_slice(b"\r\n")?;
    Ok(row)
}

// A text in JSON.
fn put_text(alloc: Global, writer: &mut Writer, text: &[u8]) -> Result<(), AllocError>
    ensures tokens { OnOk result (writer.new.tokens ≡ writer.old.tokens ++ string (as_utf8 text.now) ∷ []) }
    ensures before { OnOk result (writer.new.before ≡ writer.old.before) }
{
    match str::from_utf8(text) {
        Ok(text) => writer.string(text),
        Err(_) => writer.string(latin_1(alloc, text)?.as_str()),
    }
}

// A value in JSON.
fn put_value(alloc: Global, writer: &mut Writer, value: Value<'_>) -> Result<(), AllocError>
    ensures tokens { OnOk result (writer.new.tokens ≡ writer.old.tokens ++ json_value (value_of value.entry) ∷ []) }
    ensures before { OnOk result (writer.new.before ≡ writer.old.before) }
{
    match value {
        Value::Number(number) => writer.u64(number),
        Value::Word(word) => put_text(alloc, writer, word.as_bytes()),
        Value::Text(text) => put_text(alloc, writer, text),
        Value::Truth(truth) => writer.boolean(truth),
        Value::Nothing => writer.null(),
    }
}

// A value after its name.
fn put_member(alloc: Global, writer: &mut Writer, cell: Cell<'_>) -> Result<(), AllocError>
    ensures tokens { OnOk result (writer.new.tokens ≡ writer.old.tokens ++ member (name_and_value cell.entry)) }
    ensures before { OnOk result (writer.new.before ≡ writer.old.before) }
{
    writer.key(cell.name)?;
    put_value(alloc, writer, cell.value)
}

// A JSON object.
fn json_object(alloc: Global, cells: &[Cell<'_>]) -> Result<Vec<u8>, AllocError>
    ensures { IfOk result (λ row. row.items ≡ print (object (map name_and_value cells.now))) }
{
    let mut writer = Writer::new(Vec::new(alloc));
    writer.begin_object()?;
    for cell in cells {
        put_member(alloc, &mut writer, *cell)?;
    }
    writer.end_object()?;
    Ok(writer.into_inner())
}

// A line of JSON.
fn json_line(alloc: Global, cells: &[Cell<'_>]) -> Result<Vec<u8>, AllocError>
    ensures { IfOk result (λ row. row.items ≡ row_text Jsonl (map name_and_value cells.now)) }
{
    let mut line = json_object(alloc, cells)?;
    line.push(b'\n')?;
    Ok(line)
}

/// The bytes of a row of these cells.
pub fn row_bytes(alloc: Global, format: Format, cells: &[Cell<'_>]) -> Result<Vec<u8>, AllocError>
    requires { 1 < length cells.now }
    ensures { IfOk result (λ row. row.items ≡ row_text format (map name_and_value cells.now)) }
{
    match format {
        Format::Csv => csv_row(alloc, cells),
        Format::Jsonl => json_line(alloc, cells),
    }
}
