//! Texts and numbers put into a row, with quotation marks where the format has them.

ghost use Rattle.std.specs.Prelude.{◌≡◌, ◌++◌, decimal, OnOk};
ghost use Rattle.chess_positions.specs.Rows.{quote, datum_text};
ghost use Rattle.chess_positions.specs.Columns.{Nothing, Number, Text};

use crate::layout::Format;
use itoa::Buffer;
use std::alloc::{AllocError, Allocator};

/// Some bytes more.
#[inline(always)]
pub(crate) fn put<A: Allocator>(out: &mut Vec<u8, A>, text: &[u8]) -> Result<(), AllocError>
    ensures { OnOk result (out.new.items ≡ out.old.items ++ text.now) }
{
    out.extend_from_slice(text)
}

// What comes before a text and after it.
fn quote(format: Format) -> &'static [u8]
    ensures { result.now ≡ quote format }
{
    match format {
        Format::Csv => b"",
        Format::Jsonl => b"\"",
    }
}

/// A text, which is in two parts.
pub(crate) fn put_both<A: Allocator>(
    out: &mut Vec<u8, A>,
    format: Format,
    text: &[u8],
    rest: &[u8],
) -> Result<(), AllocError>
    ensures { OnOk result (out.new.items ≡ out.old.items ++ datum_text format (Text (text.now ++ rest.now))) }
{
    put(out, quote(format))?;
    put(out, text)?;
    put(out, rest)?;
    put(out, quote(format))
}

/// A text.
pub(crate) fn put_text<A: Allocator>(
    out: &mut Vec<u8, A>,
    format: Format,
    text: &[u8],
) -> Result<(), AllocError>
    ensures { OnOk result (out.new.items ≡ out.old.items ++ datum_text format (Text text.now)) }
{
    put(out, quote(format))?;
    put(out, text)?;
    put(out, quote(format))
}

/// A number.
pub(crate) fn put_number<A: Allocator>(out: &mut Vec<u8, A>, number: u64) -> Result<(), AllocError>
    ensures { OnOk result (out.new.items ≡ out.old.items ++ decimal number) }
{
    put(out, Buffer::new().format(number).as_bytes())
}

/// A value that isn't there.
pub(crate) fn put_nothing<A: Allocator>(
    out: &mut Vec<u8, A>,
    format: Format,
) -> Result<(), AllocError>
    ensures { OnOk result (out.new.items ≡ out.old.items ++ datum_text format Nothing) }
{
    match format {
        Format::Csv => Ok(()),
        Format::Jsonl => put(out, b"null"),
    }
}
