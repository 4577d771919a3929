//! Columns and rows as text.
ghost use Rattle.std.specs.Prelude.{◌≡◌, ◌-◌, ◌<◌, IfOk, Some, length, slice_get, string_bytes};
ghost use Rattle.std.specs.List.{slice_range};
ghost use Rattle.std.specs.Option.{option_map};
ghost use Rattle.std.specs.Str.{IsUtf8};
ghost use Rattle.vx_print.specs.Text.{row_text, text};

use std::alloc::Global;
use vx_bits::NoMemory;
use vx_column::Array;
use vx_dispatch::slice;
use vx_print::text_of as bytes_of;

// These bytes as a text.
fn as_text(bytes: Vec<u8>) -> String
    requires { IsUtf8 bytes.items }
    ensures { string_bytes result ≡ bytes.items }
{
    match String::from_utf8(bytes) {
        Ok(text) => text,
        Err(_) => unreachable!(),
    }
}

/// The text of a column, as the program prints it: the line of its type, and a line for each row.
/// Fails only with `NoMemory`.
pub fn text_of(alloc: Global, column: &Array) -> Result<String, NoMemory>
    ensures { IfOk result (λ t. string_bytes t ≡ text column.now.dtype column.now.rows) }
{
    Ok(as_text(bytes_of(alloc, column)?))
}

// The text from `start` on, without its last byte.
fn all_but_last(text: &[u8], start: usize) -> &[u8]
    requires { start < length text.now }
    ensures { result.now ≡ slice_range text.now start (length text.now - 1) }
{
    &text[start..text.len() - 1]
}

// The bytes of the text of row `i`.
fn row_bytes(alloc: Global, column: &Array, i: usize) -> Result<Vec<u8>, NoMemory>
    requires { i < length column.now.rows }
    ensures { IfOk result (λ t. option_map (row_text column.now.dtype)
        (slice_get column.now.rows i) ≡ Some t.items) }
{
    // one more than `i` is at most their number
    let _ = column.len();
    let head = bytes_of(alloc, &slice(alloc, column, i, i)?)?;
    let whole = bytes_of(alloc, &slice(alloc, column, i, i + 1)?)?;
    let row = all_but_last(whole.as_slice(), head.len());
    Ok(Vec::from_slice(alloc, row)?)
}

/// The text of row `i`, as the program prints it, without a line feed. Fails only with `NoMemory`.
pub fn text_of_row(alloc: Global, column: &Array, i: usize) -> Result<String, NoMemory>
    requires { i < length column.now.rows }
    ensures { IfOk result (λ t. option_map (row_text column.now.dtype)
        (slice_get column.now.rows i) ≡ Some (string_bytes t)) }
{
    Ok(as_text(row_bytes(alloc, column, i)?))
}
