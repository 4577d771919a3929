//! Lines of rows of text, which have no bound on their length: written from the first to the last.
ghost use Rattle.std.specs.Prelude.{◌≡◌, ◌++◌, ◌<◌, ◌≤◌, length, map, slice_range};
ghost use Rattle.std.specs.Prelude.{true, IsOk};
ghost use Rattle.vx_types.specs.DType.{type_of};
ghost use Rattle.vx_types.specs.Scalar.{is_text_kind};
ghost use Rattle.vx_column.specs.Cell.{row_of, IsOfType};
ghost use Rattle.vx_print.specs.Text.{bytes_text, comma_list, lines, row_text};

use crate::joined::push_next;
use vx_bits::NoMemory;
use vx_column::{Array, Cell, DType};
use vx_quote::{has_room, push_digits, push_quoted};

// From this length of a text on the rows that are left are added up.
const LONG: usize = 1 << 26;

/// Appends the bytes of a row of text, as its type says. Fails only with `NoMemory`, also where the
/// text would grow past its bound.
#[inline(always)]
pub(crate) fn push_bytes(text: &mut Vec<u8>, dtype: &DType, bytes: &[u8]) -> Result<(), NoMemory>
    requires { is_text_kind (type_of dtype.now).kind ≡ true }
    ensures { IsOk result → text.new.items
        ≡ text.old.items ++ bytes_text (type_of dtype.now).kind bytes.now }
{
    if !has_room(text.len(), bytes.len()) {
        return Err(NoMemory);
    }
    match dtype {
        DType::Utf8(_) => push_quoted(text, bytes),
        DType::Binary(_) => push_digits(text, bytes),
        _ => unreachable!(),
    }
}

// Appends a row of this type.
#[inline(always)]
fn push_row(text: &mut Vec<u8>, dtype: &DType, row: Cell<'_>) -> Result<(), NoMemory>
    requires text { is_text_kind (type_of dtype.now).kind ≡ true }
    requires of_type { IsOfType row (type_of dtype.now) }
    ensures { IsOk result → text.new.items
        ≡ text.old.items ++ row_text (type_of dtype.now) (row_of row.entry) }
{
    match row {
        Cell::Null => {
            text.extend_from_slice(b"null")?;
            Ok(())
        }
        Cell::Bytes(bytes) => push_bytes(text, dtype, bytes),
        Cell::Bit(_) | Cell::List(_) | Cell::Fields(_) | Cell::Tagged(_) => unreachable!(),
    }
}

// How many bytes a row of text has, as they are stored.
fn stored_len(column: &Array, i: usize) -> usize
    requires text { is_text_kind column.now.dtype.kind ≡ true }
    requires row { i < length column.now.rows }
{
    match column.cell_at(i) {
        Cell::Null => 0,
        Cell::Bytes(bytes) => bytes.len(),
        Cell::Bit(_) | Cell::List(_) | Cell::Fields(_) | Cell::Tagged(_) => unreachable!(),
    }
}

// Whether the rows from `start` on may be begun behind a text of `len`: each takes at least the
// bytes that it has stored, so where these are too many some row of them would not.
fn have_room(column: &Array, start: usize, len: usize) -> bool
    requires { is_text_kind column.now.dtype.kind ≡ true }
{
    let mut end = len;
    for i in start..column.len() {
        let bytes = stored_len(column, i);
        if !has_room(end, bytes) {
            return false;
        }
        end = end.saturating_add(bytes);
    }
    true
}

/// Appends a line for each row of a column of text. Fails only with `NoMemory`, also where the text
/// would grow past its bound: what is left is added up once the text is long, so that a text that
/// can't be printed to its end is given up early.
pub(crate) fn push_texts(text: &mut Vec<u8>, column: &Array) -> Result<(), NoMemory>
    requires { is_text_kind column.now.dtype.kind ≡ true }
    ensures { IsOk result → text.new.items
        ≡ text.old.items ++ lines (row_text column.now.dtype) column.now.rows }
{
    let dtype = column.dtype();
    let mut next_test = LONG;
    for i in 0..column.len() {
        if text.len() >= next_test {
            if !have_room(column, i, text.len()) {
                return Err(NoMemory);
            }
            next_test = usize::MAX;
        }
        push_row(text, dtype, column.cell_at(i))?;
        text.push(b'\n')?;
    }
    Ok(())
}

/// Appends the rows from `start` up to `end` of a column of text, with `, ` between them. Fails
/// only with `NoMemory`, also where the text would grow past its bound.
pub(crate) fn push_listed(
    text: &mut Vec<u8>,
    column: &Array,
    start: usize,
    end: usize,
) -> Result<(), NoMemory>
    requires text { is_text_kind column.now.dtype.kind ≡ true }
    requires ordered { start ≤ end }
    requires within { end ≤ length column.now.rows }
    ensures { IsOk result → text.new.items ≡ text.old.items
        ++ comma_list (map (row_text column.now.dtype) (slice_range column.now.rows start end)) }
{
    let dtype = column.dtype();
    for i in start..end {
        push_next(text, i == start)?;
        push_row(text, dtype, column.cell_at(i))?;
    }
    Ok(())
}
