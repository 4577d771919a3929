//! Rows of types that hold other types, and of extensions. They have no bound on their length, so
//! they are written from the first to the last.
ghost use Rattle.std.specs.Prelude.{◌≡◌, ◌<◌, ◌≤◌, ◌++◌, codes, decimal, true, length, map};
ghost use Rattle.std.specs.Prelude.{slice_index_or, slice_range, IsOk};
ghost use Rattle.vx_types.specs.DType.{type_of};
ghost use Rattle.vx_types.specs.Fields.{names_of};
ghost use Rattle.vx_types.specs.RowValue.{null};
ghost use Rattle.vx_model.specs.Columns.{are_long_past};
ghost use Rattle.vx_model.specs.List.{list_column};
ghost use Rattle.vx_column.specs.Cell.{row_of, IsOfType};
ghost use Rattle.vx_print.specs.Fields.{texts_at, AreLabels};
ghost use Rattle.vx_print.specs.Text.{field_names, comma_list, with_labels, lines, name_label, row_text};

use crate::cells::{push_flat, push_id, push_joined};
use crate::joined::push_next;
use crate::lists::span_of;
use crate::name_labels::{labels_of, push_label};
use crate::row::ROOM;
use crate::stored::{names_in, push_stored, storage_of};
use crate::texts::push_listed;
use crate::types::push_word;
use std::alloc::Global;
use std::rc::RcStr;
use vx_bits::NoMemory;
use vx_column::{Array, ArrayRef, Cell, DType, FieldsCell, LayoutName, ListArray, TaggedCell};
use vx_plain::ReadLayout;
use vx_quote::has_room;

// How many bytes an element takes at least, with what stands between two.
const ELEMENT: usize = 3;

// How many bytes the elements of row `i` take at least, where it is a list, also one behind ids.
fn least_bytes(column: &Array, i: usize) -> usize
    requires { i < length column.now.rows }
{
    match column.cell_at(i) {
        Cell::List(list) => list.end.saturating_sub(list.start).saturating_mul(ELEMENT),
        Cell::Tagged(tagged) => least_bytes(tagged.column, tagged.row),
        Cell::Null | Cell::Bit(_) | Cell::Bytes(_) | Cell::Fields(_) => 0,
    }
}

// Whether a union's rows may be lists.
fn has_lists(dtype: &DType) -> bool {
    match dtype {
        DType::Union(variants, _) => variants.types().iter().any(|t| !t.has_scalars()),
        _ => false,
    }
}

// Whether its rows may be the same lists again and again, by its layout.
fn may_repeat(column: &Array) -> bool {
    match column.layout_name() {
        LayoutName::ListView | LayoutName::Map | LayoutName::Dict => true,
        LayoutName::Union => has_lists(column.dtype()),
        _ => false,
    }
}

// Refuses lists whose text can't be within its bound, where it is told at once: views can show the
// same million elements a million times.
fn check_room(text: usize, column: &Array, start: usize, end: usize) -> Result<(), NoMemory>
    requires ordered { start ≤ end }
    requires within { end ≤ length column.now.rows }
{
    if !may_repeat(column) {
        return Ok(());
    }
    let mut bytes: usize = 0;
    for i in start..end {
        bytes = bytes.saturating_add(least_bytes(column, i));
    }
    if has_room(text, bytes) {
        Ok(())
    } else {
        Err(NoMemory)
    }
}

// Appends the rows from `start` up to `end`, with `, ` between them. Each is begun only where the
// text that is there is within its bound.
#[cycle(nested)]
fn push_elements(
    text: &mut Vec<u8>,
    dst: &mut [u8; ROOM],
    column: &Array,
    start: usize,
    end: usize,
) -> Result<(), NoMemory>
    requires ordered { start ≤ end }
    requires within { end ≤ length column.now.rows }
    ensures { IsOk result → text.new.items ≡ text.old.items
        ++ comma_list (map (row_text column.now.dtype) (slice_range column.now.rows start end)) }
{
    if column.dtype().is_flat() {
        return push_joined(text, dst, column, start, end);
    }
    if column.dtype().has_scalars() {
        return push_listed(text, column, start, end);
    }
    check_room(text.len(), column, start, end)?;
    for i in start..end {
        push_next(text, i == start)?;
        push_at(text, dst, &[], column, i)?;
    }
    Ok(())
}

// Appends a list: the rows from `start` up to `end`.
#[cycle(nested)]
fn push_list(
    text: &mut Vec<u8>,
    dst: &mut [u8; ROOM],
    elements: &Array,
    start: usize,
    end: usize,
) -> Result<(), NoMemory>
    requires ordered { start ≤ end }
    requires within { end ≤ length elements.now.rows }
    ensures { IsOk result → text.new.items ≡ text.old.items ++ (codes "["
        ++ comma_list (map (row_text elements.now.dtype)
        (slice_range elements.now.rows start end)) ++ codes "]") }
{
    text.push(b'[')?;
    push_elements(text, dst, storage_of(elements), start, end)?;
    text.push(b']')?;
    Ok(())
}

// Appends row `i` of layout `List`, which is begun only where the text that is there is within its
// bound. It is read by its offsets.
#[cycle(nested)]
#[tactic(auto, using(vx_column::proofs::Cells::there, crate::proofs::Spans::list_texts))]
fn push_list_at(
    text: &mut Vec<u8>,
    dst: &mut [u8; ROOM],
    lists: &ListArray,
    i: usize,
) -> Result<(), NoMemory>
    requires { i < length (list_column lists.now).rows }
    ensures { IsOk result → text.new.items ≡ text.old.items
        ++ row_text (list_column lists.now).dtype
        (slice_index_or (list_column lists.now).rows i null) }
{
    if !has_room(text.len(), 0) {
        return Err(NoMemory);
    }
    if !lists.validity().is_valid_at(i) {
        return push_word(text, b"null");
    }
    let (start, end) = span_of(lists, i);
    push_list(text, dst, lists.elements(), start, end)
}

// Appends row `i`, which is begun only where the text that is there is within its bound. It is read
// as a cell only where its layout tells no quicker way. The labels are those of its first fields,
// where it is a struct.
#[cycle(nested)]
#[tactic(auto, using(crate::proofs::Gaps::alone, crate::proofs::Spans::as_lists))]
fn push_at(
    text: &mut Vec<u8>,
    dst: &mut [u8; ROOM],
    labels: &[Vec<u8>],
    column: &Array,
    i: usize,
) -> Result<(), NoMemory>
    requires row { i < length column.now.rows }
    requires labels { AreLabels (field_names column.now.dtype.kind)
        (map (λ l. l.items) labels.now) }
    ensures { IsOk result → text.new.items ≡ text.old.items
        ++ row_text column.now.dtype (slice_index_or column.now.rows i null) }
{
    if column.dtype().is_flat() {
        return push_flat(text, dst, column, i);
    }
    if column.dtype().has_scalars() {
        // its length fits, so that one more than `i` does
        let _ = column.len();
        return push_listed(text, column, i, i + 1);
    }
    match column.as_list() {
        Some(lists) => push_list_at(text, dst, lists, i),
        None => push_row(text, dst, labels, column.dtype(), column.cell_at(i)),
    }
}

// Appends row `i` of each of these columns, behind its name where it has one, with `, ` between
// them.
#[cycle(nested)]
fn push_fields(
    text: &mut Vec<u8>,
    dst: &mut [u8; ROOM],
    names: &[RcStr],
    labels: &[Vec<u8>],
    columns: &[ArrayRef],
    i: usize,
) -> Result<(), NoMemory>
    requires rows { are_long_past i columns.now ≡ true }
    requires labels { AreLabels (names_of names.now) (map (λ l. l.items) labels.now) }
    ensures { IsOk result → text.new.items ≡ text.old.items
        ++ comma_list (with_labels (map name_label (names_of names.now)) (texts_at columns.now i)) }
{
    for k in 0..columns.len() {
        push_label(text, names, labels, k)?;
        push_at(text, dst, &[], &columns[k], i)?;
    }
    Ok(())
}

// Appends a struct of fields of these names.
#[cycle(nested)]
fn push_struct(
    text: &mut Vec<u8>,
    dst: &mut [u8; ROOM],
    names: &[RcStr],
    labels: &[Vec<u8>],
    fields: FieldsCell<'_>,
) -> Result<(), NoMemory>
    requires rows { are_long_past fields.row fields.columns.now ≡ true }
    requires labels { AreLabels (names_of names.now) (map (λ l. l.items) labels.now) }
    ensures { IsOk result → text.new.items ≡ text.old.items ++ (codes "{" ++ comma_list
        (with_labels (map name_label (names_of names.now))
        (texts_at fields.entry.columns.now fields.entry.row)) ++ codes "}") }
{
    text.push(b'{')?;
    let columns = fields.columns.as_slice();
    push_fields(text, dst, names, labels, columns, fields.row)?;
    text.push(b'}')?;
    Ok(())
}

// Appends a union's row: its id, a colon, and the row of its variant.
#[cycle(nested)]
fn push_tagged(
    text: &mut Vec<u8>,
    dst: &mut [u8; ROOM],
    tagged: TaggedCell<'_>,
) -> Result<(), NoMemory>
    requires { tagged.row < length tagged.column.now.rows }
    ensures { IsOk result → text.new.items ≡ text.old.items ++ (decimal tagged.entry.id ++ codes ":"
        ++ row_text tagged.entry.column.now.dtype
        (slice_index_or tagged.entry.column.now.rows tagged.entry.row null)) }
{
    push_id(text, dst, tagged.id)?;
    push_at(text, dst, &[], tagged.column, tagged.row)
}

// Appends a row of this type, which is begun only where the text that is there is within its bound.
// The labels are those of its first fields, where it is a struct.
#[cycle(nested)]
#[tactic(auto, using(crate::proofs::Elements::element_rows))]
fn push_row(
    text: &mut Vec<u8>,
    dst: &mut [u8; ROOM],
    labels: &[Vec<u8>],
    dtype: &DType,
    row: Cell<'_>,
) -> Result<(), NoMemory>
    requires of_type { IsOfType row (type_of dtype.now) }
    requires labels { AreLabels (field_names (type_of dtype.now).kind)
        (map (λ l. l.items) labels.now) }
    ensures { IsOk result → text.new.items
        ≡ text.old.items ++ row_text (type_of dtype.now) (row_of row.entry) }
{
    if !has_room(text.len(), 0) {
        return Err(NoMemory);
    }
    match row {
        Cell::Null => push_word(text, b"null"),
        Cell::Bit(true) => push_word(text, b"true"),
        Cell::Bit(false) => push_word(text, b"false"),
        Cell::Bytes(bytes) => push_stored(text, dst, dtype, bytes),
        Cell::List(list) => push_list(text, dst, list.elements, list.start, list.end),
        Cell::Fields(fields) => push_struct(text, dst, names_in(dtype), labels, fields),
        Cell::Tagged(tagged) => push_tagged(text, dst, tagged),
    }
}

/// Appends a line for each row of any column. Fails only with `NoMemory`, also where the text would
/// grow past its bound.
pub(crate) fn push_nested(alloc: Global, text: &mut Vec<u8>, column: &Array) -> Result<(), NoMemory>
    ensures { IsOk result → text.new.items
        ≡ text.old.items ++ lines (row_text column.now.dtype) column.now.rows }
{
    let mut dst = [0; ROOM];
    let labels = labels_of(alloc, names_in(column.dtype()))?;
    check_room(text.len(), column, 0, column.len())?;
    for i in 0..column.len() {
        push_at(text, &mut dst, labels.as_slice(), column, i)?;
        text.push(b'\n')?;
    }
    Ok(())
}
