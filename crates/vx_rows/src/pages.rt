//! Pages: a column of structs as a table of its fields, of which one page is printed.
ghost use Rattle.std.specs.Prelude.{◌≡◌, ◌<◌, false, length, map, IfOk, IfSome, MatchOption, Some};
ghost use Rattle.std.specs.List.{range_with_len};
ghost use Rattle.vx_types.specs.DType.{type_of};
ghost use Rattle.vx_types.specs.Fields.{names_of};
ghost use Rattle.vx_model.specs.Columns.{types_in};
ghost use Rattle.vx_model.specs.Struct.{struct_column};
ghost use Rattle.vx_steps.specs.Compose.{IsUnbroken};
ghost use Rattle.vx_steps.specs.Step.{step_value};
ghost use Rattle.vx_steps.specs.Walk.{walk};
ghost use Rattle.vx_select.specs.Select.{IsAnswer};
ghost use Rattle.vx_table.specs.Page.{IsPage};
ghost use Rattle.vx_document.specs.Documents.{document_value};
ghost use Rattle.vx_rows.specs.Pages.{is_table, page_answer, page_of};
ghost use Rattle.vx_rows.specs.Program.{of_page, of_page_answer};
ghost use Rattle.vx_rows.specs.Reply.{IsHonest, Replies};
ghost use Rattle.vx_rows.specs.Tables.{AreTable, IsTableOf, fields_in, fields_table, table_structs};

use crate::asked::Asked;
use crate::reply::{Reply, reply_with};
use std::alloc::Global;
use std::rc::RcStr;
use vx_bits::NoMemory;
use vx_column::{Array, ArrayRef, ColumnError, DType, StructArray, StructFields, Validity};
use vx_document::{Document, DocumentSource};
use vx_mask::Policy;
use vx_plain::ReadLayout;
use vx_select::{SelectError, Step, check_steps};
use vx_shared::Shared;
use vx_table::{Table, page};

// The structs of a column that is a table.
fn table_in(column: &Array) -> Option<&StructArray>
    ensures { MatchOption result (is_table column.now ≡ false)
        (λ structs. IsTableOf column.now structs.now) }
{
    match column.as_struct() {
        Some(structs) => match structs.validity() {
            Validity::NonNullable => Some(structs),
            Validity::AllValid | Validity::AllInvalid | Validity::Array(_) => None,
        },
        None => None,
    }
}

// The names once again.
fn copied_names(alloc: Global, names: &[RcStr]) -> Result<Vec<RcStr>, NoMemory>
    ensures { IfOk result (λ copy. names_of copy.items ≡ names_of names.now) }
{
    let mut copy = Vec::with_capacity(alloc, names.len())?;
    for name in names {
        copy.push(name.clone()?)?;
    }
    Ok(copy)
}

// The fields as a table. None of their rows is copied.
fn table_of(alloc: Global, structs: &StructArray) -> Result<Table, NoMemory>
    ensures { IfOk result (λ t. t ≡ fields_table structs.now) }
{
    let names = copied_names(alloc, structs.struct_fields().names())?;
    match Table::try_new(names, structs.fields().share(), structs.len()) {
        Ok(table) => Ok(table),
        Err(_) => unreachable!(),
    }
}

// The columns' types.
fn types_of(alloc: Global, columns: &[ArrayRef]) -> Result<Vec<DType>, NoMemory>
    ensures { IfOk result (λ v. map type_of v.items ≡ types_in columns.now) }
{
    let mut types = Vec::with_capacity(alloc, columns.len())?;
    for column in columns {
        types.push(column.dtype().share())?;
    }
    Ok(types)
}

// The names and types of a table's columns.
fn fields_of(alloc: Global, table: &Table) -> Result<Shared<StructFields>, NoMemory>
    ensures { IfOk result (λ f. f ≡ fields_in table.now) }
{
    let names = copied_names(alloc, table.names())?;
    let types = types_of(alloc, table.columns().as_slice())?;
    match StructFields::try_new(alloc, names, types) {
        Ok(fields) => Ok(fields),
        Err(ColumnError::NoMemory) => Err(NoMemory),
        Err(_) => unreachable!(),
    }
}

// The columns of a table as the fields of structs, none of them null. None of their rows is copied.
fn structs_of(alloc: Global, table: &Table) -> Result<Array, NoMemory>
    ensures { IfOk result (λ a. a ≡ struct_column (table_structs table.now)) }
{
    let fields = fields_of(alloc, table)?;
    let columns = table.columns().share();
    let validity = Validity::NonNullable;
    match StructArray::try_new_with_dtype(columns, fields, table.len(), validity) {
        Ok(structs) => Ok(structs.into_array()),
        Err(_) => unreachable!(),
    }
}

// The numbers of all columns.
fn all_columns(alloc: Global, table: &Table) -> Result<Vec<usize>, NoMemory>
    ensures { IfOk result (λ v. v.items ≡ range_with_len 0 (length table.now.columns)) }
{
    let count = table.columns().len();
    let mut all = Vec::with_capacity(alloc, count)?;
    for i in 0..count {
        all.push(i)?;
    }
    Ok(all)
}

// A page of all columns of a table.
fn whole_page(
    alloc: Global,
    table: &Table,
    steps: &[Step],
    number: usize,
    len: usize,
    policy: &Policy,
) -> Result<Table, NoMemory>
    requires rows { 0 < len }
    requires unbroken { IsUnbroken (walk table.now.len (map step_value steps.now)) }
    ensures { IfOk result (IsPage table.now (range_with_len 0 (length table.now.columns))
        (map step_value steps.now) number len (walk table.now.len (map step_value steps.now))) }
{
    let every = all_columns(alloc, table)?;
    match page(alloc, table, &every, steps, number, len, policy) {
        Ok(rows) => Ok(rows),
        // each column is there, the page has rows, and no step is broken: only memory can run out
        Err(_) => Err(NoMemory),
    }
}

// How many fields the rows of a page in front of its last one may have: a field takes seven bytes
// at least, with its quotes, colon and comma, and `vx_print` begins no row behind 2 GiB of text.
const MOST_FIELDS: usize = (1 << 31) / 7;

// Whether a page of so many of the rows may be printed, as far as it is told before it is made.
fn is_printable(fields: usize, rows: usize, number: usize, len: usize) -> bool {
    let on_page = rows.saturating_sub(number.saturating_mul(len)).min(len);
    fields.saturating_mul(on_page.saturating_sub(1)) <= MOST_FIELDS
}

// A page of the rows that the steps leave of structs, none of them null. Memory isn't wanting where
// a step is broken. What is too much to be printed is refused before it is made.
fn page_answer(
    alloc: Global,
    structs: &StructArray,
    steps: &[Step],
    number: usize,
    len: usize,
    policy: &Policy,
) -> Result<Array, SelectError>
    requires rows { 0 < len }
    requires table { AreTable structs.now }
    ensures { IsAnswer result
        (page_answer number len (struct_column structs.now) (map step_value steps.now)) }
{
    let rows = check_steps(structs.len(), steps)?;
    if !is_printable(structs.fields().len(), rows, number, len) {
        return Err(SelectError::NoMemory);
    }
    let table = table_of(alloc, structs)?;
    let rows = whole_page(alloc, &table, steps, number, len, policy)?;
    Ok(structs_of(alloc, &rows)?)
}

// What comes of a page of structs, none of them null.
fn reply_to_table(
    alloc: Global,
    structs: &StructArray,
    document: &Document,
    number: usize,
    len: usize,
) -> Reply
    requires rows { 0 < len }
    requires table { AreTable structs.now }
    ensures reply { Replies result (of_page_answer (Some (page_answer number len
        (struct_column structs.now) (document_value document.now).steps))) }
    ensures honest { IsHonest result (page_answer number len (struct_column structs.now)
        (document_value document.now).steps) }
{
    let steps = document.steps.as_slice();
    match page_answer(alloc, structs, steps, number, len, &document.policy) {
        Ok(rows) => reply_with(alloc, &rows, Asked::Nothing),
        Err(SelectError::Broken { step, cause }) => Reply::Broken { step, cause },
        Err(SelectError::NoMemory) => Reply::NoMemory,
    }
}

/// What comes of a page of a document. Memory isn't wanting where a step is broken.
pub(crate) fn reply_of_page(alloc: Global, document: &Document, number: usize, len: usize) -> Reply
    requires { 0 < len }
    ensures reply { Replies result (of_page number len (Some (document_value document.now))) }
    ensures honest { IfSome (page_of number len (document_value document.now).source
        (document_value document.now).steps) (IsHonest result) }
{
    match &document.source {
        DocumentSource::Column(column) => match table_in(column) {
            Some(structs) => reply_to_table(alloc, structs, document, number, len),
            None => Reply::Malformed,
        },
        DocumentSource::Chunks(..) => Reply::Malformed,
    }
}
