//! Where the bits of a document's column and of its filter begin: in which bit of a byte.
use crate::document_in;
use std::alloc::Global;
use std::test::Fail;
use vx_column::{Array, Layout};
use vx_document::{Document, DocumentSource};
use vx_select::Step;

/// A column of bools and a filter, each at an offset that the document tells.
const DOCUMENTS: [&str; 3] = [
    r#"{"column":{"layout":"Bool","values":"10110","offset":5},
        "steps":[{"filter":{"bits":"01001","offset":3}}]}"#,
    r#"{"column":{"layout":"Bool","values":[true,false,true],"offset":7},
        "steps":[{"filter":{"bits":"101","offset":0}}]}"#,
    r#"{"column":{"layout":"Bool","values":"110","offset":0},
        "steps":[{"filter":{"bits":"011","offset":7}}]}"#,
];

/// Where the bits of a column of layout `Bool` begin.
fn column_offset(column: &Array) -> Option<usize> {
    match column.layout() {
        Layout::Bool(column) => Some(column.bits().offset()),
        _ => None,
    }
}

/// Where the bits of a document's column of layout `Bool` begin.
fn source_offset(source: &DocumentSource) -> Option<usize> {
    match source {
        DocumentSource::Column(column) => column_offset(column),
        DocumentSource::Chunks(..) => None,
    }
}

/// Where the bits of a filter begin that keeps some rows and not all.
fn filter_offset(steps: &[Step]) -> Option<usize> {
    match steps.first()? {
        Step::Filter(mask) => Some(mask.values()?.bits().offset()),
        _ => None,
    }
}

fn print_document(rt: &impl Print, document: &Document) -> Result<(), Fail> {
    let column = source_offset(&document.source);
    let filter = filter_offset(document.steps.as_slice());
    println!(rt; "bits of the column from {column:?} on, of the filter from {filter:?}")?;
    Ok(())
}

/// A line for each document.
pub(crate) fn print_offsets(rt: &impl Print, alloc: Global) -> Result<(), Fail> {
    for line in DOCUMENTS {
        print_document(rt, &document_in(alloc, line)?)?;
    }
    Ok(())
}
