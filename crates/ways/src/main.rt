//! Reads documents, one a line, runs each through `select` and through `select_fused`, and says how
//! many answers and faults are alike, and how many differ; then where the bits of documents of its
//! own begin.
#![tactic(auto)]

mod offsets;

use serde_json::Value;
use std::alloc::Global;
use std::test::Fail;
use vx_column::Array;
use vx_document::{Document, DocumentSource, document};
use vx_print::text_of;
use vx_select::{SelectError, select, select_fused};

/// What two ways to the same rows gave.
#[derive(Clone, Copy)]
enum Likeness {
    /// Both gave one type and equal rows.
    SameRows,
    /// Both named one broken step.
    SameFault,
    /// Anything else.
    Different,
}

/// How many documents gave what.
#[derive(Drop)]
struct Counts {
    rows: u64,
    faults: u64,
    differing: u64,
}

impl Counts {
    fn add(&mut self, compared: Likeness) {
        match compared {
            Likeness::SameRows => self.rows = self.rows.saturating_add(1),
            Likeness::SameFault => self.faults = self.faults.saturating_add(1),
            Likeness::Different => self.differing = self.differing.saturating_add(1),
        }
    }
}

/// The document that a line spells.
fn document_in(alloc: Global, line: &str) -> Result<Document, Fail> {
    let value = Value::from_slice(alloc, line.as_bytes()).map_err(|_| "a line is no JSON")?;
    Ok(document(alloc, &value).map_err(|_| "a line is no document")?)
}

/// How two columns compare: by their texts, which say their types and rows.
fn rows_compared(alloc: Global, one: &Array, other: &Array) -> Result<Likeness, Fail> {
    let (one, other) = (text_of(alloc, one)?, text_of(alloc, other)?);
    if one.as_slice() == other.as_slice() {
        Ok(Likeness::SameRows)
    } else {
        Ok(Likeness::Different)
    }
}

/// How two refusals compare. `NoMemory` is like nothing.
fn faults_compared(one: SelectError, other: SelectError) -> Likeness {
    if one != SelectError::NoMemory && one == other {
        Likeness::SameFault
    } else {
        Likeness::Different
    }
}

/// How two answers compare.
fn compared(
    alloc: Global,
    one: &Result<Array, SelectError>,
    other: &Result<Array, SelectError>,
) -> Result<Likeness, Fail> {
    match (one, other) {
        (Ok(one), Ok(other)) => rows_compared(alloc, one, other),
        (Err(one), Err(other)) => Ok(faults_compared(*one, *other)),
        _ => Ok(Likeness::Different),
    }
}

/// How the two ways through a document compare.
fn both_ways(alloc: Global, document: &Document) -> Result<Likeness, Fail> {
    let steps = document.steps.as_slice();
    match &document.source {
        DocumentSource::Column(column) => {
            let one = select(alloc, column, steps, &document.policy);
            let other = select_fused(alloc, column, steps, &document.policy);
            compared(alloc, &one, &other)
        }
        DocumentSource::Chunks(..) => Err("a document has no column".into()),
    }
}

fn main(rt: HostRuntime) -> Result<(), Fail> {
    let mut counts = Counts {
        rows: 0,
        faults: 0,
        differing: 0,
    };
    let mut documents: u64 = 0;
    for line in rt.lines(rt.alloc()) {
        let line = line?;
        documents = documents.saturating_add(1);
        counts.add(both_ways(rt.alloc(), &document_in(rt.alloc(), line.as_str())?)?);
    }
    let Counts {
        rows,
        faults,
        differing,
    } = counts;
    println!(rt;
        "{documents} documents: {rows} answers alike, {faults} faults alike, {differing} differing"
    )?;
    offsets::print_offsets(&rt, rt.alloc())
}
