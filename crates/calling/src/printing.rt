//! Columns, rows and faults as lines of text.
use std::alloc::Global;
use std::io;
use std::test::Fail;
use vortex_select::{Array, Call, Cause, Row, row_at, text_of};

/// The type of a column, and a line for each row.
pub(crate) fn print_column(rt: &impl Print, alloc: Global, column: &Array) -> Result<(), Fail> {
    Ok(print!(rt; "{}", text_of(alloc, column)?)?)
}

/// The numbers of a column of integer type, from row to row.
pub(crate) fn print_numbers(rt: &impl Print, column: &Array) -> Result<(), Fail> {
    if column.dtype().int_type().is_none() {
        println!(rt; " no numbers")?;
        return Ok(());
    }
    for i in 0..column.len() {
        print_number(rt, column.number_at(i))?;
    }
    println!(rt; "")?;
    Ok(())
}

/// Prints a blank and a number, or `null` where there is none.
pub(crate) fn print_number(rt: &impl Print, number: Option<i128>) -> io::Result<()> {
    match number {
        Some(number) => print!(rt; " {number}"),
        None => print!(rt; " null"),
    }
}

/// A row as it is stored.
pub(crate) fn print_row(rt: &impl Print, row: &Row) -> io::Result<()> {
    match row {
        Row::Null => println!(rt; "null"),
        Row::Bit(bit) => println!(rt; "{bit}"),
        Row::Bytes(bytes) => println!(rt; "{:?}", bytes.as_slice()),
        Row::List(rows) | Row::Fields(rows) => println!(rt; "{} rows", rows.as_slice().len()),
        Row::Tagged(id, _) => println!(rt; "a row of variant {id}"),
    }
}

/// The texts of a column, from row to row.
pub(crate) fn print_text(rt: &impl Print, alloc: Global, column: &Array) -> Result<(), Fail> {
    for i in 0..column.len() {
        print_name(rt, &row_at(alloc, column, i)?)?;
    }
    println!(rt; "")?;
    Ok(())
}

/// Prints a blank and a name, or `null` where there is none.
pub(crate) fn print_name(rt: &impl Print, row: &Row) -> Result<(), Fail> {
    match row {
        Row::Bytes(bytes) => match std::str::from_utf8(bytes.as_slice()) {
            Ok(name) => print!(rt; " {name:?}")?,
            Err(_) => return Err("no text".into()),
        },
        _ => print!(rt; " null")?,
    }
    Ok(())
}

/// The texts of a list.
pub(crate) fn print_elements(rt: &impl Print, row: &Row) -> Result<(), Fail> {
    print!(rt; " [")?;
    if let Row::List(rows) = row {
        for row in rows.as_slice() {
            print_name(rt, row)?;
        }
    }
    print!(rt; " ]")?;
    Ok(())
}

/// The rule that a step breaks.
pub(crate) fn print_fault(rt: &impl Print, step: usize, cause: Cause) -> Result<(), Fail> {
    print!(rt; "step {step}: ")?;
    Ok(print_cause(rt, cause)?)
}

fn print_cause(rt: &impl Print, cause: Cause) -> io::Result<()> {
    match cause {
        Cause::BadRange { start, end, len } => println!(rt; "{start}..{end} of {len} rows"),
        Cause::BadMask { mask_len, len } => println!(rt; "{mask_len} bits for {len} rows"),
        Cause::NotBool => println!(rt; "a filter by rows that are no bools"),
        Cause::InvalidIndices => println!(rt; "indices that are no numbers"),
        Cause::BadPieces => println!(rt; "pieces that aren't sound"),
        Cause::OutOfBounds { index, len } => println!(rt; "index {index} of {len} rows"),
    }
}

/// What a decoder was asked.
pub(crate) fn print_calls(rt: &impl Print, calls: &[Call]) -> Result<(), Fail> {
    for call in calls {
        print_call(rt, call)?;
    }
    println!(rt; "")?;
    Ok(())
}

fn print_call(rt: &impl Print, call: &Call) -> io::Result<()> {
    match call {
        Call::Whole { chunk } => print!(rt; " all of chunk {chunk}"),
        Call::Only { chunk, count } => print!(rt; " {count} of chunk {chunk}"),
    }
}
