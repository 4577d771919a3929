//! What a run gives, as the lines that tell it.
//!
//! Each line begins with `=`. Behind `= ` stands a line that was written, or first of all the
//! status; `=` alone is an empty line; behind `=\ ` stands what was written last with no line end,
//! and behind `=? ` a call or a read that the run left in its trace.

use std::alloc::Global;
use std::test::Fail;
use vx_rows::Call;

/// Appends a line that was written.
fn push_line(lines: &mut String, line: &str) -> Result<(), Fail> {
    match line.strip_suffix('\n') {
        Some("") => writeln!(lines, "=")?,
        Some(line) => writeln!(lines, "= {line}")?,
        None => writeln!(lines, "=\\ {line}")?,
    }
    Ok(())
}

/// Appends the lines of a text that was written.
pub(crate) fn push_text(lines: &mut String, text: &str) -> Result<(), Fail> {
    for line in text.split_inclusive('\n') {
        push_line(lines, line)?;
    }
    Ok(())
}

/// Appends a call of a decoder: of which chunk all values were asked for, or how many.
fn push_call(lines: &mut String, call: Call) -> Result<(), Fail> {
    match call {
        Call::Whole { chunk } => writeln!(lines, "=? all of {chunk}")?,
        Call::Only { chunk, count } => writeln!(lines, "=? {count} of {chunk}")?,
    }
    Ok(())
}

/// Appends the calls of a decoder, a line each.
pub(crate) fn push_calls(lines: &mut String, calls: &[Call]) -> Result<(), Fail> {
    for call in calls {
        push_call(lines, *call)?;
    }
    Ok(())
}

/// Appends the reads of a file, a line each: which block was read.
pub(crate) fn push_reads(lines: &mut String, reads: &[usize]) -> Result<(), Fail> {
    for block in reads {
        writeln!(lines, "=? block {block}")?;
    }
    Ok(())
}

/// The lines of a status and of what was written.
pub(crate) fn answer_of(alloc: Global, status: u8, written: &[u8]) -> Result<String, Fail> {
    let mut lines = format!(in alloc; "= {status}\n")?;
    push_text(&mut lines, std::str::from_utf8(written)?)?;
    Ok(lines)
}
