//! What a call gives, as the lines that tell it.

use std::alloc::Global;
use std::fmt::Debug;
use std::test::Fail;
use vx_column::Array;
use vx_mask::Mask;
use vx_print::text_of;
use vx_take::Picks;

/// Appends the line of a value.
pub(crate) fn push_shown<T: Debug>(lines: &mut String, value: &T) -> Result<(), Fail> {
    writeln!(lines, "= {value:?}")?;
    Ok(())
}

/// Appends the line of a value that is part of what a call gives, behind its name.
pub(crate) fn push_part<T: Debug>(lines: &mut String, name: &str, value: &T) -> Result<(), Fail> {
    writeln!(lines, "=: {name} {value:?}")?;
    Ok(())
}

/// Appends the lines of a column: of its type, and of each row.
pub(crate) fn push_column(lines: &mut String, alloc: Global, column: &Array) -> Result<(), Fail> {
    let text = text_of(alloc, column)?;
    for line in std::str::from_utf8(text.as_slice())?.lines() {
        writeln!(lines, "= {line}")?;
    }
    Ok(())
}

/// Appends the picks.
pub(crate) fn push_picks(lines: &mut String, picks: &Picks) -> Result<(), Fail> {
    lines.push_str("=")?;
    for i in 0..picks.len() {
        match picks.get(i) {
            Some(row) => write!(lines, " {row}")?,
            None => lines.push_str(" null")?,
        }
    }
    Ok(lines.push('\n')?)
}

/// Appends the bits of a mask, each a `0` or a `1`, behind a name.
pub(crate) fn push_mask(lines: &mut String, name: &str, mask: &Mask) -> Result<(), Fail> {
    lines.push_str(name)?;
    for i in 0..mask.len() {
        lines.push(if mask.value(i) { '1' } else { '0' })?;
    }
    Ok(lines.push('\n')?)
}
