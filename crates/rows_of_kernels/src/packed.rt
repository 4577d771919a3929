//! What a word packs of another, by a loop and by the table.

use std::alloc::Global;
use std::test::Fail;
use vx_bitfilter::{PextTable, pext_fallback, pext_law};

/// Appends a row for each of three pairs.
pub(crate) fn add_rows(alloc: Global, rows: &mut Vec<String>) -> Result<(), Fail> {
    pext_law();
    let table = PextTable::new(alloc)?;
    let pairs = [
        (0b1011_0110, 0b1100_1010),
        (0xff, 0),
        (0x0123_4567_89ab_cdef, 0xff00_ff00_ff00_ff00),
    ];
    for (src, mask) in pairs {
        rows.push(row(alloc, &table, src, mask)?)?;
    }
    Ok(())
}

fn row(alloc: Global, table: &PextTable, src: u64, mask: u64) -> Result<String, Fail> {
    let by_loop = pext_fallback(src, mask);
    let by_table = table.pext(src, mask);
    Ok(format!(in alloc; "{src:#x} at {mask:#x}: {by_loop:#x}, by the table {by_table:#x}")?)
}
