//! Rows, copied.
ghost use Rattle.std.specs.Prelude.{◌≡◌, ◌+◌, ◌*◌, ◌<◌, ◌≤◌, length, replicate};
ghost use Rattle.vx_chunk_plan.specs.Rows.{AreRowsPut};

/// Writes a row over row `j` by way of a block of its own: so it is read before any of it is
/// written.
#[inline(always)]
pub(crate) fn put_row<const W: usize>(out: &mut [u8], j: usize, row: &[u8])
    requires some { 0 < W }
    requires whole { length row.now ≡ W }
    requires room { (j + 1) * W ≤ length out.old }
    ensures { AreRowsPut W j 1 row.now out.old out.new }
{
    let mut block = [0u8; W];
    block.copy_from_slice(row);
    out[j * W..j * W + W].copy_from_slice(&block);
}

/// Writes `count` rows of any width over those from row `j` on.
pub(crate) fn put_rows(out: &mut [u8], j: usize, count: usize, width: usize, rows: &[u8])
    requires some { 0 < width }
    requires whole { length rows.now ≡ count * width }
    requires room { (j + count) * width ≤ length out.old }
    ensures { AreRowsPut width j count rows.now out.old out.new }
{
    // Only the contract speaks of it.
    let _ = count;
    let at = j * width;
    out[at..at + rows.len()].copy_from_slice(rows);
}

/// Writes zeros over row `j`.
pub(crate) fn clear_row(out: &mut [u8], j: usize, width: usize)
    requires some { 0 < width }
    requires room { (j + 1) * width ≤ length out.old }
    ensures { AreRowsPut width j 1 (replicate width 0) out.old out.new }
{
    let at = j * width;
    for i in 0..width {
        out[at + i] = 0;
    }
}
