//! Rows that follow one another.
ghost use Rattle.std.specs.Prelude.{◌≡◌, ◌+◌, ◌*◌, ◌^◌, ◌<◌, ◌≤◌, length};
ghost use Rattle.std.specs.List.{range_with_len};
ghost use Rattle.vx_fixed.specs.Rows.{AreWritten};

/// Writes `count` rows of `width` bytes each from row `start` on, which is counted from row `from`.
pub fn write_range(
    width: usize,
    src: &[u8],
    from: usize,
    start: usize,
    count: usize,
    out: &mut [u8],
)
    requires there { (from + start + count) * width ≤ length src.now }
    requires small { from + start < 2 ^ 64 }
    requires room { count * width ≤ length out.old }
    ensures { AreWritten width src.now from (range_with_len start count) out.old out.new }
{
    let at = (from + start) * width;
    let len = count * width;
    out[..len].copy_from_slice(&src[at..at + len]);
}
