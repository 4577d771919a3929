//! Bits and offsets, written over others.
ghost use Rattle.std.specs.Prelude.{◌+◌, ◌*◌, ◌<◌, ◌≤◌, length};
ghost use Rattle.vx_arrow_image.specs.Image.{limit_of, size_of};
ghost use Rattle.vx_arrow_columns.specs.Written.{PutsBit, PutsOffset};

use vx_arrow_image::Offsets;
use vx_runs::put_array;

/// Sets bit `j`, or clears it.
#[inline(always)]
pub fn put_bit(bytes: &mut [u8], j: usize, bit: bool)
    requires { j < 8 * length bytes.old }
    ensures { PutsBit bytes.old bytes.new j bit }
{
    let old = bytes[j / 8];
    let mask = 1 << (j % 8);
    bytes[j / 8] = if bit { old | mask } else { old & !mask };
}

/// Writes offset `j`.
#[inline(always)]
pub fn put_offset(size: Offsets, offsets: &mut [u8], j: usize, value: u64)
    requires room { size_of size * j + size_of size ≤ length offsets.old }
    requires small { value < limit_of size }
    ensures { PutsOffset size offsets.old offsets.new j value }
{
    match size {
        Offsets::Short => put_array::<4>(offsets, 4 * j, (value as u32).to_le_bytes()),
        Offsets::Long => put_array::<8>(offsets, 8 * j, value.to_le_bytes()),
    }
}
