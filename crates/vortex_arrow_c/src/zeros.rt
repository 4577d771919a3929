//! Zeros under nulls, over buffers of the caller's.
ghost use Rattle.std.specs.Prelude.{◌≡◌, ◌≢◌, if◌then◌else◌, length, true};
ghost use Rattle.vx_arrow_image.specs.Image.{format_in, is_valid};
ghost use Rattle.vx_arrow_zeros.specs.Zeros.{ClearsBits, ClearsRows, ClearsValues, holds_rows, view_width};

use crate::answer::{DONE, ROOM};
use vx_arrow_zeros::clear_nulls;

/// Writes zeros under the nulls of a node's rows: over the values of null rows, or over their
/// offsets and sizes in a list view. Also clears the bits past the rows in the last byte of
/// validity and of bools. Other bytes keep their values.
///
/// `format` and `width` are those of a node. Without validity no row is null. Returns 0. Returns 3,
/// and writes nothing, if there is no such format or a list has fewer bytes than the rows need.
#[unsafe(no_mangle)]
pub extern "C" fn vortex_arrow_clear_nulls(
    format: u64,
    width: u64,
    rows: u64,
    valid: &mut [u8],
    offsets: &mut [u8],
    values: &mut [u8],
    sizes: &mut [u8],
) -> u64
    ensures room { result ≡ if holds_rows (format_in format) width rows (length valid.old)
        (length offsets.old) (length values.old) (length sizes.old) then 0 else 3 }
    ensures valid { result ≡ 0 → ClearsBits (λ _. true) rows valid.old valid.new }
    ensures offsets { result ≡ 0 → ClearsRows (is_valid valid.old) 0 rows
        (view_width (format_in format)) offsets.old offsets.new }
    ensures values { result ≡ 0 → ClearsValues (format_in format) width rows valid.old
        values.old values.new }
    ensures sizes { result ≡ 0 → ClearsRows (is_valid valid.old) 0 rows
        (view_width (format_in format)) sizes.old sizes.new }
    ensures kept_valid { result ≢ 0 → valid.new ≡ valid.old }
    ensures kept_offsets { result ≢ 0 → offsets.new ≡ offsets.old }
    ensures kept_values { result ≢ 0 → values.new ≡ values.old }
    ensures kept_sizes { result ≢ 0 → sizes.new ≡ sizes.old }
{
    if clear_nulls(format, width, rows, valid, offsets, values, sizes) {
        DONE
    } else {
        ROOM
    }
}
