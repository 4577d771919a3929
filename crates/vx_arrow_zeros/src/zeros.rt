//! Zeros under the nulls of a node.
ghost use Rattle.std.specs.Prelude.{◌≡◌, ◌*◌, ◌≤◌, IsTrue, Some, false, length, nat_le, true};
ghost use Rattle.vx_arrow_image.specs.Image.{format_in, is_valid};
ghost use Rattle.vx_arrow_zeros.specs.Zeros.{ClearsBits, ClearsRows, ClearsValues, holds_bits, holds_rows, value_bytes, value_width, view_width};

use crate::bits::{byte_count, clear_bits, clear_validity};
use crate::rows::clear_rows;
use vx_arrow_image::{Format, format_of};

// Returns how many bytes a row has among the values; 0 unless its width is fixed.
fn value_width(format: Format, width: u64) -> u64
    ensures { result ≡ value_width (Some format) width }
{
    match format {
        Format::Fixed => width,
        Format::TextView => 16,
        _ => 0,
    }
}

// Returns how many bytes an offset of a list view has; 0 at other formats.
fn view_width(format: Format) -> u64
    ensures { result ≡ view_width (Some format) }
{
    match format {
        Format::ListView(size) => size.size(),
        _ => 0,
    }
}

// Returns whether `len` bytes are enough for rows of so many bytes each.
fn holds_bytes(rows: u64, width: u64, len: usize) -> bool
    ensures { result ≡ nat_le (rows * width) len }
{
    match rows.checked_mul(width) {
        Some(bytes) => bytes <= len as u64,
        None => false,
    }
}

// Returns whether `len` bytes are enough for the values.
fn holds_values(format: Format, width: u64, rows: u64, len: usize) -> bool
    ensures { result ≡ nat_le (value_bytes (Some format) width rows) len }
{
    match format {
        Format::Bits => byte_count(rows) <= len as u64,
        _ => holds_bytes(rows, value_width(format, width), len),
    }
}

// Returns whether `len` bytes are no validity, or enough.
fn holds_bits(len: usize, rows: u64) -> bool
    ensures { result ≡ holds_bits len rows }
{
    len == 0 || byte_count(rows) <= len as u64
}

// Clears the values of null rows.
fn clear_values(format: Format, width: u64, rows: u64, valid: &[u8], values: &mut [u8])
    requires valid { holds_bits (length valid.now) rows ≡ true }
    requires values { value_bytes (Some format) width rows ≤ length values.old }
    ensures { ClearsValues (Some format) width rows valid.now values.old values.new }
{
    match format {
        Format::Bits => clear_bits(valid, rows as usize, values),
        _ => {
            let size = value_width(format, width) as usize;
            clear_rows(valid, rows as usize, size, values);
        }
    }
}

/// Writes zeros under the nulls of a node: over the values of null rows, or over their offsets and
/// sizes in a list view. Also clears the bits past the rows in the last byte of validity and of
/// bools. Other bytes keep their values.
///
/// `format` and `width` are those of [`Node`](vx_arrow_image::Node). Without validity no row is
/// null. Returns false, and writes nothing, if there is no such format or a list has fewer bytes
/// than the rows need.
pub fn clear_nulls(
    format: u64,
    width: u64,
    rows: u64,
    valid: &mut [u8],
    offsets: &mut [u8],
    values: &mut [u8],
    sizes: &mut [u8],
) -> bool
    ensures held { result ≡ holds_rows (format_in format) width rows (length valid.old)
        (length offsets.old) (length values.old) (length sizes.old) }
    ensures valid { IsTrue result → ClearsBits (λ _. true) rows valid.old valid.new }
    ensures offsets { IsTrue result → ClearsRows (is_valid valid.old) 0 rows
        (view_width (format_in format)) offsets.old offsets.new }
    ensures values { IsTrue result → ClearsValues (format_in format) width rows valid.old
        values.old values.new }
    ensures sizes { IsTrue result → ClearsRows (is_valid valid.old) 0 rows
        (view_width (format_in format)) sizes.old sizes.new }
    ensures kept_valid { result ≡ false → valid.new ≡ valid.old }
    ensures kept_offsets { result ≡ false → offsets.new ≡ offsets.old }
    ensures kept_values { result ≡ false → values.new ≡ values.old }
    ensures kept_sizes { result ≡ false → sizes.new ≡ sizes.old }
{
    let Some(format) = format_of(format) else {
        return false;
    };
    let view = view_width(format);
    let is_held = holds_bits(valid.len(), rows)
        && holds_bytes(rows, view, offsets.len())
        && holds_values(format, width, rows, values.len())
        && holds_bytes(rows, view, sizes.len());
    if !is_held {
        return false;
    }
    clear_rows(valid, rows as usize, view as usize, offsets);
    clear_values(format, width, rows, valid, values);
    clear_rows(valid, rows as usize, view as usize, sizes);
    clear_validity(valid, rows as usize);
    true
}
