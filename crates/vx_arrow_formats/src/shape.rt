//! Whether an array fits its layout, and how many bytes each of its buffers has.
ghost use Rattle.std.specs.Prelude.{◌≡◌, ◌*◌, ◌+◌, ◌^◌, ◌<◌, MatchOption, MatchResult, None, Some};
ghost use Rattle.vx_arrow_formats.specs.Shapes.{bits_len, has_buffers, has_children, has_dictionary, has_length, has_validity, in_memory, measure_of, misfit_in, offsets_len, sizes_len, values_len};
ghost use Rattle.vx_arrow_image.specs.Image.{format_in};

use crate::layout::Layout;
use vx_arrow_image::{Format, Offsets, format_of};

/// What a schema and an array say of themselves. It crosses a border to C as it stands.
///
/// The numbers are those of Arrow's structs, read as unsigned ones, so a negative one is 2^63 or
/// more.
#[repr(C)]
#[derive(Clone, Copy)]
pub struct Shape {
    /// The array's length.
    pub len: u64,
    /// The array's offset.
    pub offset: u64,
    /// How many nulls the array has.
    pub null_count: u64,
    /// How many buffers the array has.
    pub buffers: u64,
    /// How many children the array has.
    pub children: u64,
    /// How many children the schema has.
    pub schema_children: u64,
    /// 0 if the array has no list of buffers.
    pub has_buffers: u64,
    /// 0 if the array or the schema has no list of children.
    pub has_children: u64,
    /// 0 if the first buffer is null.
    pub has_first: u64,
    /// 0 if the array has no dictionary.
    pub has_dictionary: u64,
    /// 0 if the schema has no dictionary.
    pub schema_dictionary: u64,
}

/// What of an array doesn't fit its layout.
#[derive(Clone, Copy)]
pub enum Misfit {
    /// The length or the offset is negative, or their sum is more than 2^63 - 2.
    Length,
    /// There are too few or too many buffers.
    Buffers,
    /// There are too few or too many children.
    Children,
    /// There are nulls, but no validity.
    Validity,
    /// Only the schema or only the array has a dictionary, or its codes are no integers.
    Dictionary,
    /// The rows are 2^60 or more, counted from the start of the buffers.
    Rows,
}

/// How many children a node has, and how many bytes each buffer has. It crosses a border to C as
/// it stands.
///
/// More than 2^63 - 1 bytes count as 0, since no memory holds them.
#[repr(C)]
#[derive(Clone, Copy)]
pub struct Measure {
    /// How many children. Of views of strings: how many data buffers.
    pub children: u64,
    /// Bytes of validity.
    pub valid: u64,
    /// Bytes of offsets.
    pub offsets: u64,
    /// Bytes of values. Of strings 0: the last offset says how many there are.
    pub values: u64,
    /// Bytes of sizes. Of views of strings: of the lengths of the data buffers.
    pub sizes: u64,
}

// So many items of so many bytes.
fn in_memory(count: u64, width: u64) -> u64
    ensures { result ≡ in_memory (count * width) }
{
    match count.checked_mul(width) {
        Some(bytes) => { if bytes < 1 << 63 { bytes } else { 0 } }
        None => 0,
    }
}

// Whether the length and the offset can be counted.
fn has_length(shape: &Shape) -> bool
    ensures length { result ≡ has_length shape.now }
{
    match shape.offset.checked_add(shape.len) {
        Some(end) => end < (1 << 63) - 1,
        None => false,
    }
}

// Whether there are as many buffers as the layout has.
fn has_buffers(layout: &Layout, shape: &Shape) -> bool
    ensures { result ≡ has_buffers layout.now shape.now }
{
    let are_listed = shape.buffers == 0 || shape.has_buffers != 0;
    if layout.format == 9 {
        3 <= shape.buffers && shape.buffers < 1 << 31 && are_listed
    } else {
        shape.buffers == layout.buffers && are_listed
    }
}

// Whether there are as many children as the layout has.
fn has_children(layout: &Layout, shape: &Shape) -> bool
    ensures { result ≡ has_children layout.now shape.now }
{
    let are_listed = shape.children == 0 || shape.has_children != 0;
    if shape.schema_children != shape.children || shape.children >= 1 << 63 {
        return false;
    }
    if layout.children != u64::MAX && layout.children != shape.children {
        return false;
    }
    are_listed
}

// Whether there is validity where there are nulls.
fn has_validity(layout: &Layout, shape: &Shape) -> bool
    ensures { result ≡ has_validity layout.now shape.now }
{
    if shape.null_count == 0 || shape.null_count >= 1 << 63 {
        return true;
    }
    layout.valid == 0 || shape.has_first != 0
}

// Whether both or neither have a dictionary, and the layout may be that of its codes.
fn has_dictionary(layout: &Layout, shape: &Shape) -> bool
    ensures { result ≡ has_dictionary layout.now shape.now }
{
    if shape.schema_dictionary == 0 {
        return shape.has_dictionary == 0;
    }
    shape.has_dictionary != 0 && layout.codes != 0
}

// What of an array doesn't fit.
fn misfit_of(layout: &Layout, shape: &Shape) -> Option<Misfit>
    ensures misfit { result ≡ misfit_in layout.now shape.now }
    ensures few { result ≡ None → shape.now.offset + shape.now.len < 2 ^ 60 }
{
    if !has_length(shape) {
        return Some(Misfit::Length);
    }
    if !has_buffers(layout, shape) {
        return Some(Misfit::Buffers);
    }
    if !has_children(layout, shape) {
        return Some(Misfit::Children);
    }
    if !has_validity(layout, shape) {
        return Some(Misfit::Validity);
    }
    if !has_dictionary(layout, shape) {
        return Some(Misfit::Dictionary);
    }
    if shape.offset + shape.len >= 1 << 60 {
        return Some(Misfit::Rows);
    }
    None
}

// Bytes of offsets for so many rows.
fn offsets_len(format: Option<Format>, rows: u64) -> u64
    requires { rows < 2 ^ 60 }
    ensures { result ≡ offsets_len format rows }
{
    match format {
        Some(Format::Text(size)) | Some(Format::List(size)) => {
            if rows == 0 {
                0
            } else {
                in_memory(rows + 1, size.size())
            }
        }
        Some(Format::ListView(size)) => in_memory(rows, size.size()),
        Some(Format::DenseUnion) => in_memory(rows, 4),
        _ => 0,
    }
}

// Bytes of values for so many rows.
fn values_len(format: Option<Format>, width: u64, rows: u64) -> u64
    requires { rows < 2 ^ 60 }
    ensures { result ≡ values_len format width rows }
{
    match format {
        Some(Format::Bits) => rows.div_ceil(8),
        Some(Format::Fixed) => in_memory(rows, width),
        Some(Format::TextView) => in_memory(rows, 16),
        Some(Format::Union) | Some(Format::DenseUnion) => rows,
        _ => 0,
    }
}

// Bytes of sizes for so many rows, or of the lengths of so many data buffers.
fn sizes_len(format: Option<Format>, rows: u64, children: u64) -> u64
    requires { rows < 2 ^ 60 }
    ensures { result ≡ sizes_len format rows children }
{
    match format {
        Some(Format::ListView(size)) => in_memory(rows, size.size()),
        Some(Format::TextView) => in_memory(children, 8),
        _ => 0,
    }
}

/// Returns how many children an array of a layout has, and how many bytes each buffer.
///
/// Fails with the first thing that doesn't fit, in the order of [`Misfit`].
pub fn measure_of(layout: &Layout, shape: &Shape) -> Result<Measure, Misfit>
    ensures { MatchResult result
        (λ m. (misfit_in layout.now shape.now ≡ None) × (m ≡ measure_of layout.now shape.now))
        (λ e. misfit_in layout.now shape.now ≡ Some e) }
{
    if let Some(misfit) = misfit_of(layout, shape) {
        return Err(misfit);
    }
    let rows = shape.offset + shape.len;
    let format = format_of(layout.format);
    let children = match format {
        Some(Format::TextView) => shape.buffers.saturating_sub(3),
        _ => shape.children,
    };
    Ok(Measure {
        children,
        valid: if layout.valid == 0 {
            0
        } else {
            rows.div_ceil(8)
        },
        offsets: offsets_len(format, rows),
        values: values_len(format, layout.width, rows),
        sizes: sizes_len(format, rows, children),
    })
}
