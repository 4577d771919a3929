//! Calls over format strings and the lengths of buffers.
ghost use Rattle.std.specs.Prelude.{◌≡◌, ◌≢◌, ◌-◌, ◌^◌, ◌++◌, None, Some, drop, if◌then◌else◌, length, option_map, unwrap_or};
ghost use Rattle.vortex_arrow_c.specs.Formats.{misfit_code};
ghost use Rattle.vx_arrow_formats.specs.Ends.{data_length, ends_past, text_len};
ghost use Rattle.vx_arrow_formats.specs.Layouts.{layout_in};
ghost use Rattle.vx_arrow_formats.specs.Parameters.{written_ids};
ghost use Rattle.vx_arrow_formats.specs.Shapes.{measure_of, misfit_in};
ghost use Rattle.vx_arrow_image.specs.Image.{part_of};

use crate::answer::{DONE, FORMAT};
use vx_arrow_formats::{
    Layout, Measure, Misfit, Shape, data_length, ends_past, layout_of, measure_of, text_len,
    write_ids,
};
use vx_arrow_image::Node;

/// Writes how an array of a format is stored. Returns 0, or 8 where the text is no format string.
#[unsafe(no_mangle)]
pub extern "C" fn vortex_arrow_layout_of(text: &[u8], layout: &mut Layout) -> u64
    ensures layout { result ≡ 0 → layout_in text.now ≡ Some layout.new }
    ensures unknown { result ≢ 0 → layout_in text.now ≡ None }
    ensures status { result ≢ 0 → result ≡ 8 }
    ensures kept { result ≢ 0 → layout.new ≡ layout.old }
{
    match layout_of(text) {
        Some(found) => {
            *layout = found;
            DONE
        }
        None => FORMAT,
    }
}

/// Writes the type ids that the format of a union lists to the front of `ids`, and returns how many
/// there are. Returns 0 and writes nothing where the text is no format of a union, or there is room
/// for fewer.
#[unsafe(no_mangle)]
pub extern "C" fn vortex_arrow_type_ids(text: &[u8], ids: &mut [u8]) -> usize
    ensures count { result ≡ length (written_ids text.now (length ids.old)) }
    ensures written { ids.new ≡ written_ids text.now (length ids.old) ++ drop result ids.old }
{
    write_ids(text, ids)
}

// The number of what doesn't fit.
fn code_of(misfit: Misfit) -> u64
    ensures { result ≡ misfit_code misfit }
{
    match misfit {
        Misfit::Length => 1,
        Misfit::Buffers => 2,
        Misfit::Children => 3,
        Misfit::Validity => 4,
        Misfit::Dictionary => 5,
        Misfit::Rows => 6,
    }
}

/// Writes how many children an array of a layout has, and how many bytes each buffer has.
///
/// Returns 0, or the number of the first thing that doesn't fit the layout: 1 the length or the
/// offset, 2 the buffers, 3 the children, 4 the validity, 5 the dictionary, 6 rows of 2^60 or more.
#[unsafe(no_mangle)]
pub extern "C" fn vortex_arrow_measure(layout: &Layout, shape: &Shape, measure: &mut Measure) -> u64
    ensures fits { result ≡ 0 → misfit_in layout.now shape.now ≡ None }
    ensures measure { result ≡ 0 → measure.new ≡ measure_of layout.now shape.now }
    ensures misfit { result ≢ 0
        → option_map misfit_code (misfit_in layout.now shape.now) ≡ Some result }
    ensures kept { result ≢ 0 → measure.new ≡ measure.old }
{
    match measure_of(layout, shape) {
        Ok(found) => {
            *measure = found;
            DONE
        }
        Err(misfit) => code_of(misfit),
    }
}

/// Returns how many bytes the strings of a node have: its last offset, or 0 where that is negative
/// or missing. Returns 0 for other formats.
#[unsafe(no_mangle)]
pub extern "C" fn vortex_arrow_text_len(node: &Node) -> u64
    ensures { result ≡ text_len (part_of node.now) }
{
    text_len(node)
}

/// Returns how many bytes data buffer `k` of views has, by the lengths in `sizes`; 2^64 - 1 where
/// its length is negative or missing.
#[unsafe(no_mangle)]
pub extern "C" fn vortex_arrow_data_length(node: &Node, k: usize) -> u64
    ensures { result ≡ unwrap_or (data_length (part_of node.now) k) (2 ^ 64 - 1) }
{
    data_length(node, k).unwrap_or(u64::MAX)
}

/// Returns 1 where lists end after the last row of their child, which has so many, and else 0.
#[unsafe(no_mangle)]
pub extern "C" fn vortex_arrow_ends_past(node: &Node, rows: u64) -> u64
    ensures { result ≡ (if ends_past (part_of node.now) rows then 1 else 0) }
{
    if ends_past(node, rows) { 1 } else { 0 }
}
