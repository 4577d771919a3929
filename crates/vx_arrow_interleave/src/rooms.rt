//! The rows of the nodes at one place, written to a room.
ghost use Rattle.std.specs.Prelude.{◌≡◌, ◌≤◌, Some, length, true};
ghost use Rattle.vx_arrow_image.specs.Image.{parts_of};
ghost use Rattle.vx_arrow_columns.specs.Bytes.{KeepsPast};
ghost use Rattle.vx_arrow_columns.specs.Written.{KeepsLists, has_room};
ghost use Rattle.vx_arrow_interleave.specs.Bytes.{AreBits, AreBytes, AreOffsetsOf, AreSizesOf, AreValuesOf, bit_in};
ghost use Rattle.vx_arrow_interleave.specs.Given.{need_of, places};
ghost use Rattle.vx_arrow_interleave.specs.Planned.{given_by};
ghost use Rattle.vx_arrow_interleave.specs.Sources.{part_at, shows_valid};
ghost use Rattle.vx_arrow_interleave.specs.Taken.{HasBytes, IsWritable};

use crate::list_views::{write_sizes, write_starts};
use crate::planning::Job;
use crate::sources::shows_valid;
use crate::writing::{BitsOf, write_bits, write_offsets, write_records};
use vx_arrow_image::{Format, Need, Node, Room, format_of};

// Writes validity, where a source has some.
fn write_valid(sources: &[Node], job: &Job, valid: &mut [u8])
    requires done { IsWritable (parts_of sources.now) job.now }
    requires room { length valid.old ≡ (need_of (parts_of sources.now) (given_by job.now)).valid }
    ensures { shows_valid (parts_of sources.now) ≡ true → AreBits
        (bit_in BitsOf.Validity (parts_of sources.now))
        (places (parts_of sources.now) (given_by job.now)) valid.new }
{
    if shows_valid(sources) {
        write_bits(BitsOf::Validity, sources, &job.rows, valid);
    }
}

// Writes offsets, of formats that have some.
fn write_offsets_of(format: Format, sources: &[Node], job: &Job, offsets: &mut [u8])
    requires done { IsWritable (parts_of sources.now) job.now }
    requires format { (part_at (parts_of sources.now) 0).format ≡ Some format }
    requires room { length offsets.old
        ≡ (need_of (parts_of sources.now) (given_by job.now)).offsets }
    ensures { AreOffsetsOf (Some format) (parts_of sources.now)
        (places (parts_of sources.now) (given_by job.now)) offsets.new }
{
    match format {
        Format::Text(size) | Format::List(size) => {
            write_offsets(size, sources, &job.rows, offsets)
        }
        Format::ListView(size) => write_starts(size, sources, &job.rows, offsets),
        _ => {}
    }
}

// Writes values, of formats that have some.
fn write_values_of(format: Format, sources: &[Node], job: &Job, values: &mut [u8])
    requires done { IsWritable (parts_of sources.now) job.now }
    requires format { (part_at (parts_of sources.now) 0).format ≡ Some format }
    requires room { length values.old
        ≡ (need_of (parts_of sources.now) (given_by job.now)).values }
    ensures { AreValuesOf (Some format) (parts_of sources.now)
        (places (parts_of sources.now) (given_by job.now)) values.new }
{
    match format {
        Format::Bits => write_bits(BitsOf::Values, sources, &job.rows, values),
        Format::Fixed => write_records(sources[0].width as usize, sources, &job.rows, values),
        Format::Text(_) => write_records(1, sources, &job.items, values),
        Format::TextView => values.copy_from_slice(&job.views),
        Format::Union => write_records(1, sources, &job.rows, values),
        _ => {}
    }
}

// Writes the sizes of list views, and the ids of a union's children.
fn write_sizes_of(format: Format, sources: &[Node], job: &Job, sizes: &mut [u8])
    requires done { IsWritable (parts_of sources.now) job.now }
    requires format { (part_at (parts_of sources.now) 0).format ≡ Some format }
    requires room { length sizes.old
        ≡ (need_of (parts_of sources.now) (given_by job.now)).sizes }
    ensures { AreSizesOf (Some format) (parts_of sources.now)
        (places (parts_of sources.now) (given_by job.now)) sizes.new }
{
    match format {
        Format::ListView(size) => write_sizes(size, sources, &job.rows, sizes),
        Format::Union => {
            sizes.copy_from_slice(&sources[0].sizes[..sources[0].children as usize]);
        }
        _ => {}
    }
}

// Writes the rows to lists that are as long as they need.
fn write_node(
    sources: &[Node],
    job: &Job,
    valid: &mut [u8],
    offsets: &mut [u8],
    values: &mut [u8],
    sizes: &mut [u8],
)
    requires done { IsWritable (parts_of sources.now) job.now }
    requires valid { length valid.old
        ≡ (need_of (parts_of sources.now) (given_by job.now)).valid }
    requires offsets { length offsets.old
        ≡ (need_of (parts_of sources.now) (given_by job.now)).offsets }
    requires values { length values.old
        ≡ (need_of (parts_of sources.now) (given_by job.now)).values }
    requires sizes { length sizes.old
        ≡ (need_of (parts_of sources.now) (given_by job.now)).sizes }
    ensures { AreBytes (parts_of sources.now) (places (parts_of sources.now) (given_by job.now))
        valid.new offsets.new values.new sizes.new }
{
    let Some(format) = format_of(sources[0].format) else {
        return;
    };
    write_valid(sources, job, valid);
    write_offsets_of(format, sources, job, offsets);
    write_values_of(format, sources, job, values);
    write_sizes_of(format, sources, job, sizes);
}

// Writes them to the first bytes of lists, as many as are needed. No byte behind these changes.
fn write_front(
    sources: &[Node],
    job: &Job,
    need: &Need,
    valid: &mut [u8],
    offsets: &mut [u8],
    values: &mut [u8],
    sizes: &mut [u8],
)
    requires done { IsWritable (parts_of sources.now) job.now }
    requires need { need.now ≡ need_of (parts_of sources.now) (given_by job.now) }
    requires valid { need.now.valid ≤ length valid.old }
    requires offsets { need.now.offsets ≤ length offsets.old }
    requires values { need.now.values ≤ length values.old }
    requires sizes { need.now.sizes ≤ length sizes.old }
    ensures bytes { AreBytes (parts_of sources.now)
        (places (parts_of sources.now) (given_by job.now))
        valid.new offsets.new values.new sizes.new }
    ensures past_valid { KeepsPast need.now.valid valid.old valid.new }
    ensures past_offsets { KeepsPast need.now.offsets offsets.old offsets.new }
    ensures past_values { KeepsPast need.now.values values.old values.new }
    ensures past_sizes { KeepsPast need.now.sizes sizes.old sizes.new }
{
    write_node(
        sources,
        job,
        &mut valid[..need.valid as usize],
        &mut offsets[..need.offsets as usize],
        &mut values[..need.values as usize],
        &mut sizes[..need.sizes as usize],
    );
}

/// Writes the rows to a room that is as large as their need.
pub(crate) fn write_room(sources: &[Node], job: &Job, need: &Need, room: &mut Room)
    requires done { IsWritable (parts_of sources.now) job.now }
    requires need { need.now ≡ need_of (parts_of sources.now) (given_by job.now) }
    requires room { has_room need.now room.old ≡ true }
    ensures bytes { HasBytes (parts_of sources.now) (given_by job.now) room.old room.new }
    ensures lists { KeepsLists room.old room.new }
{
    write_front(
        sources,
        job,
        need,
        room.valid,
        room.offsets,
        room.values,
        room.sizes,
    );
}
