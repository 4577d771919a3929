//! Lists of records of any of the six widths, filtered.
ghost use Rattle.std.specs.Prelude.{◌≡◌, length, IfOk};
ghost use Rattle.std.specs.List.{items_where_true};
ghost use Rattle.vx_bits.specs.Records.{records_of, width_of};

use crate::ladder::filter_slice;
use std::alloc::Global;
use vx_bits::{Buffer, NoMemory, Records, map_each_record_width};
use vx_mask::{MaskValues, Policy};

fn filter_buffer<T: Copy>(
    alloc: Global,
    buffer: &Buffer<T>,
    mask: &MaskValues,
    policy: &Policy,
) -> Result<Buffer<T>, NoMemory>
    requires { length mask.now.bits.bits ≡ length buffer.now }
    ensures { IfOk result (λ b. b ≡ items_where_true mask.now.bits.bits buffer.now) }
{
    Buffer::from_vec(alloc, filter_slice(alloc, buffer.as_slice(), mask, policy)?)
}

/// The records at the set positions of `mask`, in order. Fails only with `NoMemory`.
pub fn filter_records(
    alloc: Global,
    records: &Records,
    mask: &MaskValues,
    policy: &Policy,
) -> Result<Records, NoMemory>
    requires { length mask.now.bits.bits ≡ length (records_of records.now) }
    ensures records { IfOk result (λ r.
        records_of r ≡ items_where_true mask.now.bits.bits (records_of records.now)) }
    ensures width { IfOk result (λ r. width_of r ≡ width_of records.now) }
{
    Ok(map_each_record_width!(records, buffer => filter_buffer(alloc, buffer, mask, policy)?))
}
