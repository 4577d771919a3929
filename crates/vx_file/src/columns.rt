//! Columns of the numbers that were read.
ghost use Rattle.std.specs.Prelude.{◌≡◌, ◌≤◌, IfOk, length, map, true, Some};
ghost use Rattle.vx_bits.specs.Records.{records_of, width_of};
ghost use Rattle.vx_types.specs.PType.{width};
ghost use Rattle.vx_types.specs.RowValue.{bytes};
ghost use Rattle.vx_types.specs.TypeTree.{primitive_type};
ghost use Rattle.vx_model.specs.Plain.{is_unwrapped};
ghost use Rattle.vx_model.specs.Valid.{cover_by, is_fitting, is_flat_cover, nullability_by, stored_rows};
ghost use Rattle.vx_column.specs.Validity.{valid_of};
ghost use Rattle.vx_packed.specs.Faults.{is_width};
ghost use Rattle.vx_file.specs.Reading.{HasRoom, IsThere, held_number, held_records};
ghost use Rattle.vx_file.specs.Touched.{blocks_for};

use crate::held::Held;
use std::alloc::Global;
use vx_bits::{Buffer, NoMemory, Records};
use vx_column::{Array, PType, RecordType, Validity, record_column};
use vx_packed::record_from;
use vx_take::Picks;

// The number of a pick, and 0 for a null.
#[inline(always)]
fn number_of(numbers: &[u64], starts: &[usize], pick: Option<usize>) -> u64
    requires { IsThere numbers.now starts.now pick }
    ensures { result ≡ held_number numbers.now starts.now pick }
{
    match pick {
        Some(p) => numbers[starts[p / 1024] + p % 1024],
        None => 0,
    }
}

// The records of the picks, and zeros for a null.
fn taken<const N: usize>(
    alloc: Global,
    numbers: &[u64],
    starts: &[usize],
    picks: &Picks,
) -> Result<Buffer<[u8; N]>, NoMemory>
    requires small { N ≤ 8 }
    requires room { HasRoom numbers.now starts.now picks.now.picks (blocks_for picks.now.bound) }
    ensures { IfOk result (λ b. b ≡ held_records N numbers.now starts.now picks.now.picks) }
{
    let mut records = Vec::with_capacity(alloc, picks.len())?;
    for i in 0..picks.len() {
        records.push_reserved(record_from(number_of(numbers, starts, picks.get(i))));
    }
    Buffer::from_vec(alloc, records)
}

/// The records of the picks, and zeros for a null, as records of a width that is one of four.
pub(crate) fn taken_records(
    alloc: Global,
    held: &Held,
    picks: &Picks,
    width: usize,
) -> Result<Records, NoMemory>
    requires width { is_width width ≡ true }
    requires room { HasRoom held.now.numbers.items held.now.starts.items picks.now.picks
        (blocks_for picks.now.bound) }
    ensures records { IfOk result (λ r. records_of r
        ≡ held_records width held.now.numbers.items held.now.starts.items picks.now.picks) }
    ensures width { IfOk result (λ r. width_of r ≡ width) }
{
    let numbers = held.numbers.as_slice();
    let starts = held.starts.as_slice();
    match width {
        1 => Ok(Records::W1(taken(alloc, numbers, starts, picks)?)),
        2 => Ok(Records::W2(taken(alloc, numbers, starts, picks)?)),
        4 => Ok(Records::W4(taken(alloc, numbers, starts, picks)?)),
        8 => Ok(Records::W8(taken(alloc, numbers, starts, picks)?)),
        _ => unreachable!(),
    }
}

/// The column of these records, as nullable as the validity.
pub(crate) fn column_of(ptype: PType, values: Records, validity: Validity) -> Array
    requires width { width ptype ≡ width_of values }
    requires fitting { is_fitting (valid_of validity) (length (records_of values)) ≡ true }
    requires flat { is_flat_cover (cover_by (valid_of validity)) ≡ true }
    ensures rows { result.rows ≡ stored_rows (valid_of validity) (map bytes (records_of values)) }
    ensures dtype { result.dtype ≡ primitive_type ptype (nullability_by (valid_of validity)) }
    ensures unwrapped { is_unwrapped result ≡ true }
{
    record_column(RecordType::Primitive(ptype), values, validity)
}
