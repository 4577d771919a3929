//! The offsets and sizes of list views, filtered and taken.
ghost use Rattle.std.specs.Prelude.{◌≡◌, ◌≤◌, IfOk, length, replicate, slice_range};
ghost use Rattle.std.specs.List.{items_where_true};
ghost use Rattle.vx_bits.specs.Records.{records_of, width_of};
ghost use Rattle.vx_model.specs.Records.{records_with};
ghost use Rattle.vx_model.specs.Valid.{non_nullable};
ghost use Rattle.vx_take.specs.Picks.{at};

use std::alloc::Global;
use vx_bits::{NoMemory, Records};
use vx_column::{PrimitiveArray, number_column};
use vx_filter::filter_records;
use vx_mask::{MaskValues, Policy};
use vx_take::{Picks, take_records};

// The column of the numbers' type with other records, none of them null.
fn with_records(numbers: &PrimitiveArray, records: Records) -> PrimitiveArray
    requires { width_of records ≡ numbers.now.width }
    ensures { result ≡ records_with numbers.now (records_of records) non_nullable }
{
    // The records are as wide as the type.
    let _ = numbers.values();
    number_column(numbers.ptype(), records)
}

/// The numbers at the set positions of `mask`, in order, of the same type. Fails only with
/// `NoMemory`.
pub fn filter_numbers(
    alloc: Global,
    numbers: &PrimitiveArray,
    mask: &MaskValues,
    policy: &Policy,
) -> Result<PrimitiveArray, NoMemory>
    requires { length mask.now.bits.bits ≡ length numbers.now.records }
    ensures { IfOk result (λ a. a ≡ records_with numbers.now
        (items_where_true mask.now.bits.bits numbers.now.records) non_nullable) }
{
    let records = filter_records(alloc, numbers.values(), mask, policy)?;
    Ok(with_records(numbers, records))
}

/// The numbers at the picks, in order, and 0 at a null, of the same type. Fails only with
/// `NoMemory`.
pub fn take_numbers(
    alloc: Global,
    numbers: &PrimitiveArray,
    picks: &Picks,
) -> Result<PrimitiveArray, NoMemory>
    requires { picks.now.bound ≤ length numbers.now.records }
    ensures { IfOk result (λ a. a ≡ records_with numbers.now
        (at (replicate numbers.now.width 0) numbers.now.records picks.now.picks) non_nullable) }
{
    let records = take_records(alloc, numbers.values(), picks)?;
    Ok(with_records(numbers, records))
}

/// The numbers from `start` up to `end`, of the same type.
pub fn slice_numbers(numbers: &PrimitiveArray, start: usize, end: usize) -> PrimitiveArray
    requires ordered { start ≤ end }
    requires within { end ≤ length numbers.now.records }
    ensures { result
        ≡ records_with numbers.now (slice_range numbers.now.records start end) non_nullable }
{
    with_records(numbers, numbers.values().slice(start, end))
}
