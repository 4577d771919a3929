//! Lists of values and of records.

use crate::text::shown;
use std::alloc::Global;
use std::test::Fail;
use vx_bits::{Buffer, NoMemory, Record, Records};

/// A row for a list, for a record or for a list of records.
pub(crate) fn row(alloc: Global, n: usize) -> Result<String, Fail> {
    match n {
        0 => list(alloc),
        1 => zero::<[u8; 2]>(alloc),
        _ => records(alloc),
    }
}

/// These values as a list that is shared.
pub(crate) fn shared<T: Copy>(alloc: Global, values: &[T]) -> Result<Buffer<T>, NoMemory> {
    Buffer::from_vec(alloc, Vec::from_slice(alloc, values)?)
}

fn list(alloc: Global) -> Result<String, Fail> {
    let buffer = shared(alloc, &[1, 2, 3])?;
    if buffer.is_empty() {
        return Err("no value".into());
    }
    let part = buffer.slice(1, buffer.len()).share();
    let (all, cut) = (buffer.as_slice(), part.as_slice());
    Ok(format!(in alloc; "1 2 3: {all:?}; from 1 up to 3: {cut:?}")?)
}

fn zero<R: Record>(alloc: Global) -> Result<String, Fail> {
    let zero = R::zero();
    shown(alloc, "a record of zeros", &zero.bytes())
}

fn records(alloc: Global) -> Result<String, Fail> {
    let records = Records::W2(shared(alloc, &[[1, 2], [3, 4], [5, 6]])?);
    let len = records.len();
    if len == 0 {
        return Err("no record".into());
    }
    records_row(alloc, &records.slice(1, len).share())
}

fn records_row(alloc: Global, part: &Records) -> Result<String, Fail> {
    let len = part.len();
    if len == 0 {
        return Err("no second record".into());
    }
    let width = part.width();
    let first = part.record_bytes(0);
    Ok(format!(in alloc; "three records without the first: {len} of {width} bytes, {first:?}")?)
}
