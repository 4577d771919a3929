//! Columns from lists: of bools, of strings, of numbers of which some are null, of floats, of one
//! number, and of structs; and lists that make none.

use crate::printing::print_column;
use std::alloc::Global;
use std::test::Fail;
use vortex_select::build::{
    F16, bools, constant, filter_by, lists, nullable_texts, numbers, records, structs,
    structs_with_len, validity,
};
use vortex_select::{Array, ColumnError, PType, PrimitiveArray};

/// Three numbers, of which the second is null.
fn numbers_but_one(alloc: Global) -> Result<Array, Fail> {
    let numbers = records(alloc, &[1_u32, 2, 3])?;
    let valid = validity(alloc, &[true, false, true])?;
    Ok(PrimitiveArray::try_new(PType::U32, numbers, valid)?.into_array())
}

/// Floats of 16 bits: 1.5, -0.0, the greatest, infinity, and a NaN whose sign is set.
fn halves(alloc: Global) -> Result<Array, Fail> {
    let halves = [
        F16::from_bits(0x3e00),
        F16::from_bits(0x8000),
        F16::from_bits(0x7bff),
        F16::from_bits(0x7c00),
        F16::from_bits(0xfe01),
    ];
    Ok(numbers(alloc, &halves)?)
}

/// Structs whose second field has a row less.
fn uneven(alloc: Global) -> Result<Option<ColumnError>, Fail> {
    let ids = numbers(alloc, &[7_u64, 8])?;
    let fields = vec![in alloc; ("id", ids), ("is_in", bools(alloc, &[true])?)]?;
    Ok(structs(alloc, fields).err())
}

/// Two structs of one field, to be three.
fn too_few(alloc: Global) -> Result<Option<ColumnError>, Fail> {
    let ids = numbers(alloc, &[7_u64, 8])?.into_ref(alloc)?;
    Ok(structs_with_len(alloc, &[("id", ids)], 3).err())
}

/// Lists by offsets of which the second is below the first.
fn falling(alloc: Global) -> Result<Option<ColumnError>, Fail> {
    Ok(lists(alloc, &[1, 0], numbers(alloc, &[7_u64, 8])?).err())
}

/// A filter by numbers.
fn by_numbers(alloc: Global) -> Result<Option<ColumnError>, Fail> {
    let ids = numbers(alloc, &[7_u64, 8])?.into_ref(alloc)?;
    Ok(filter_by(&ids).err())
}

/// Prints why lists make no column, and a column no step.
fn print_unbuilt(rt: &impl Print, alloc: Global) -> Result<(), Fail> {
    println!(rt; "fields of 2 rows and of 1: {:?}", uneven(alloc)?)?;
    println!(rt; "3 structs of 2 rows: {:?}", too_few(alloc)?)?;
    println!(rt; "offsets 1 and 0: {:?}", falling(alloc)?)?;
    println!(rt; "a filter by numbers: {:?}", by_numbers(alloc)?)?;
    Ok(())
}

/// Prints each column: its type, and a line for each row.
pub(crate) fn print_built(rt: &impl Print, alloc: Global) -> Result<(), Fail> {
    print_column(rt, alloc, &bools(alloc, &[true, false])?)?;
    print_column(
        rt,
        alloc,
        &nullable_texts(alloc, &[Some("Ann"), None, Some("")])?,
    )?;
    print_column(rt, alloc, &constant(alloc, 7_u16, 2)?)?;
    print_column(rt, alloc, &numbers(alloc, &[1.5_f64, -2.5])?)?;
    print_column(rt, alloc, &halves(alloc)?)?;
    println!(rt; "the NaN fe01: {:x}", F16::from_bits(0xfe01).to_bits())?;
    print_column(rt, alloc, &numbers_but_one(alloc)?)?;
    print_column(rt, alloc, &structs_with_len(alloc, &[], 2)?)?;
    print_unbuilt(rt, alloc)
}
