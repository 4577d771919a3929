//! Records and numbers, and what a type keeps.

use std::test::Fail;
use vx_types::{
    ColumnError, DType, DecimalDType, Nullability, PType, match_each_integer_ptype, record_of,
};

/// The rows of types.
pub(crate) fn print_rows(rt: &impl Print) -> Result<(), Fail> {
    print_records(rt)?;
    print_numbers(rt)?;
    print_ranges(rt)?;
    print_decimals(rt)?;
    print_types(rt)
}

/// Records are little-endian, in two's complement.
fn print_records(rt: &impl Print) -> Result<(), Fail> {
    println!(rt; "record of 1500: {:?}", record_of::<4>(1500))?;
    println!(rt; "record of -2: {:?}", record_of::<2>(-2))?;
    println!(rt; "record of 300: {:?}", record_of::<1>(300))?;
    println!(rt; "record of -1: {:?}", record_of::<8>(-1))?;
    Ok(())
}

/// The number of a record, where the type has such numbers.
fn print_number(rt: &impl Print, name: &str, ptype: PType, record: &[u8]) -> Result<(), Fail> {
    if !ptype.is_int() || record.len() != ptype.width() {
        return Err("not a record of an integer".into());
    }
    println!(rt; "{name}: {}", ptype.number(record))?;
    Ok(())
}

/// What records spell.
fn print_numbers(rt: &impl Print) -> Result<(), Fail> {
    print_number(rt, "u8 of c8", PType::U8, &[200])?;
    print_number(rt, "i8 of ff", PType::I8, &[255])?;
    print_number(rt, "u16 of 2c01", PType::U16, &[0x2c, 0x01])?;
    print_number(rt, "i16 of feff", PType::I16, &[0xfe, 0xff])?;
    print_number(rt, "u32 of dc050000", PType::U32, &[0xdc, 0x05, 0, 0])?;
    print_number(rt, "i32 of 00000080", PType::I32, &[0, 0, 0, 0x80])?;
    print_number(rt, "u64 of ffffffffffffffff", PType::U64, &[255; 8])?;
    print_number(rt, "i64 of ffffffffffffffff", PType::I64, &[255; 8])
}

const INTEGERS: [PType; 8] = [
    PType::U8,
    PType::U16,
    PType::U32,
    PType::U64,
    PType::I8,
    PType::I16,
    PType::I32,
    PType::I64,
];

macro_rules! greatest_by {
    ($ty:ty) => {
        i128::from(<$ty>::MAX)
    };
}

/// Whether the range of an integer type ends with the greatest number of the Rust type, and holds
/// -1 just where it is signed.
fn has_its_range(ptype: PType) -> bool {
    if !ptype.is_int() {
        return false;
    }
    let greatest = match_each_integer_ptype!(ptype, greatest_by);
    ptype.is_in_range(greatest)
        && !ptype.is_in_range(greatest.wrapping_add(1))
        && ptype.is_in_range(-1) == ptype.is_signed()
}

/// The ranges of types.
fn print_ranges(rt: &impl Print) -> Result<(), Fail> {
    for ptype in INTEGERS {
        println!(rt; "{ptype:?} has its range: {}", has_its_range(ptype))?;
    }
    println!(rt; "f16 has 0: {}", PType::F16.is_in_range(0))?;
    Ok(())
}

fn decimal_width(precision: u8, scale: i8, width: u8) -> Result<u8, ColumnError> {
    Ok(DecimalDType::try_new(precision, scale, width)?.width())
}

/// The widths of decimal types, and what they refuse.
fn print_decimals(rt: &impl Print) -> Result<(), Fail> {
    println!(rt; "decimal(4,2,16): {:?}", decimal_width(4, 2, 16))?;
    println!(rt; "decimal(77,0,32): {:?}", decimal_width(77, 0, 32).err())?;
    println!(rt; "decimal(3,0,1): {:?}", decimal_width(3, 0, 1).err())?;
    Ok(())
}

/// What a type keeps.
fn print_types(rt: &impl Print) -> Result<(), Fail> {
    let plain = DType::Primitive(PType::U32, Nullability::NonNullable);
    println!(rt; "u32 is nullable: {}", plain.is_nullable())?;
    println!(rt; "width of u32: {:?}", plain.share().width())?;
    let nullable = plain.with_nullability(Nullability::NonNullable.or(Nullability::Nullable));
    println!(rt; "u32? is nullable: {}", nullable.is_nullable())?;
    Ok(())
}
