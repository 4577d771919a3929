//! Numbers that are packed, and read back.
ghost use Rattle.std.specs.Prelude.{◌≡◌, true};
ghost use Rattle.vx_packed.specs.Faults.{is_width};

use crate::packed::numbers::{packed, remainders, spread, sum_of, sum_of_bytes};
use std::alloc::Global;
use std::test::Fail;
use vx_packed::{read_chunk, spelling_law};

/// A row for each list of numbers.
pub(crate) fn print_rows(rt: &impl Print, alloc: Global) -> Result<(), Fail> {
    spelling_law();
    print_spelling(
        rt,
        alloc,
        "100 and up",
        &remainders(alloc, 100, 4, 1024)?,
        1,
    )?;
    print_alike(rt, alloc)?;
    print_spelling(rt, alloc, "sevens", &remainders(alloc, 7, 1, 1024)?, 1)?;
    print_spelling(rt, alloc, "none", &remainders(alloc, 0, 1, 0)?, 8)?;
    print_spelling(
        rt,
        alloc,
        "three chunks",
        &remainders(alloc, 40, 1500, 3072)?,
        2,
    )?;
    print_digits(rt, alloc, 9, 0, 1)?;
    print_digits(rt, alloc, 254, 1, 1)?;
    print_digits(rt, alloc, 5, 7, 1)?;
    print_digits(rt, alloc, 0, 8, 1)?;
    print_digits(rt, alloc, 5, 13, 2)?;
    print_digits(rt, alloc, 5, 31, 4)?;
    print_digits(rt, alloc, 0, 32, 4)?;
    print_digits(rt, alloc, 5, 63, 8)?;
    print_digits(rt, alloc, 0, 64, 8)
}

fn print_digits(
    rt: &impl Print,
    alloc: Global,
    base: u64,
    digits: u32,
    width: usize,
) -> Result<(), Fail>
    requires { is_width width ≡ true }
{
    print!(rt; "{digits} digits, ")?;
    print_spelling(rt, alloc, "spread", &spread(alloc, base, digits)?, width)
}

// How many bytes of the offsets of 100 to 103, again and again, spell 0, 1, 2, 3.
fn print_alike(rt: &impl Print, alloc: Global) -> Result<(), Fail> {
    let bytes = packed(alloc, &remainders(alloc, 100, 4, 1024)?, 1)?;
    let mut alike: u64 = 0;
    for byte in bytes.as_slice().iter().skip(9) {
        if *byte == 0xe4 {
            alike = alike.wrapping_add(1);
        }
    }
    println!(rt; "e4 among its bytes from the tenth on: {alike}")?;
    Ok(())
}

// The bytes of numbers, and what their first chunk gives.
fn print_spelling(
    rt: &impl Print,
    alloc: Global,
    name: &str,
    numbers: &[u64],
    width: usize,
) -> Result<(), Fail>
    requires { is_width width ≡ true }
{
    let bytes = packed(alloc, numbers, width)?;
    print!(rt; "{name}: {} bytes", bytes.len())?;
    for byte in bytes.as_slice().iter().take(9) {
        print!(rt; " {byte:02x}")?;
    }
    print!(rt; ", sum {}", sum_of_bytes(bytes.as_slice()))?;
    print_read(rt, bytes.as_slice(), width)?;
    rt.println("")?;
    Ok(())
}

/// What bytes are read as.
pub(crate) fn print_read(rt: &impl Print, bytes: &[u8], width: usize) -> Result<(), Fail>
    requires { is_width width ≡ true }
{
    let mut numbers = [5; 1024];
    match read_chunk(bytes, width, &mut numbers) {
        Ok(()) => print!(rt;
            ", numbers {} to {}, sum {}",
            numbers[0],
            numbers[1023],
            sum_of(&numbers)
        )?,
        Err(fault) => print!(rt; ", {fault:?}, sum {}", sum_of(&numbers))?,
    }
    Ok(())
}
