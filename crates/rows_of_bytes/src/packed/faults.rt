//! Bytes that are no spelling of a chunk.
ghost use Rattle.std.specs.Prelude.{◌≡◌, true};
ghost use Rattle.vx_packed.specs.Faults.{is_width};

use crate::packed::numbers::{packed, remainders};
use crate::packed::spellings::print_read;
use std::alloc::Global;
use std::test::Fail;
use vx_bits::NoMemory;

/// A row for each fault, and for each two of which the first is told.
pub(crate) fn print_rows(rt: &impl Print, alloc: Global) -> Result<(), Fail> {
    print_short(rt, alloc)?;
    print_made(rt, "65 digits", &made(alloc, 65, 0, 0, 0)?, 1)?;
    print_made(rt, "9 digits and too long", &made(alloc, 9, 0, 0, 2000)?, 1)?;
    print_made(rt, "9 digits, two bytes", &made(alloc, 9, 0, 0, 1152)?, 2)?;
    print_made(rt, "17 digits, two bytes", &made(alloc, 17, 0, 0, 2176)?, 2)?;
    print_made(
        rt,
        "33 digits, four bytes",
        &made(alloc, 33, 0, 0, 4224)?,
        4,
    )?;
    print_made(rt, "ten bytes", &made(alloc, 0, 0, 0, 1)?, 1)?;
    print_made(rt, "129 bytes of ones", &made(alloc, 1, 0, 0xff, 129)?, 1)?;
    print_made(rt, "ones", &made(alloc, 1, 0, 0xff, 128)?, 1)?;
    print_made(rt, "ones of two digits", &made(alloc, 2, 0, 0x55, 256)?, 1)?;
    print_made(rt, "zeros", &made(alloc, 1, 0, 0, 128)?, 1)?;
    print_made(
        rt,
        "a base of 255 and slack",
        &made(alloc, 2, 255, 0x44, 256)?,
        1,
    )?;
    print_made(rt, "a base of 255", &made(alloc, 1, 255, 0xaa, 128)?, 1)?;
    print_made(rt, "a base of 254", &made(alloc, 1, 254, 0xaa, 128)?, 1)?;
    print_made(
        rt,
        "a base of 255, two bytes",
        &made(alloc, 1, 255, 0xaa, 128)?,
        2,
    )?;
    print_big(rt, alloc)
}

fn print_short(rt: &impl Print, alloc: Global) -> Result<(), Fail> {
    print_made(rt, "nine bytes", &made(alloc, 8, 0, 0, 0)?, 1)?;
    print_made(rt, "a byte too few", &made(alloc, 1, 0, 0xff, 127)?, 1)?;
    let eight = [65, 0, 0, 0, 0, 0, 0, 0];
    rt.print("eight bytes")?;
    print_read(rt, &eight, 1)?;
    rt.println("")?;
    rt.print("no bytes")?;
    print_read(rt, &[], 8)?;
    rt.println("")?;
    Ok(())
}

// Numbers that two bytes hold and one doesn't.
fn print_big(rt: &impl Print, alloc: Global) -> Result<(), Fail> {
    let bytes = packed(alloc, &remainders(alloc, 200, 100, 1024)?, 2)?;
    print_made(rt, "200 to 299", &bytes, 1)?;
    print_made(rt, "200 to 299, two bytes", &bytes, 2)
}

fn print_made(rt: &impl Print, name: &str, bytes: &Vec<u8>, width: usize) -> Result<(), Fail>
    requires { is_width width ≡ true }
{
    rt.print(name)?;
    print_read(rt, bytes.as_slice(), width)?;
    rt.println("")?;
    Ok(())
}

// So many digits, a base of one byte, and so many bytes that are alike.
fn made(alloc: Global, digits: u8, base: u8, fill: u8, count: u32) -> Result<Vec<u8>, NoMemory> {
    let mut bytes = Vec::new(alloc);
    bytes.push(digits)?;
    bytes.push(base)?;
    for _ in 0..7u32 {
        bytes.push(0)?;
    }
    for _ in 0..count {
        bytes.push(fill)?;
    }
    Ok(bytes)
}
