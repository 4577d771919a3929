//! Numbers of a type, as a file.
ghost use Rattle.std.specs.Prelude.{◌≡◌, ◌*◌, ◌^◌, ◌<◌, IfOk, length, true};
ghost use Rattle.std.specs.List.{All};
ghost use Rattle.vx_types.specs.PType.{width};
ghost use Rattle.vx_file.specs.File.{file_of};
ghost use Rattle.vx_file.specs.Shape.{is_unsigned};

use crate::output::File;
use anyhow::bail;
use std::alloc::Global;
use vx_file::file_blocks;
use vx_types::PType;

/// As many numbers as a file may have.
const MOST_ROWS: usize = 16_777_216;

// Whether a number is one of the type.
fn fits(ptype: PType, number: u64) -> bool
    requires { is_unsigned ptype ≡ true }
    ensures { result ≡ true → number < 2 ^ (8 * width ptype) }
{
    match ptype {
        PType::U8 => number <= 0xff,
        PType::U16 => number <= 0xffff,
        PType::U32 => number <= 0xffff_ffff,
        PType::U64 => true,
        _ => unreachable!(),
    }
}

// Whether each number is one of the type.
fn all_fit(ptype: PType, numbers: &[u64]) -> bool
    requires { is_unsigned ptype ≡ true }
    ensures { result ≡ true → All (λ n. n < 2 ^ (8 * width ptype)) numbers.now }
{
    for number in numbers {
        if !fits(ptype, *number) {
            return false;
        }
    }
    true
}

/// The file of these numbers, in order: its blocks, all of them.
pub(crate) fn file_of(alloc: Global, ptype: PType, numbers: &[u64]) -> anyhow::Result<File>
    requires { is_unsigned ptype ≡ true }
    ensures blocks { IfOk result (λ f. f.blocks
        ≡ file_of (record { ptype = ptype; len = length numbers.now }) numbers.now) }
    ensures count { IfOk result (λ f. f.count ≡ length f.blocks) }
{
    if numbers.len() > MOST_ROWS {
        bail!("a file has at most 16,777,216 rows");
    }
    if !all_fit(ptype, numbers) {
        bail!("a number is too great for its type");
    }
    let Ok(blocks) = file_blocks(alloc, ptype, numbers) else {
        bail!("out of memory");
    };
    Ok(File {
        blocks,
        count: 1 + numbers.len().div_ceil(1024),
    })
}
