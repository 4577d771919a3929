//! Values in whole chunks, which a decoder hands out.
ghost use Rattle.std.specs.Prelude.{◌≡◌, IfOk, length};
ghost use Rattle.vx_decoder.specs.Told.{whole_chunks};

use std::alloc::Global;
use std::test::Fail;
use vx_bits::{Buffer, NoMemory};
use vx_decoder::StoredChunks;

/// So many values, in whole chunks.
fn stored<const W: usize>(
    alloc: Global,
    values: Vec<[u8; W]>,
    len: usize,
) -> Result<StoredChunks<[u8; W]>, Fail>
    ensures { IfOk result (λ s. length (whole_chunks s) ≡ len) }
{
    if values.len() != len || len % 1024 != 0 {
        return Err("not so many whole chunks".into());
    }
    Ok(StoredChunks::new(Buffer::from_vec(alloc, values)?))
}

fn number_list(alloc: Global) -> Result<Vec<[u8; 4]>, NoMemory> {
    let mut values = Vec::with_capacity(alloc, 3072)?;
    for n in 0u32..3072 {
        values.push(n.to_le_bytes())?;
    }
    Ok(values)
}

/// The numbers below 3072, in three chunks.
pub fn numbers(alloc: Global) -> Result<StoredChunks<[u8; 4]>, Fail>
    ensures { IfOk result (λ s. length (whole_chunks s) ≡ 3072) }
{
    stored(alloc, number_list(alloc)?, 3072)
}

/// Bytes that are all 7, in three chunks.
pub fn sevens(alloc: Global) -> Result<StoredChunks<[u8; 1]>, Fail>
    ensures { IfOk result (λ s. length (whole_chunks s) ≡ 3072) }
{
    stored(alloc, vec![in alloc; [7]; 3072]?, 3072)
}

fn remainder_list<const W: usize>(alloc: Global) -> Result<Vec<[u8; W]>, NoMemory> {
    let mut values = Vec::new(alloc);
    for n in 0usize..2048 {
        values.push([(n % 251) as u8; W])?;
    }
    Ok(values)
}

/// Records of W bytes, each of which is the place's remainder by 251, in two chunks.
pub fn remainders<const W: usize>(alloc: Global) -> Result<StoredChunks<[u8; W]>, Fail>
    ensures { IfOk result (λ s. length (whole_chunks s) ≡ 2048) }
{
    stored(alloc, remainder_list::<W>(alloc)?, 2048)
}
