//! Writing a file.
ghost use Rattle.std.specs.Prelude.{◌≡◌, ◌+◌, ◌-◌, ◌*◌, ◌^◌, ◌<◌, ◌≤◌, true, length, IfOk};
ghost use Rattle.std.specs.List.{All};
ghost use Rattle.vx_types.specs.PType.{width};
ghost use Rattle.vx_packed.specs.Chunk.{IsChunk, spell};
ghost use Rattle.vx_packed.specs.Faults.{is_width};
ghost use Rattle.vx_file.specs.File.{file_of, whole_block};
ghost use Rattle.vx_file.specs.Shape.{header, is_unsigned, type_byte};

use crate::blocks::Blocks;
use std::alloc::Global;
use vx_bits::NoMemory;
use vx_column::PType;
use vx_packed::pack;

/// The blocks of a file with these rows. Fails only with `NoMemory`.
pub fn file_blocks(alloc: Global, ptype: PType, values: &[u64]) -> Result<Blocks, NoMemory>
    requires unsigned { is_unsigned ptype ≡ true }
    requires below { All (λ n. n < 2 ^ (8 * width ptype)) values.now }
    requires short { length values.now ≤ 16777216 }
    ensures { IfOk result (λ b. b
        ≡ file_of (record { ptype = ptype; len = length values.now }) values.now) }
{
    let mut blocks = Blocks::new(alloc);
    blocks.push(&header_of(ptype, values.len()))?;
    for k in 0..values.len().div_ceil(1024) {
        let end = values.len().min(1024 * k + 1024);
        let block = packed_block(alloc, &values[1024 * k..end], ptype.width())?;
        blocks.push(&block)?;
    }
    Ok(blocks)
}

// The bytes of the header.
#[tactic(auto, unfolding(crate::specs::Shape::header))]
fn header_of(ptype: PType, len: usize) -> [u8; 17]
    requires { is_unsigned ptype ≡ true }
    ensures { result ≡ header (record { ptype = ptype; len = len }) }
{
    let n = (len as u64).to_le_bytes();
    [
        b'V',
        b'X',
        b'C',
        b'O',
        b'L',
        b'0',
        b'0',
        b'1',
        type_byte(ptype),
        n[0],
        n[1],
        n[2],
        n[3],
        n[4],
        n[5],
        n[6],
        n[7],
    ]
}

// The byte of an unsigned type.
fn type_byte(ptype: PType) -> u8
    requires { is_unsigned ptype ≡ true }
    ensures { result ≡ type_byte ptype }
{
    match ptype {
        PType::U8 => 0,
        PType::U16 => 1,
        PType::U32 => 2,
        PType::U64 => 3,
        _ => unreachable!(),
    }
}

// The spelling of at most 1024 numbers, filled up with the last one.
fn packed_block(alloc: Global, numbers: &[u64], width: usize) -> Result<Vec<u8>, NoMemory>
    requires width { is_width width ≡ true }
    requires some { 0 < length numbers.now }
    requires few { length numbers.now ≤ 1024 }
    requires below { All (λ n. n < 2 ^ (8 * width)) numbers.now }
    ensures bytes { IfOk result (λ v. v.items ≡ spell (whole_block numbers.now)) }
    ensures short { IfOk result (λ v. length v.items ≤ 8201) }
{
    let chunk = filled_up(alloc, numbers)?;
    pack(alloc, &chunk, width)
}

// At most 1024 numbers, and the last one again up to 1024.
fn filled_up(alloc: Global, numbers: &[u64]) -> Result<Vec<u64>, NoMemory>
    requires some { 0 < length numbers.now }
    requires few { length numbers.now ≤ 1024 }
    ensures { IfOk result (λ v. v.items ≡ whole_block numbers.now) }
{
    let mut chunk = Vec::with_capacity(alloc, 1024)?;
    chunk.extend_from_slice(numbers)?;
    chunk.resize(1024, numbers[numbers.len() - 1])?;
    Ok(chunk)
}
