//! Reading the blocks that hold picked rows.
ghost use Rattle.std.specs.Prelude.{◌≡◌, ◌+◌, ◌^◌, ◌<◌, ◌≤◌, true, IfErr, IfOk, IfSome, OnOk, length, take, if◌then◌else◌};
ghost use Rattle.vx_bits.specs.WordReader.{then_told};
ghost use Rattle.vx_io.specs.Bytes.{Rose};
ghost use Rattle.vx_packed.specs.Chunk.{IsSpelling};
ghost use Rattle.vx_packed.specs.Faults.{is_width};
ghost use Rattle.vx_file.specs.Blocks.{block_at};
ghost use Rattle.vx_file.specs.Errors.{MatchReading};
ghost use Rattle.vx_file.specs.Reading.{AreHeld, AreTold, HasRoom, IsHeld, IsNoSpelling, NamesTouched, ReadLast, ReadUpTo};
ghost use Rattle.vx_file.specs.Touched.{block_of_rows, blocks_for, blocks_touched};

use crate::block_reader::{BLOCK_LEN, BlockReader};
use crate::error::FileError;
use crate::held::Held;
use crate::touching::touched_blocks;
use std::alloc::Global;
use vx_packed::read_chunk;
use vx_take::Picks;

// Reads a block where it is touched, and appends its numbers.
fn keep_block<R: BlockReader>(
    reader: &mut R,
    touched: bool,
    rows: usize,
    width: usize,
    buffer: &mut [u8; 8201],
    numbers: &mut Vec<u64>,
) -> Result<(), FileError>
    requires width { is_width width ≡ true }
    requires rows { rows + 1 < 2 ^ 64 }
    ensures front { OnOk result
        (take (length numbers.old.items) numbers.new.items ≡ numbers.old.items) }
    ensures grown { OnOk result (length numbers.new.items
        ≡ length numbers.old.items + (if touched then 1024 else 0)) }
    ensures held { OnOk result (touched ≡ true → IfSome (R.blocks reader.old) (λ all.
        IsHeld width numbers.new.items (length numbers.old.items) (block_at all (rows + 1)))) }
    ensures error { IfErr result (λ e. MatchReading e
        (Rose (R.faults reader.old) (R.faults reader.new))
        (λ block. (block ≡ rows + 1) × (IfSome (R.blocks reader.old)
        (λ all. IsNoSpelling width (block_at all block))))
        (λ _ _. ⊥) (Unit {0})) }
    ensures told { length (block_of_rows touched rows) ≤ R.spare reader.old
        → R.reads reader.new ≡ then_told (R.reads reader.old) (block_of_rows touched rows) }
    ensures asked { IfErr result (λ _. touched ≡ true) }
    ensures same { R.blocks reader.new ≡ R.blocks reader.old }
    ensures cost { R.spare reader.old
        ≤ R.spare reader.new + length (block_of_rows touched rows) }
    ensures never_falls { R.faults reader.old ≤ R.faults reader.new }
{
    if !touched {
        return Ok(());
    }
    let Ok(n) = reader.read_block(rows + 1, buffer) else {
        return Err(FileError::ReadFault);
    };
    let mut chunk = [0; 1024];
    let Ok(()) = read_chunk(&buffer[..n], width, &mut chunk) else {
        return Err(FileError::Damaged { block: rows + 1 });
    };
    let Ok(()) = numbers.extend_from_slice(&chunk) else {
        return Err(FileError::NoMemory);
    };
    Ok(())
}

/// Reads each touched block once, ascending, and keeps its numbers.
pub(crate) fn read_touched<R: BlockReader>(
    alloc: Global,
    reader: &mut R,
    width: usize,
    picks: &Picks,
) -> Result<Held, FileError>
    requires { is_width width ≡ true }
    ensures room { IfOk result (λ h. HasRoom h.numbers.items h.starts.items picks.now.picks
        (blocks_for picks.now.bound)) }
    ensures held { IfOk result (λ h. IfSome (R.blocks reader.old)
        (AreHeld width h.numbers.items h.starts.items picks.now.picks
        (blocks_for picks.now.bound))) }
    ensures told { OnOk result (AreTold (R.spare reader.old) picks.now (R.reads reader.new
        ≡ then_told (R.reads reader.old)
        (blocks_touched picks.now.picks (blocks_for picks.now.bound)))) }
    ensures error { IfErr result (λ e. MatchReading e
        (Rose (R.faults reader.old) (R.faults reader.new)
        × AreTold (R.spare reader.old) picks.now (ReadUpTo picks.now.picks
        (R.reads reader.old) (R.reads reader.new) (blocks_for picks.now.bound)))
        (λ block. IfSome (R.blocks reader.old) (λ all. IsNoSpelling width (block_at all block))
        × AreTold (R.spare reader.old) picks.now (ReadLast picks.now.picks
        (R.reads reader.old) (R.reads reader.new) (blocks_for picks.now.bound) block))
        (λ _ _. ⊥)
        (AreTold (R.spare reader.old) picks.now (ReadUpTo picks.now.picks (R.reads reader.old)
        (R.reads reader.new) (blocks_for picks.now.bound)))) }
    ensures touched { IfErr result (NamesTouched picks.now) }
    ensures same { R.blocks reader.new ≡ R.blocks reader.old }
    ensures cost { R.spare reader.old ≤ R.spare reader.new
        + length (blocks_touched picks.now.picks (blocks_for picks.now.bound)) }
    ensures never_falls { R.faults reader.old ≤ R.faults reader.new }
{
    let marks = touched_blocks(alloc, picks)?;
    let mut numbers = Vec::new(alloc);
    let mut starts = Vec::with_capacity(alloc, marks.len())?;
    let mut buffer = [0; BLOCK_LEN];
    let flags = marks.as_slice();
    for k in 0..flags.len() {
        starts.push_reserved(numbers.len());
        if let Err(error) = keep_block(reader, flags[k], k, width, &mut buffer, &mut numbers) {
            return Err(error);
        }
    }
    Ok(Held { numbers, starts })
}
