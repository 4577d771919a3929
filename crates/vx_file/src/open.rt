//! Opening a file.
ghost use Rattle.std.specs.Prelude.{◌≡◌, ◌+◌, ◌≤◌, [], ◌∷◌, IfErr, IfOk, IfSome};
ghost use Rattle.vx_bits.specs.WordReader.{then_told};
ghost use Rattle.vx_io.specs.Bytes.{Rose};
ghost use Rattle.vx_file.specs.Blocks.{block_at};
ghost use Rattle.vx_file.specs.Errors.{MatchOpening};
ghost use Rattle.vx_file.specs.Shape.{IsNoHeader, header};

use crate::block_reader::{BLOCK_LEN, BlockReader};
use crate::error::FileError;
use crate::shape::FileShape;

/// What the header of a file states, which is its block 0, by one read.
///
/// `ReadFault` only where a read failed; `BadHeader` exactly where the bytes that were read are no
/// header.
pub fn open_file<R: BlockReader>(reader: &mut R) -> Result<FileShape, FileError>
    ensures shape { IfOk result (λ s.
        IfSome (R.blocks reader.old) (λ all. block_at all 0 ≡ header s)) }
    ensures error { IfErr result (λ e. MatchOpening e
        (Rose (R.faults reader.old) (R.faults reader.new))
        (IfSome (R.blocks reader.old) (λ all. IsNoHeader (block_at all 0)))) }
    ensures told { 1 ≤ R.spare reader.old
        → R.reads reader.new ≡ then_told (R.reads reader.old) (0 ∷ []) }
    ensures same { R.blocks reader.new ≡ R.blocks reader.old }
    ensures cost { R.spare reader.old ≤ R.spare reader.new + 1 }
    ensures never_falls { R.faults reader.old ≤ R.faults reader.new }
{
    let mut buffer = [0; BLOCK_LEN];
    let Ok(n) = reader.read_block(0, &mut buffer) else {
        return Err(FileError::ReadFault);
    };
    match FileShape::from_header(&buffer[..n]) {
        Some(shape) => Ok(shape),
        None => Err(FileError::BadHeader),
    }
}
