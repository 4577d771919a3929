//! The blocks of a document, of which no read fails.
ghost use Rattle.std.specs.Prelude.{◌≡◌, [], IfOk, IsOk};
ghost use Rattle.vx_file.specs.Blocks.{new_reader};
ghost use Rattle.vx_rows.specs.declared.file_blocks.TheConstants.{ROOM};

use std::alloc::Global;
use std::marker::Model;
use vx_bits::{Buffer, Failed, NoMemory};
use vx_file::{BlockReader, Blocks, MemoryBlocks, ReadLog};

/// How many reads are kept: those of a header and of as many blocks as the longest file has.
const ROOM: usize = 16_385;

/// A reader of blocks in memory that keeps its reads. No read fails.
#[derive(Drop)]
pub(crate) struct FileBlocks {
    held: MemoryBlocks,
}

impl Model for FileBlocks {
    ghost use Rattle.std.specs.Prelude.{◌≡◌, []};
    ghost use Rattle.vx_file.specs.Blocks.{BlocksState};

    ghost Value = { BlocksState };

    ghost view = { λ s. s.held };

    ghost invariant = { λ s. s.held.failing ≡ [] };
}

impl FileBlocks {
    /// A reader of these blocks.
    pub(crate) fn new(alloc: Global, blocks: Blocks) -> Result<FileBlocks, NoMemory>
        ensures { IfOk result (λ s. s ≡ new_reader blocks [] ROOM) }
    {
        let failing = Buffer::from_vec(alloc, Vec::new(alloc))?;
        let held = MemoryBlocks::new(alloc, blocks, failing, ROOM)?;
        Ok(FileBlocks { held })
    }

    /// The reads, without the reader.
    pub(crate) fn into_reads(self) -> ReadLog
        ensures { result ≡ self.kept }
    {
        self.held.into_reads()
    }
}

impl BlockReader for FileBlocks {
    ghost use Rattle.std.specs.Prelude.{Some};
    ghost use Rattle.vx_file.specs.Blocks.{reads_left, told_reads};

    ghost blocks = { λ s. Some s.blocks };

    ghost reads = { λ s. told_reads s };

    ghost spare = { λ s. reads_left s };

    ghost faults = { λ _. 0 };

    fn read_block(&mut self, block: usize, dst: &mut [u8; 8201]) -> Result<usize, Failed> {
        self.held.read_block(block, dst)
    }
}
