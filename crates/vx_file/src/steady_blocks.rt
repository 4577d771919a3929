//! Blocks in memory, of which no read fails.
ghost use Rattle.std.specs.Prelude.{◌≡◌, ◌≤◌, take, IfOk, IsOk};
ghost use Rattle.vx_file.specs.Blocks.{block_at};

use crate::block_reader::BlockReader;
use crate::blocks::Blocks;
use std::marker::Model;
use vx_bits::Failed;

/// Blocks in memory. No call fails, and no read is recorded.
///
/// Clauses see the blocks.
#[derive(Drop)]
pub struct SteadyBlocks {
    held: Blocks,
}

impl Model for SteadyBlocks {
    ghost use Rattle.std.specs.Prelude.{ℕ, List};

    ghost Value = { List (List ℕ) };

    ghost view = { λ s. s.held };
}

impl SteadyBlocks {
    /// A reader of these blocks.
    pub fn new(blocks: Blocks) -> SteadyBlocks
        ensures { result ≡ blocks }
    {
        SteadyBlocks { held: blocks }
    }
}

impl BlockReader for SteadyBlocks {
    ghost use Rattle.std.specs.Prelude.{None, Some};

    ghost blocks = { λ s. Some s };

    ghost reads = { λ _. None };

    ghost spare = { λ _. 0 };

    ghost faults = { λ _. 0 };

    fn read_block(&mut self, block: usize, dst: &mut [u8; 8201]) -> Result<usize, Failed>
        ensures succeeds { IsOk result }
        ensures within { IfOk result (λ n. n ≤ 8201) }
        ensures value { IfOk result (λ n. take n dst.new ≡ block_at self.old block) }
        ensures same { self.new ≡ self.old }
    {
        Ok(self.held.put(block, dst))
    }
}
