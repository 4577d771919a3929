//! What the blocks of a file are read from.
ghost use Rattle.std.specs.Prelude.{◌≡◌, ℕ, ◌+◌, ◌<◌, ◌≤◌, List, [], ◌∷◌, Option, take, IfOk, OnErr, IfSome};
ghost use Rattle.vx_bits.specs.WordReader.{then_told};
ghost use Rattle.vx_io.specs.Bytes.{Rose};
ghost use Rattle.vx_file.specs.Blocks.{block_at};

use vx_bits::Failed;

/// The greatest number of bytes of a block.
pub const BLOCK_LEN: usize = 8201;

/// What blocks are read from, each of at most 8201 bytes.
pub trait BlockReader {
    // the blocks, where they are known
    ghost blocks: { Self → Option (List (List ℕ)) };

    // the numbers of the blocks that were asked for, where they are recorded
    ghost reads: { Self → Option (List ℕ) };

    // how many more reads are recorded
    ghost spare: { Self → ℕ };

    // How many reads have failed. It never falls, and stands still at its greatest value.
    ghost faults: { Self → ℕ };

    /// Puts the bytes of a block to the front of `dst`, and answers their number. A block past the
    /// last one has none.
    ///
    /// After a failure `dst` may hold anything.
    fn read_block(&mut self, block: usize, dst: &mut [u8; 8201]) -> Result<usize, Failed>
        ensures within { IfOk result (λ n. n ≤ 8201) }
        ensures value { IfOk result (λ n.
            IfSome (blocks self.old) (λ all. take n dst.new ≡ block_at all block)) }
        ensures same { blocks self.new ≡ blocks self.old }

        // It tells the read where there is room, also that of a failed call.
        ensures told { 1 ≤ spare self.old
            → reads self.new ≡ then_told (reads self.old) (block ∷ []) }
        ensures cost { spare self.old ≤ spare self.new + 1 }

        ensures cause { OnErr result (Rose (faults self.old) (faults self.new)) }
        ensures never_falls { faults self.old ≤ faults self.new };
}
