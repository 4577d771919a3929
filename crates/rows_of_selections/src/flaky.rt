//! A block reader that isn't the library's: its first call fails.
use vx_bits::Failed;
use vx_file::BlockReader;

/// Another reader, of which the first call fails.
#[derive(Drop)]
pub(crate) struct Flaky<R: BlockReader + Drop> {
    pub(crate) inner: R,
    pub(crate) faults: u64,
}

impl<R: BlockReader + Drop> BlockReader for Flaky<R> {
    ghost use Rattle.std.specs.Prelude.{◌+◌};

    ghost blocks = { λ s. R.blocks s.inner };

    ghost reads = { λ s. R.reads s.inner };

    ghost spare = { λ s. R.spare s.inner };

    ghost faults = { λ s. R.faults s.inner + s.faults };

    fn read_block(&mut self, block: usize, dst: &mut [u8; 8201]) -> Result<usize, Failed> {
        let read = self.inner.read_block(block, dst);
        if self.faults > 0 {
            return read;
        }
        self.faults = 1;
        Err(Failed)
    }
}
