//! Writing the document of a file.

use std::alloc::Global;
use std::io::Write;
use vx_file::{BLOCK_LEN, BlockReader, Blocks, SteadyBlocks};

/// Blocks, and how many there are.
#[derive(Drop)]
pub(crate) struct File {
    /// The blocks.
    pub(crate) blocks: Blocks,
    /// The number of blocks.
    pub(crate) count: usize,
}

/// Writes a document of these blocks and steps.
pub(crate) fn write_document<W: Write>(
    alloc: Global,
    out: &mut W,
    file: File,
    steps: &str,
) -> anyhow::Result<()> {
    let mut reader = SteadyBlocks::new(file.blocks);
    let mut buffer = [0; BLOCK_LEN];
    out.write_all(b"{\"file\":[")?;
    for block in 0..file.count {
        if block > 0 {
            out.write_all(b",")?;
        }
        if let Ok(len) = reader.read_block(block, &mut buffer) {
            let digits = hex::encode(alloc, &buffer[..len])?;
            write!(out, "\"{digits}\"")?;
        }
    }
    write!(out, "],\"steps\":{steps}}}\n")?;
    Ok(())
}
