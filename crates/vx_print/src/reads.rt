//! The line of the blocks that were read of a file.
ghost use Rattle.std.specs.Prelude.{◌≡◌, ◌++◌, IfOk, IsOk};
ghost use Rattle.vx_print.specs.Reads.{reads_text};

use crate::text::push_number;
use std::alloc::Global;
use vx_bits::NoMemory;

// Appends the line of these blocks.
fn push_reads(text: &mut Vec<u8>, blocks: &[usize]) -> Result<(), NoMemory>
    ensures { IsOk result → text.new.items ≡ text.old.items ++ reads_text blocks.now }
{
    text.extend_from_slice(b"reads:")?;
    for block in blocks {
        push_number(text, b" ", *block)?;
    }
    text.push(b'\n')?;
    Ok(())
}

/// The line of the blocks that were read of a file, in order: for each a blank and its number.
pub fn reads_line(alloc: Global, blocks: &[usize]) -> Result<Vec<u8>, NoMemory>
    ensures { IfOk result (λ line. line.items ≡ reads_text blocks.now) }
{
    let mut line = Vec::new(alloc);
    push_reads(&mut line, blocks)?;
    Ok(line)
}
