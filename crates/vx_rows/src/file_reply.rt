//! What is answered to a document of a file.
ghost use Rattle.std.specs.Prelude.{◌≡◌, ◌≤◌, ◌∷◌, [], IfSome, Some, map};
ghost use Rattle.vx_file.specs.Blocks.{block_at, reads_left, told_reads};
ghost use Rattle.vx_file.specs.Stated.{shape_in};
ghost use Rattle.vx_steps.specs.Step.{step_value};
ghost use Rattle.vx_rows.specs.Files.{IsUnread, file_value};
ghost use Rattle.vx_rows.specs.Program.{file_answer, of_file, of_shape};
ghost use Rattle.vx_rows.specs.Reply.{IsHonest, Replies};

use crate::asked::Asked;
use crate::file_blocks::FileBlocks;
use crate::file_document::FileDocument;
use crate::reply::{Reply, reply_with};
use std::alloc::Global;
use vx_file::{FileError, FileShape, open_file, select_file};
use vx_mask::Policy;
use vx_select::Step;

// What comes of steps over a file of this shape, whose header was read. Memory isn't wanting where
// a step is broken.
fn reply_over(
    alloc: Global,
    mut blocks: FileBlocks,
    shape: &FileShape,
    steps: &[Step],
    policy: &Policy,
) -> Reply
    requires opened { told_reads blocks ≡ Some (0 ∷ []) }
    requires room { 16384 ≤ reads_left blocks }
    ensures reply { Replies result (of_shape blocks.blocks (map step_value steps.now) shape.now) }
    ensures honest { IsHonest result
        (file_answer blocks.blocks shape.now (map step_value steps.now)) }
{
    // at most 2 ^ 24 rows, of one of four widths
    let _ = shape.len();
    let _ = shape.ptype();
    match select_file(alloc, &mut blocks, shape, steps, policy) {
        Ok(rows) => reply_with(alloc, &rows, Asked::Reads(blocks.into_reads())),
        Err(error) => match error {
            FileError::Broken { step, cause } => Reply::Broken { step, cause },
            FileError::NoMemory => Reply::NoMemory,
            FileError::Damaged { .. } => Reply::Malformed,
            FileError::ReadFault | FileError::BadHeader => unreachable!(),
        },
    }
}

/// What comes of a document of a file. Memory isn't wanting where a step is broken.
pub(crate) fn reply_to_file(alloc: Global, document: FileDocument) -> Reply
    requires { IsUnread document }
    ensures reply { Replies result (of_file (Some (file_value document))) }
    ensures honest { IfSome (shape_in (block_at document.blocks.blocks 0)) (λ s.
        IsHonest result (file_answer document.blocks.blocks s (map step_value document.steps))) }
{
    let FileDocument {
        mut blocks,
        steps,
        policy,
    } = document;
    match open_file(&mut blocks) {
        Ok(shape) => {
            // at most 2 ^ 24 rows, of an unsigned type
            let _ = shape.len();
            let _ = shape.ptype();
            reply_over(alloc, blocks, &shape, steps.as_slice(), &policy)
        }
        Err(error) => match error {
            FileError::BadHeader => Reply::Malformed,
            _ => unreachable!(),
        },
    }
}
