//! The rows that a document asks for, and what is asked for them.
ghost use Rattle.std.specs.Prelude.{◌≡◌, ◌+◌, ◌%◌, ◌≤◌, Some, length, map};
ghost use Rattle.vx_bits.specs.Records.{records_of, width_of};
ghost use Rattle.vx_types.specs.TypeTree.{type_width};
ghost use Rattle.vx_mask.specs.Policy.{sparse_limit_of};
ghost use Rattle.vx_chunked.specs.Asked.{chunks_touched};
ghost use Rattle.vx_steps.specs.Step.{step_value};
ghost use Rattle.vx_steps.specs.Walk.{walk};
ghost use Rattle.vx_steps.specs.Answer.{answer, answer_of};
ghost use Rattle.vx_select.specs.Chunks.{asked_by_walk, chunk_rows};
ghost use Rattle.vx_document.specs.Documents.{HoldsAll, IsWhole, document_value};
ghost use Rattle.vx_rows.specs.Program.{answer_to, asked_by};
ghost use Rattle.vx_rows.specs.Answering.{Answers};
ghost use Rattle.vx_rows.specs.declared.asked.Asked.TheVariants.{Nothing, Calls};

use crate::asked::Asked;
use std::alloc::Global;
use vx_bits::{Buffer, Records, match_each_record_width};
use vx_column::Array;
use vx_decoder::{FILTER_CHUNK_LEN, Logged, StoredChunks};
use vx_document::{Document, DocumentSource};
use vx_mask::Policy;
use vx_select::{ChunkShape, SelectError, Step, check_steps, select, select_chunked};

/// The rows that the steps pick, and what was asked for them.
#[derive(Drop)]
pub(crate) struct Answered {
    /// The rows.
    pub(crate) rows: Array,
    /// What was asked.
    pub(crate) asked: Asked,
}

fn answer_by_column(
    alloc: Global,
    column: &Array,
    steps: &[Step],
    policy: &Policy,
) -> Result<Answered, SelectError>
    ensures { Answers result (answer column.now (map step_value steps.now)) Nothing }
{
    let rows = select(alloc, column, steps, policy)?;
    Ok(Answered {
        rows,
        asked: Asked::Nothing,
    })
}

/// How many chunks the rows of the shape lie in.
fn chunk_count(shape: &ChunkShape) -> usize
    ensures { result ≡ chunks_touched shape.now.offset shape.now.len }
{
    let len = shape.len();
    if len == 0 {
        0
    } else {
        (shape.offset() + len).div_ceil(FILTER_CHUNK_LEN)
    }
}

/// The rows by a decoder of these values, and its calls. No memory runs out where a step is broken.
fn answer_by_calls<const W: usize>(
    alloc: Global,
    shape: &ChunkShape,
    values: &Buffer<[u8; W]>,
    steps: &[Step],
    policy: &Policy,
) -> Result<Answered, SelectError>
    requires width { type_width shape.now.dtype ≡ Some W }
    requires whole { length values.now % 1024 ≡ 0 }
    requires enough { shape.now.offset + shape.now.len ≤ length values.now }
    ensures { Answers result
        (answer_of shape.now.dtype (chunk_rows shape.now values.now) (map step_value steps.now))
        (Calls (asked_by_walk shape.now (sparse_limit_of policy.now W)
        (walk shape.now.len (map step_value steps.now)))) }
{
    check_steps(shape.len(), steps)?;
    let mut decoder = Logged::new(alloc, StoredChunks::new(values.share()), chunk_count(shape))?;
    let rows = select_chunked(alloc, &mut decoder, shape, steps, policy)?;
    Ok(Answered {
        rows,
        asked: Asked::Calls(decoder.into_log()),
    })
}

/// The rows by a decoder of these records, of any width, and its calls. No memory runs out where a
/// step is broken.
fn answer_by_chunks(
    alloc: Global,
    shape: &ChunkShape,
    records: &Records,
    steps: &[Step],
    policy: &Policy,
) -> Result<Answered, SelectError>
    requires { HoldsAll shape.now records.now }
    ensures { Answers result
        (answer_of shape.now.dtype (chunk_rows shape.now (records_of records.now))
        (map step_value steps.now))
        (Calls (asked_by_walk shape.now (sparse_limit_of policy.now (width_of records.now))
        (walk shape.now.len (map step_value steps.now)))) }
{
    match_each_record_width!(records, buffer => {
        answer_by_calls(alloc, shape, buffer, steps, policy)
    })
}

/// The rows that the document's steps pick, or its first broken step. Memory isn't wanting where a
/// step is broken.
pub(crate) fn answer_to(alloc: Global, document: &Document) -> Result<Answered, SelectError>
    requires { IsWhole document.now.source }
    ensures { Answers result
        (answer_to (document_value document.now).source (document_value document.now))
        (asked_by (document_value document.now).source (document_value document.now)) }
{
    let steps = document.steps.as_slice();
    match &document.source {
        DocumentSource::Column(column) => {
            answer_by_column(alloc, column, steps, &document.policy)
        }
        DocumentSource::Chunks(shape, records) => {
            answer_by_chunks(alloc, shape, records, steps, &document.policy)
        }
    }
}
