//! Reading a document of a file from a JSON value.
ghost use Rattle.std.specs.Prelude.{◌≡◌, ◌≤◌, [], Some, take, IfOk, IfErr};
ghost use Rattle.serde_json.specs.View.{view, items_view};
ghost use Rattle.vx_file.specs.Blocks.{new_reader};
ghost use Rattle.vx_json.specs.Items.{each};
ghost use Rattle.vx_json.specs.Meaning.{Fails, Gives};
ghost use Rattle.vx_rows.specs.FileDocument.{block_of, bytes_in, file_by, file_document_of};
ghost use Rattle.vx_rows.specs.Files.{IsUnread, file_value};

use crate::file_blocks::FileBlocks;
use serde_json::Value;
use std::alloc::Global;
use vx_document::{DocError, StepList, policy_found, steps_of};
use vx_file::{BLOCK_LEN, Blocks};
use vx_json::{is_closed, list_member, member, text_in};
use vx_mask::Policy;

/// What a document of a file asks for: these steps over these blocks, by this policy.
#[derive(Drop)]
pub(crate) struct FileDocument {
    /// The blocks.
    pub(crate) blocks: FileBlocks,
    /// The steps, in order.
    pub(crate) steps: StepList,
    /// The policy.
    pub(crate) policy: Policy,
}

// Puts the bytes that digits spell to the front of `dst`, and gives their number.
#[tactic(auto, unfolding(crate::specs::FileDocument::bytes_in))]
fn put_bytes(text: &str, dst: &mut [u8; 8201]) -> Result<usize, DocError>
    ensures within { IfOk result (λ n. n ≤ 8201) }
    ensures bytes { IfOk result (λ n. bytes_in text.now ≡ Some (take n dst.new)) }
    ensures fails { IfErr result (λ e. Fails e (bytes_in text.now)) }
{
    let len = text.len() / 2;
    if len > BLOCK_LEN {
        return Err(DocError::Malformed);
    }
    match hex::decode_to_slice(text, &mut dst[..len]) {
        Ok(()) => Ok(len),
        Err(_) => Err(DocError::Malformed),
    }
}

// Puts the bytes that the digits of a block's value spell to the front of `dst`, and gives their
// number.
#[tactic(auto, unfolding(crate::specs::FileDocument::block_of))]
fn put_block(value: &Value, dst: &mut [u8; 8201]) -> Result<usize, DocError>
    ensures within { IfOk result (λ n. n ≤ 8201) }
    ensures bytes { IfOk result (λ n. block_of (view value.now) ≡ Some (take n dst.new)) }
    ensures fails { IfErr result (λ e. Fails e (block_of (view value.now))) }
{
    put_bytes(text_in(value)?, dst)
}

// The blocks of a list.
fn blocks_in(alloc: Global, items: &Vec<Value>) -> Result<Blocks, DocError>
    ensures { Gives (λ b. b) result (each block_of (items_view items.now.items)) }
{
    let mut blocks = Blocks::new(alloc);
    let mut buffer = [0; BLOCK_LEN];
    for item in items {
        let len = put_block(item, &mut buffer)?;
        blocks.push(&buffer[..len])?;
    }
    Ok(blocks)
}

// The document of a file, by its members, whatever others there are.
#[tactic(auto, unfolding(crate::specs::FileDocument::file_by))]
fn file_by(alloc: Global, value: &Value) -> Result<FileDocument, DocError>
    ensures document { Gives file_value result (file_by (view value.now)) }
    ensures unread { IfOk result IsUnread }
{
    let policy = policy_found(value.get("policy"))?;
    let steps = steps_of(alloc, member(value, "steps")?)?;
    let blocks = blocks_in(alloc, list_member(value, "file")?)?;
    Ok(FileDocument {
        blocks: FileBlocks::new(alloc, blocks)?,
        steps,
        policy,
    })
}

/// Reads a document of a file, of which no block was read yet. `Malformed` exactly where the value
/// has no meaning as one, but that `NoMemory` may come in place of any answer.
#[tactic(auto, unfolding(crate::specs::FileDocument::file_document_of))]
pub(crate) fn file_document(alloc: Global, value: &Value) -> Result<FileDocument, DocError>
    ensures document { Gives file_value result (file_document_of (view value.now)) }
    ensures unread { IfOk result IsUnread }
{
    if is_closed(value, &["file", "steps", "policy"]) {
        file_by(alloc, value)
    } else {
        Err(DocError::Malformed)
    }
}
