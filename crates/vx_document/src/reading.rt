//! Reading a document from a JSON value.
ghost use Rattle.std.specs.Prelude.{◌≡◌, IfOk, Some, map};
ghost use Rattle.serde_json.specs.View.{view};
ghost use Rattle.vx_json.specs.Meaning.{Gives};
ghost use Rattle.vx_document.specs.Documents.{IsWhole, document_value, source_value};
ghost use Rattle.vx_document.specs.Reading.{document_of, masks_of, source_of};
ghost use Rattle.vx_document.specs.Steps.{kept_by};

use crate::chunks::chunks_of;
use crate::columns::column_member;
use crate::documents::{Document, DocumentSource};
use crate::policies::policy_found;
use crate::steps::steps_of;
use serde_json::Value;
use std::alloc::Global;
use vx_json::{DocError, is_closed, member};

/// Where the rows are: in a column, or behind a decoder. `Malformed` where the object has neither,
/// or both.
#[tactic(auto, unfolding(crate::specs::Reading::source_of))]
fn source_of(alloc: Global, value: &Value) -> Result<DocumentSource, DocError>
    ensures source { Gives source_value result (source_of (view value.now)) }
    ensures whole { IfOk result IsWhole }
{
    if is_closed(value, &["column", "steps", "policy"]) {
        let column = column_member(alloc, value, "column")?;
        Ok(DocumentSource::Column(column))
    } else if is_closed(value, &["chunks", "steps", "policy"]) {
        chunks_of(alloc, member(value, "chunks")?)
    } else {
        Err(DocError::Malformed)
    }
}

/// Reads a document. `Malformed` exactly where the value has no meaning as one, but that `NoMemory`
/// may come in place of any answer. The values of chunks are whole chunks of records of the type's
/// width, and at least as many as the shape has. A filter's mask keeps the positions or the runs
/// that the document lists.
#[tactic(auto, unfolding(crate::specs::Reading::document_of, crate::specs::Reading::masks_of))]
pub fn document(alloc: Global, value: &Value) -> Result<Document, DocError>
    ensures document { Gives document_value result (document_of (view value.now)) }
    ensures whole { IfOk result (λ d. IsWhole d.source) }
    ensures kept { IfOk result (λ d. masks_of (view value.now) ≡ Some (map kept_by d.steps)) }
{
    let policy = policy_found(value.get("policy"))?;
    let steps = steps_of(alloc, member(value, "steps")?)?;
    let source = source_of(alloc, value)?;
    Ok(Document {
        source,
        steps,
        policy,
    })
}
