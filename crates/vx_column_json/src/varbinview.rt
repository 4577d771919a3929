//! Columns of layout `VarBinView`.
ghost use Rattle.std.specs.Option.{option_map};
ghost use Rattle.serde_json.specs.View.{view};
ghost use Rattle.vx_column.specs.Validity.{valid_of};
ghost use Rattle.vx_json.specs.Meaning.{Gives};
ghost use Rattle.vx_column_json.specs.VarBinView.{views_made, views_by_buffers, views_array, views_by};

use crate::made::made;
use crate::validity::{validity_alone, validity_beside};
use serde_json::Value;
use std::alloc::Global;
use vx_bits::Buffer;
use vx_column::{Array, BinaryView, TextKind, Validity, VarBinViewArray};
use vx_json::{
    DocError, byte_lists_in, is_closed, list_member, placed_texts, text_kind_named, text_member,
    views_in,
};
use vx_shared::Shared;

/// The column of these views. `Malformed` where one is none of a text, or the validity can't be
/// theirs.
#[tactic(auto, unfolding(crate::specs::Made::made))]
fn views_made(
    alloc: Global,
    kind: TextKind,
    views: Buffer<BinaryView>,
    buffers: Vec<Buffer<u8>>,
    validity: Validity,
) -> Result<VarBinViewArray, DocError>
    ensures { Gives (λ a. a) result
        (views_made kind views buffers.items (valid_of validity)) }
{
    let shared = Shared::new(alloc, buffers)?;
    made(VarBinViewArray::try_new(kind, views, shared, validity))
}

#[tactic(auto, unfolding(crate::specs::VarBinView::views_by_buffers))]
fn views_by_buffers(
    alloc: Global,
    kind: TextKind,
    stated: Option<Validity>,
    value: &Value,
) -> Result<VarBinViewArray, DocError>
    ensures { Gives (λ a. a) result (views_by_buffers kind
        (option_map valid_of stated) (view value.now)) }
{
    let views = views_in(alloc, list_member(value, "views")?)?;
    let buffers = byte_lists_in(alloc, list_member(value, "buffers")?)?;
    let views = Buffer::from_vec(alloc, views)?;
    views_made(alloc, kind, views, buffers, validity_alone(stated))
}

/// What [`views_by`] gives, as that layout: a listed text of more than twelve bytes stands in
/// buffer 0, of which a column tells nothing.
#[tactic(auto, unfolding(crate::specs::VarBinView::views_array, crate::specs::VarBinView::views_by_items))]
pub(crate) fn views_array(
    alloc: Global,
    value: &Value,
    stated: Option<Validity>,
) -> Result<VarBinViewArray, DocError>
    ensures { Gives (λ a. a) result
        (views_array (view value.now) (option_map valid_of stated)) }
{
    let kind = text_kind_named(text_member(value, "type")?)?;
    if is_closed(value, &["layout", "type", "values", "validity"]) {
        let items = list_member(value, "values")?;
        let validity = validity_beside(alloc, stated, items)?;
        let texts = placed_texts(alloc, kind, items)?;
        let mut buffers = Vec::with_capacity(alloc, 1)?;
        buffers.push_reserved(texts.bytes);
        views_made(alloc, kind, texts.views, buffers, validity)
    } else if is_closed(value, &["layout", "type", "views", "buffers", "validity"]) {
        views_by_buffers(alloc, kind, stated, value)
    } else {
        Err(DocError::Malformed)
    }
}

/// The column of layout `VarBinView` that the value means, by the validity that it states.
/// `Malformed` where there is no such kind of text, an item is none of it or null, a view is none
/// of a text, the validity can't be the column's, or there is another member.
#[tactic(auto, unfolding(crate::specs::VarBinView::views_by))]
pub fn views_by(alloc: Global, value: &Value, stated: Option<Validity>) -> Result<Array, DocError>
    ensures { Gives (λ c. c) result (views_by (view value.now) (option_map valid_of stated)) }
{
    Ok(views_array(alloc, value, stated)?.into_array())
}
