//! Views of texts: a list of them, or those of a list of texts.
ghost use Rattle.std.specs.Prelude.{◌≡◌, ◌++◌, ◌+◌, ◌≤◌, nat_le, IfOk, Some, None, length, take, drop, if◌then◌else◌, option_and_then};
ghost use Rattle.serde_json.specs.View.{view, items_view};
ghost use Rattle.vx_types.specs.Text.{view_of};
ghost use Rattle.vx_json.specs.Meaning.{Gives};
ghost use Rattle.vx_json.specs.Items.{each};
ghost use Rattle.vx_json.specs.Texts.{text_or_empty};
ghost use Rattle.vx_json.specs.Values.{hex_record};
ghost use Rattle.vx_json.specs.Views.{inlined_bytes, inline_view, ref_view, view_in, outside, views_and_buffer};

use crate::error::DocError;
use crate::items::{ReadItem, read_each};
use crate::members::{is_closed, member, text_in, text_member};
use crate::texts::append_text;
use crate::wholes::number_member;
use hex::FromHex;
use serde_json::Value;
use std::alloc::Global;
use vx_bits::Buffer;
use vx_types::{BinaryView, TextKind};

/// The greatest number that a view can tell.
const GREATEST_U32: usize = 4_294_967_295;

/// The view of the bytes that the digits spell. `Malformed` where there are more than twelve, or
/// the text has others than pairs of digits.
#[tactic(auto, unfolding(crate::specs::Views::inlined_bytes))]
fn view_spelled(digits: &str) -> Result<BinaryView, DocError>
    ensures { Gives (λ v. v) result
        (option_and_then (λ b. Some (view_of b 0 0)) (inlined_bytes digits.now)) }
{
    if digits.len() > 24 {
        return Err(DocError::Malformed);
    }
    let len = digits.len() / 2;
    let mut bytes = [0; 12];
    match hex::decode_to_slice(digits, &mut bytes[..len]) {
        Ok(()) => Ok(BinaryView::make_view(&bytes[..len], 0, 0)),
        Err(_) => Err(DocError::Malformed),
    }
}

#[tactic(auto, unfolding(crate::specs::Views::inline_view))]
fn inline_view(value: &Value) -> Result<BinaryView, DocError>
    ensures { Gives (λ v. v) result (inline_view (view value.now)) }
{
    view_spelled(text_member(value, "inline")?)
}

#[tactic(auto, unfolding(crate::specs::Values::hex_record))]
fn prefix_in(value: &Value) -> Result<[u8; 4], DocError>
    ensures { Gives (λ b. b) result (hex_record 4 (view value.now)) }
{
    match <[u8; 4] as FromHex>::from_hex(text_in(value)?) {
        Ok(prefix) => Ok(prefix),
        Err(_) => Err(DocError::Malformed),
    }
}

#[tactic(auto, unfolding(crate::specs::Views::ref_view))]
fn ref_view(value: &Value) -> Result<BinaryView, DocError>
    ensures { Gives (λ v. v) result (ref_view (view value.now)) }
{
    let len = number_member(GREATEST_U32, value, "len")? as u32;
    let prefix = prefix_in(member(value, "prefix")?)?;
    let buffer = number_member(GREATEST_U32, value, "buffer")? as u32;
    let offset = number_member(GREATEST_U32, value, "offset")? as u32;
    Ok(BinaryView::Ref {
        len,
        prefix,
        buffer,
        offset,
    })
}

#[derive(Clone, Copy)]
struct Views;

impl ReadItem for Views {
    ghost use Rattle.vx_types.specs.declared.text.BinaryView.{BinaryView};
    ghost use Rattle.vx_json.specs.Views.{view_in};

    type Out = BinaryView;

    ghost Seen = { BinaryView };

    ghost seen = { λ v. v };

    ghost meaning = { λ _ d. view_in d };

    #[tactic(auto, unfolding(crate::specs::Views::view_in))]
    fn read(&self, _alloc: Global, value: &Value) -> Result<BinaryView, DocError> {
        if is_closed(value, &["inline"]) {
            inline_view(value)
        } else if is_closed(value, &["len", "prefix", "buffer", "offset"]) {
            ref_view(value)
        } else {
            Err(DocError::Malformed)
        }
    }
}

/// A list of views. `Malformed` where an item is none.
pub fn views_in(alloc: Global, items: &Vec<Value>) -> Result<Vec<BinaryView>, DocError>
    ensures { Gives (λ v. v.items) result (each view_in (items_view items.now.items)) }
{
    read_each(alloc, &Views, items)
}

/// Views of texts.
#[derive(Drop)]
pub struct PlacedTexts {
    /// A view of each.
    pub views: Buffer<BinaryView>,
    /// The bytes of the texts of more than twelve bytes, one behind another: buffer 0.
    pub bytes: Buffer<u8>,
}

/// The view of the text from `start` on. What the view has in itself is taken off again.
/// `Malformed` where the text stands too far back for a view.
fn place(bytes: &mut Vec<u8>, start: usize) -> Result<BinaryView, DocError>
    requires within { start ≤ length bytes.old.items }
    requires small { start ≤ 4294967295 }
    ensures view { Gives (λ v. v) result
        (if nat_le (start + length (outside (drop start bytes.old.items))) 4294967295
        then Some (view_of (drop start bytes.old.items) 0 start)
        else None) }
    ensures bytes { IfOk result (λ _. bytes.new.items
        ≡ take start bytes.old.items ++ outside (drop start bytes.old.items)) }
{
    let len = bytes.len() - start;
    if len > 12 && bytes.len() > GREATEST_U32 {
        return Err(DocError::Malformed);
    }
    let view = BinaryView::make_view(&bytes[start..], 0, start as u32);
    if len <= 12 {
        bytes.truncate(start);
    }
    Ok(view)
}

/// Views of the texts of a list, an empty one for each null. `Malformed` where an item is neither,
/// or buffer 0 would have more bytes than a view can tell.
pub fn placed_texts(
    alloc: Global,
    kind: TextKind,
    items: &Vec<Value>,
) -> Result<PlacedTexts, DocError>
    ensures { Gives (λ t. (t.views, t.bytes)) result
        (option_and_then views_and_buffer
        (each (text_or_empty kind) (items_view items.now.items))) }
{
    let mut bytes = Vec::new(alloc);
    let mut views = Vec::with_capacity(alloc, items.len())?;
    for item in items {
        let start = bytes.len();
        append_text(kind, &mut bytes, item)?;
        views.push_reserved(place(&mut bytes, start)?);
    }
    Ok(PlacedTexts {
        views: Buffer::from_vec(alloc, views)?,
        bytes: Buffer::from_vec(alloc, bytes)?,
    })
}
