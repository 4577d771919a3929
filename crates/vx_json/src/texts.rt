//! Texts: a text of JSON, or a text of two hexadecimal digits a byte.
ghost use Rattle.std.specs.Prelude.{◌≡◌, option_and_then};
ghost use Rattle.std.specs.Result.{result_ok};
ghost use Rattle.serde_json.specs.View.{view, items_view};
ghost use Rattle.hex.specs.Hex.{decode_of};
ghost use Rattle.vx_types.specs.Fields.{names_of as names_seen};
ghost use Rattle.vx_json.specs.Meaning.{Gives, Leaves, OnlyMalformed, with_read};
ghost use Rattle.vx_json.specs.Items.{each};
ghost use Rattle.vx_json.specs.Texts.{text_kind_named, text_spelled, bytes_of, text_or_empty, strung, names_of};

use crate::error::DocError;
use crate::items::{ReadItem, read_each};
use crate::members::{items_in, text_in};
use serde_json::Value;
use std::alloc::Global;
use std::rc::RcStr;
use vx_bits::Buffer;
use vx_types::{TextKind, record_of};

/// The greatest offset of 32 bits with a sign.
const GREATEST_OFFSET: usize = 2_147_483_647;

/// The kind of text of this name. `Malformed` where there is none.
#[tactic(auto, unfolding(crate::specs::Texts::text_kind_named))]
pub fn text_kind_named(text: &str) -> Result<TextKind, DocError>
    ensures value { Gives (λ k. k) result (text_kind_named text.now) }
    ensures malformed { OnlyMalformed result }
{
    match text {
        "utf8" => Ok(TextKind::Utf8),
        "binary" => Ok(TextKind::Binary),
        _ => Err(DocError::Malformed),
    }
}

/// Appends the bytes that the digits spell. `Malformed` where they are no pairs of digits.
fn append_digits(bytes: &mut Vec<u8>, digits: &str) -> Result<(), DocError>
    ensures { Leaves result bytes.new.items
        (with_read bytes.old.items (result_ok (decode_of digits.now))) }
{
    let start = bytes.len();
    bytes.resize(start + digits.len() / 2, 0)?;
    match hex::decode_to_slice(digits, &mut bytes[start..]) {
        Ok(()) => Ok(()),
        Err(_) => Err(DocError::Malformed),
    }
}

/// Appends the bytes of a text as it is spelled in that kind.
fn append_spelled(kind: TextKind, bytes: &mut Vec<u8>, text: &str) -> Result<(), DocError>
    ensures { Leaves result bytes.new.items
        (with_read bytes.old.items (text_spelled kind text.now)) }
{
    match kind {
        TextKind::Utf8 => Ok(bytes.extend_from_slice(text.as_bytes())?),
        TextKind::Binary => append_digits(bytes, text),
    }
}

/// Appends the bytes of a text, and none for a null. `Malformed` where the value is neither.
#[tactic(auto, unfolding(crate::specs::Texts::text_or_empty))]
pub(crate) fn append_text(
    kind: TextKind,
    bytes: &mut Vec<u8>,
    value: &Value,
) -> Result<(), DocError>
    ensures { Leaves result bytes.new.items
        (with_read bytes.old.items (text_or_empty kind (view value.now))) }
{
    match value {
        Value::String(text) => append_spelled(kind, bytes, text.as_str()),
        Value::Null => Ok(()),
        _ => Err(DocError::Malformed),
    }
}

/// The bytes of one text, and none for a null. `Malformed` where the value is neither.
pub fn text_of(alloc: Global, kind: TextKind, value: &Value) -> Result<Buffer<u8>, DocError>
    ensures { Gives (λ b. b) result (text_or_empty kind (view value.now)) }
{
    let mut bytes = Vec::new(alloc);
    append_text(kind, &mut bytes, value)?;
    Ok(Buffer::from_vec(alloc, bytes)?)
}

/// The bytes that hexadecimal digits spell. `Malformed` where the value is no text of these.
#[tactic(auto, unfolding(crate::specs::Texts::bytes_of))]
pub fn bytes_of(alloc: Global, value: &Value) -> Result<Buffer<u8>, DocError>
    ensures { Gives (λ b. b) result (bytes_of (view value.now)) }
{
    let mut bytes = Vec::new(alloc);
    append_digits(&mut bytes, text_in(value)?)?;
    Ok(Buffer::from_vec(alloc, bytes)?)
}

#[derive(Clone, Copy)]
struct ByteLists;

impl ReadItem for ByteLists {
    ghost use Rattle.std.specs.Prelude.{ℕ, List};
    ghost use Rattle.vx_json.specs.Texts.{bytes_of};

    type Out = Buffer<u8>;

    ghost Seen = { List ℕ };

    ghost seen = { λ b. b };

    ghost meaning = { λ _ d. bytes_of d };

    fn read(&self, alloc: Global, value: &Value) -> Result<Buffer<u8>, DocError> {
        bytes_of(alloc, value)
    }
}

/// A list of bytes in hexadecimal digits. `Malformed` where an item is no text of these.
pub fn byte_lists_in(alloc: Global, items: &Vec<Value>) -> Result<Vec<Buffer<u8>>, DocError>
    ensures { Gives (λ v. v.items) result (each bytes_of (items_view items.now.items)) }
{
    read_each(alloc, &ByteLists, items)
}

#[derive(Clone, Copy)]
struct Names;

impl ReadItem for Names {
    ghost use Rattle.std.specs.Prelude.{ℕ, List};
    ghost use Rattle.std.specs.Rc.{rc_str_bytes};
    ghost use Rattle.serde_json.specs.Find.{as_str};

    type Out = RcStr;

    ghost Seen = { List ℕ };

    ghost seen = { λ s. rc_str_bytes s };

    ghost meaning = { λ _ d. as_str d };

    fn read(&self, alloc: Global, value: &Value) -> Result<RcStr, DocError> {
        Ok(RcStr::from_str(alloc, text_in(value)?)?)
    }
}

/// A list of texts. `Malformed` where the value is none.
#[tactic(auto, unfolding(crate::specs::Texts::names_of))]
pub fn names_of(alloc: Global, value: &Value) -> Result<Vec<RcStr>, DocError>
    ensures { Gives (λ v. names_seen v.items) result (names_of (view value.now)) }
{
    read_each(alloc, &Names, items_in(value)?)
}

/// Texts one behind another.
#[derive(Drop)]
pub struct StrungTexts {
    /// Where the first begins and where each ends, as records of `i32`.
    pub offsets: Buffer<[u8; 4]>,
    /// The texts' bytes.
    pub bytes: Buffer<u8>,
}

/// The texts of a list, an empty one for each null. `Malformed` where an item is neither, or they
/// have more bytes than an offset can tell.
pub fn strung_texts(
    alloc: Global,
    kind: TextKind,
    items: &Vec<Value>,
) -> Result<StrungTexts, DocError>
    ensures { Gives (λ t. (t.offsets, t.bytes)) result
        (option_and_then strung (each (text_or_empty kind) (items_view items.now.items))) }
{
    let mut bytes = Vec::new(alloc);
    let mut offsets = Vec::with_capacity(alloc, items.len() + 1)?;
    offsets.push_reserved([0; 4]);
    for item in items {
        append_text(kind, &mut bytes, item)?;
        offsets.push_reserved(record_of::<4>(bytes.len() as i128));
    }
    if bytes.len() > GREATEST_OFFSET {
        return Err(DocError::Malformed);
    }
    Ok(StrungTexts {
        offsets: Buffer::from_vec(alloc, offsets)?,
        bytes: Buffer::from_vec(alloc, bytes)?,
    })
}
