//! Lists of bits, an item a bit, and which items of a list are valid.
ghost use Rattle.std.specs.Prelude.{◌≡◌, ◌≤◌, IfOk, Some, length, option_map};
ghost use Rattle.serde_json.specs.Find.{as_bool};
ghost use Rattle.serde_json.specs.View.{view, items_view};
ghost use Rattle.vx_bits.specs.Words.{word_bits};
ghost use Rattle.vx_json.specs.Meaning.{Gives, Leaves, with_read};
ghost use Rattle.vx_json.specs.Items.{each};
ghost use Rattle.vx_json.specs.Bools.{bool_or_clear, has_null, presence_of};

use crate::error::DocError;
use crate::members::bool_in;
use crate::offsets::{builder_at, finished_at};
use serde_json::Value;
use std::alloc::Global;
use vx_bits::{BitBuffer, BitBuilder};

/// How an item of a list is read as a bit.
trait ReadBit {
    ghost use Rattle.std.specs.Prelude.{Bool, Option};
    ghost use Rattle.serde_json.specs.Data.{Data};

    // the bit that an item means, if it means any
    ghost bit: { Self → Data → Option Bool };

    /// Reads an item. `Malformed` where it means no bit.
    fn read(&self, value: &Value) -> Result<bool, DocError>
        ensures { Gives (λ b. b) result (bit self.now (view value.now)) };
}

/// The bits that a word's items mean, the first one lowest: from the last item back.
#[inline(always)]
fn read_word<R: ReadBit>(reader: &R, items: &[Value]) -> Result<u64, DocError>
    requires { length items.now ≤ 64 }
    ensures { Gives (λ w. word_bits w (length items.now)) result
        (each (R.bit reader.now) (items_view items.now)) }
{
    let mut word = 0;
    for passed in 0..items.len() {
        let bit = reader.read(&items[items.len() - 1 - passed])?;
        word = 2 * word + u64::from(bit);
    }
    Ok(word)
}

/// Appends the bits that the items mean, 64 at a time. `Malformed` where one means none.
#[inline(always)]
fn append_items<R: ReadBit>(
    reader: &R,
    bits: &mut BitBuilder,
    items: &[Value],
) -> Result<(), DocError>
    ensures { Leaves result bits.new
        (with_read bits.old (each (R.bit reader.now) (items_view items.now))) }
{
    for i in 0..items.len() / 64 {
        bits.append_word(read_word(reader, &items[64 * i..64 * i + 64])?, 64)?;
    }
    let rest = &items[items.len() - items.len() % 64..];
    bits.append_word(read_word(reader, rest)?, rest.len())?;
    Ok(())
}

/// The bits that the items mean, the first one at that offset in its byte. `Malformed` where one
/// means none.
#[inline(always)]
fn read_bits<R: ReadBit>(
    alloc: Global,
    reader: &R,
    items: &[Value],
    offset: usize,
) -> Result<BitBuffer, DocError>
    requires { offset ≤ 7 }
    ensures bits { Gives (λ b. b.bits) result (each (R.bit reader.now) (items_view items.now)) }
    ensures offset { IfOk result (λ b. b.offset ≡ offset) }
{
    let mut bits = builder_at(alloc, offset, offset + items.len())?;
    append_items(reader, &mut bits, items)?;
    Ok(finished_at(bits, offset)?)
}

#[derive(Clone, Copy)]
struct Bools;

impl ReadBit for Bools {
    ghost use Rattle.serde_json.specs.Find.{as_bool};

    ghost bit = { λ _ d. as_bool d };

    #[inline(always)]
    fn read(&self, value: &Value) -> Result<bool, DocError> {
        bool_in(value)
    }
}

#[derive(Clone, Copy)]
struct BoolsOrNulls;

impl ReadBit for BoolsOrNulls {
    ghost use Rattle.vx_json.specs.Bools.{bool_or_clear};

    ghost bit = { λ _ d. bool_or_clear d };

    #[inline(always)]
    #[tactic(auto, unfolding(crate::specs::Bools::bool_or_clear))]
    fn read(&self, value: &Value) -> Result<bool, DocError> {
        match value {
            Value::Bool(bit) => Ok(*bit),
            Value::Null => Ok(false),
            _ => Err(DocError::Malformed),
        }
    }
}

#[derive(Clone, Copy)]
struct Presence;

impl ReadBit for Presence {
    ghost use Rattle.std.specs.Prelude.{Some};
    ghost use Rattle.vx_json.specs.Bools.{is_there};

    ghost bit = { λ _ d. Some (is_there d) };

    #[inline(always)]
    fn read(&self, value: &Value) -> Result<bool, DocError> {
        Ok(!value.is_null())
    }
}

/// The bits of a list of bools. `Malformed` where an item is none.
pub fn bools_of(alloc: Global, items: &Vec<Value>) -> Result<BitBuffer, DocError>
    ensures { Gives (λ b. b.bits) result (each as_bool (items_view items.now.items)) }
{
    read_bits(alloc, &Bools, items, 0)
}

/// The bits of a list of bools and nulls, each null a clear bit, the first one at that offset in
/// its byte. `Malformed` where an item is neither.
pub fn bools_or_nulls_of(
    alloc: Global,
    items: &Vec<Value>,
    offset: usize,
) -> Result<BitBuffer, DocError>
    requires { offset ≤ 7 }
    ensures bits { Gives (λ b. b.bits) result (each bool_or_clear (items_view items.now.items)) }
    ensures offset { IfOk result (λ b. b.offset ≡ offset) }
{
    read_bits(alloc, &BoolsOrNulls, items, offset)
}

/// Whether an item is null.
pub fn has_null(items: &Vec<Value>) -> bool
    ensures { result ≡ has_null (items_view items.now.items) }
{
    for item in items {
        if item.is_null() {
            return true;
        }
    }
    false
}

/// A bit for each item, set where the item isn't null; `None` exactly where no item is null. Fails
/// only with `NoMemory`.
pub fn presence_of(alloc: Global, items: &Vec<Value>) -> Result<Option<BitBuffer>, DocError>
    ensures { Gives (λ o. option_map (λ b. b.bits) o) result
        (Some (presence_of (items_view items.now.items))) }
{
    if !has_null(items) {
        return Ok(None);
    }
    Ok(Some(read_bits(alloc, &Presence, items, 0)?))
}
