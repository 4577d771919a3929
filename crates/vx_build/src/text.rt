//! Columns of text.
ghost use Rattle.std.specs.Prelude.{◌≡◌, ◌++◌, ◌<◌, ◌^◌, [], IfOk, OnOk, length, map, true};
ghost use Rattle.vx_types.specs.RowValue.{bytes};
ghost use Rattle.vx_types.specs.TypeTree.{utf8_kind};
ghost use Rattle.vx_types.specs.declared.nullability.Nullability.TheVariants.{NonNullable, Nullable};
ghost use Rattle.vx_types.specs.declared.ptype.PType.TheVariants.{I32};
ghost use Rattle.vx_offsets.specs.Offsets.{lists_at};
ghost use Rattle.vx_model.specs.Valid.{is_fitting, nullability_by, stored_rows};
ghost use Rattle.vx_column.specs.Validity.{valid_of};
ghost use Rattle.vx_offsets.specs.Cut.{is_cut};
ghost use Rattle.vx_text.specs.Building.{AreTexts};
ghost use Rattle.vx_text.specs.OffsetList.{with_offset};
ghost use Rattle.vx_build.specs.Rows.{bytes_or_none, row_or_null};

use crate::bits::presence;
use std::alloc::Global;
use vx_bits::{Buffer, NoMemory};
use vx_column::{Array, PType, TextKind, Validity, VarBinArray};
use vx_text::Offsets;

// Texts one after another, and the offsets that cut them.
#[derive(Drop)]
struct Joined {
    offsets: Offsets,
    text: Vec<u8>,
}

impl Joined {
    // Appends a text.
    fn push(&mut self, text: &str) -> Result<(), NoMemory>
        ensures short { OnOk result (length self.new.text.items < 2 ^ 63) }
        ensures text { OnOk result (self.new.text.items ≡ self.old.text.items ++ text.now) }
        ensures offsets { OnOk result (self.new.offsets
            ≡ with_offset self.old.offsets (length self.new.text.items)) }
    {
        self.text.extend_from_slice(text.as_bytes())?;
        let end = self.text.len();
        if end > isize::MAX as usize {
            return Err(NoMemory);
        }
        self.offsets.push(end)
    }

    // No text yet.
    #[tactic(auto, using(vx_text::proofs::BuiltTexts::no_text_yet))]
    fn new(alloc: Global) -> Result<Joined, NoMemory>
        ensures { IfOk result (λ j. AreTexts I32 j.offsets j.text.items []) }
    {
        let mut offsets = Offsets::new(alloc, PType::I32);
        offsets.push(0)?;
        Ok(Joined {
            offsets,
            text: Vec::new(alloc),
        })
    }

    // The column of these texts, each null where the validity says no.
    fn into_array(self, alloc: Global, validity: Validity) -> Result<Array, NoMemory>
        requires cut { is_cut self.offsets.numbers (length self.text.items) ≡ true }
        requires fitting { is_fitting (valid_of validity)
            (length (lists_at self.offsets.numbers self.text.items)) ≡ true }
        ensures dtype { IfOk result (λ c. c.dtype
            ≡ record { kind = utf8_kind; nullability = nullability_by (valid_of validity) }) }
        ensures rows { IfOk result (λ c. c.rows ≡ stored_rows (valid_of validity)
            (map bytes (lists_at self.offsets.numbers self.text.items))) }
    {
        let Joined { offsets, text } = self;
        let ends = offsets.into_primitive()?;
        let bytes = Buffer::from_vec(alloc, text)?;
        Ok(VarBinArray::of(TextKind::Utf8, ends, bytes, validity).into_array())
    }
}

// The text, and an empty one where there is none.
fn text_or_empty<'a>(text: &Option<&'a str>) -> &'a str
    ensures { result.now ≡ bytes_or_none (λ text. text.now) text.now }
{
    match text {
        Some(text) => text,
        None => "",
    }
}

// These texts, one after another. Fails only with `NoMemory`.
fn join_texts(alloc: Global, values: &[&str]) -> Result<Joined, NoMemory>
    ensures { IfOk result
        (λ j. AreTexts I32 j.offsets j.text.items (map (λ text. text.now) values.now)) }
{
    let mut joined = Joined::new(alloc)?;
    for text in values {
        joined.push(text)?;
    }
    Ok(joined)
}

// These texts, and an empty one where there is none. Fails only with `NoMemory`.
fn join_texts_or_empty(alloc: Global, values: &[Option<&str>]) -> Result<Joined, NoMemory>
    ensures { IfOk result (λ j. AreTexts I32 j.offsets j.text.items
        (map (bytes_or_none (λ text. text.now)) values.now)) }
{
    let mut joined = Joined::new(alloc)?;
    for text in values {
        joined.push(text_or_empty(text))?;
    }
    Ok(joined)
}

/// The column of these texts, none of them null. Fails only with `NoMemory`.
pub fn texts(alloc: Global, values: &[&str]) -> Result<Array, NoMemory>
    ensures dtype { IfOk result (λ c. c.dtype
        ≡ record { kind = utf8_kind; nullability = NonNullable }) }
    ensures rows { IfOk result (λ c. c.rows ≡ map (λ text. bytes text.now) values.now) }
{
    join_texts(alloc, values)?.into_array(alloc, Validity::NonNullable)
}

/// The column of these texts, null where there is none. Fails only with `NoMemory`.
pub fn nullable_texts(alloc: Global, values: &[Option<&str>]) -> Result<Array, NoMemory>
    ensures dtype { IfOk result (λ c. c.dtype
        ≡ record { kind = utf8_kind; nullability = Nullable }) }
    ensures rows { IfOk result
        (λ c. c.rows ≡ map (row_or_null (λ text. bytes text.now)) values.now) }
{
    let validity = presence(alloc, values)?;
    join_texts_or_empty(alloc, values)?.into_array(alloc, validity)
}
