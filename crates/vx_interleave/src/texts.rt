//! Rows of text, gathered.
ghost use Rattle.std.specs.Prelude.{◌≡◌, ◌++◌, ◌<◌, ◌^◌, [], IfOk, OnOk, length, map, true, false};
ghost use Rattle.vx_types.specs.RowValue.{bytes};
ghost use Rattle.vx_types.specs.Text.{text_kind};
ghost use Rattle.vx_types.specs.declared.ptype.PType.TheVariants.{U64};
ghost use Rattle.vx_offsets.specs.Offsets.{lists_at};
ghost use Rattle.vx_model.specs.Valid.{is_fitting, nullability_by, stored_rows};
ghost use Rattle.vx_column.specs.Validity.{valid_of};
ghost use Rattle.vx_offsets.specs.Cut.{is_cut};
ghost use Rattle.vx_text.specs.Building.{AreTexts};
ghost use Rattle.vx_text.specs.OffsetList.{with_offset};
ghost use Rattle.vx_column.specs.Cell.{row_of};
ghost use Rattle.vx_interleave.specs.Rows.{AreCellsOf, IsCellOf, rows_in, shown_as, stored_as};
ghost use Rattle.vx_interleave.specs.Texts.{AreJoined};
ghost use Rattle.vx_model.specs.Plain.{is_lazy_layout};

use crate::numbers::push_number;
use crate::validity::validity_of;
use std::alloc::Global;
use vx_bits::{Buffer, NoMemory};
use vx_column::{Array, Cell, Nullability, PType, TextKind, Validity, VarBinArray};
use vx_text::Offsets;

// The bytes of a row; none of a null.
fn text_at<'a>(kind: TextKind, cell: Cell<'a>) -> &'a [u8]
    requires { IsCellOf (text_kind kind) cell }
    ensures { bytes result.now ≡ stored_as (text_kind kind) (row_of cell.entry) }
{
    // only the contract speaks of it
    let _ = kind;
    match cell {
        Cell::Null => &[],
        Cell::Bytes(bytes) => bytes,
        _ => unreachable!(),
    }
}

// Texts one after another, and the offsets that cut them.
#[derive(Drop)]
struct Joined {
    offsets: Offsets,
    bytes: Vec<u8>,
}

impl Joined {
    // No text yet.
    #[tactic(auto, using(vx_text::proofs::BuiltTexts::no_text_yet))]
    fn new(alloc: Global) -> Result<Joined, NoMemory>
        ensures { IfOk result (λ j. AreTexts U64 j.offsets j.bytes.items []) }
    {
        let mut offsets = Offsets::new(alloc, PType::U64);
        offsets.push(0)?;
        Ok(Joined {
            offsets,
            bytes: Vec::new(alloc),
        })
    }

    // Appends a text.
    fn push(&mut self, text: &[u8]) -> Result<(), NoMemory>
        ensures short { OnOk result (length self.new.bytes.items < 2 ^ 63) }
        ensures bytes { OnOk result (self.new.bytes.items ≡ self.old.bytes.items ++ text.now) }
        ensures offsets { OnOk result (self.new.offsets
            ≡ with_offset self.old.offsets (length self.new.bytes.items)) }
    {
        self.bytes.extend_from_slice(text)?;
        push_number(&mut self.offsets, self.bytes.len())
    }

    // The column of these texts, each null where the validity says no.
    fn into_array(
        self,
        alloc: Global,
        kind: TextKind,
        validity: Validity,
    ) -> Result<Array, NoMemory>
        requires cut { is_cut self.offsets.numbers (length self.bytes.items) ≡ true }
        requires fitting { is_fitting (valid_of validity) (length
            (lists_at self.offsets.numbers self.bytes.items)) ≡ true }
        ensures dtype { IfOk result (λ c. c.dtype ≡ record {
          kind = text_kind kind;
          nullability = nullability_by (valid_of validity);
        }) }
        ensures rows { IfOk result (λ c. c.rows ≡ stored_rows (valid_of validity)
            (map bytes (lists_at self.offsets.numbers self.bytes.items))) }
        ensures direct { IfOk result (λ a. is_lazy_layout a.layout ≡ false) }
    {
        let Joined { offsets, bytes } = self;
        let ends = offsets.into_primitive()?;
        let bytes = Buffer::from_vec(alloc, bytes)?;
        Ok(VarBinArray::of(kind, ends, bytes, validity).into_array())
    }
}

// The texts of the rows, one after another.
fn joined_texts(alloc: Global, kind: TextKind, cells: &[Cell<'_>]) -> Result<Joined, NoMemory>
    requires { AreCellsOf (text_kind kind) cells.now }
    ensures { IfOk result
        (λ j. AreJoined (text_kind kind) (rows_in cells.now) j.offsets j.bytes.items) }
{
    let mut joined = Joined::new(alloc)?;
    for cell in cells {
        joined.push(text_at(kind, *cell))?;
    }
    Ok(joined)
}

/// The rows as a column of texts.
pub(crate) fn gather_texts(
    alloc: Global,
    kind: TextKind,
    nullability: Nullability,
    cells: &[Cell<'_>],
) -> Result<Array, NoMemory>
    requires { AreCellsOf (text_kind kind) cells.now }
    ensures dtype { IfOk result
        (λ a. a.dtype ≡ record { kind = text_kind kind; nullability = nullability }) }
    ensures rows { IfOk result (λ a. a.rows ≡ map
        (shown_as (record { kind = text_kind kind; nullability = nullability }))
        (rows_in cells.now)) }
    ensures direct { IfOk result (λ a. is_lazy_layout a.layout ≡ false) }
{
    let validity = validity_of(alloc, nullability, cells)?;
    let texts = joined_texts(alloc, kind, cells)?;
    texts.into_array(alloc, kind, validity)
}
