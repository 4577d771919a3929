//! Texts that are put out one after another.
ghost use Rattle.std.specs.Prelude.{◌≡◌, ◌++◌, ◌<◌, ◌^◌, [], length, true, IfOk, OnOk};
ghost use Rattle.vx_types.specs.PType.{is_int};
ghost use Rattle.vx_types.specs.TypeTree.{primitive_kind};
ghost use Rattle.vx_offsets.specs.Offsets.{lists_at};
ghost use Rattle.vx_model.specs.Valid.{is_fitting};
ghost use Rattle.vx_model.specs.VarBin.{varbin_texts};
ghost use Rattle.vx_column.specs.Validity.{valid_of};
ghost use Rattle.vx_offsets.specs.Cut.{is_cut};
ghost use Rattle.vx_text.specs.Building.{AreTexts};
ghost use Rattle.vx_text.specs.OffsetList.{with_offset};

use crate::offsets::Offsets;
use std::alloc::Global;
use vx_bits::{Buffer, NoMemory};
use vx_column::{PType, TextKind, Validity, VarBinArray};

/// The texts so far: the bytes, and the offsets that cut them.
#[derive(Drop)]
pub(crate) struct Texts {
    pub(crate) offsets: Offsets,
    pub(crate) bytes: Vec<u8>,
}

impl Texts {
    /// No text yet, with room for `texts` of `room` bytes together, and with offsets of at least 32
    /// bits that are as signed as the type.
    #[tactic(auto, using(crate::proofs::BuiltTexts::no_text_yet))]
    pub(crate) fn with_room(
        alloc: Global,
        ptype: PType,
        texts: usize,
        room: usize,
    ) -> Result<Texts, NoMemory>
        requires { is_int ptype ≡ true }
        ensures { IfOk result (λ t. AreTexts ptype t.offsets t.bytes.items []) }
    {
        let mut offsets = Offsets::with_room(alloc, ptype, texts.saturating_add(1))?;
        offsets.push(0)?;
        Ok(Texts {
            offsets,
            bytes: Vec::with_capacity(alloc, room)?,
        })
    }

    /// Appends a text. Fails only with `NoMemory`.
    pub(crate) fn push(&mut self, text: &[u8]) -> Result<(), NoMemory>
        ensures short { OnOk result (length self.new.bytes.items < 2 ^ 63) }
        ensures bytes { OnOk result (self.new.bytes.items ≡ self.old.bytes.items ++ text.now) }
        ensures offsets { OnOk result (self.new.offsets
            ≡ with_offset self.old.offsets (length self.new.bytes.items)) }
    {
        self.bytes.extend_from_slice(text)?;
        let end = self.bytes.len();
        if end > isize::MAX as usize {
            return Err(NoMemory);
        }
        self.offsets.push(end)
    }

    /// The column of these texts. Fails only with `NoMemory`.
    pub(crate) fn finish(
        self,
        alloc: Global,
        kind: TextKind,
        validity: Validity,
    ) -> Result<VarBinArray, NoMemory>
        requires cut { is_cut self.offsets.numbers (length self.bytes.items) ≡ true }
        requires fitting { is_fitting (valid_of validity)
            (length (lists_at self.offsets.numbers self.bytes.items)) ≡ true }
        ensures kind { IfOk result (λ a. a.kind ≡ kind) }
        ensures offsets { IfOk result (λ a.
            a.offsets.kind ≡ primitive_kind self.offsets.ptype) }
        ensures bytes { IfOk result (λ a. a.bytes ≡ self.bytes.items) }
        ensures texts { IfOk result (λ a. (varbin_texts a).texts
            ≡ lists_at self.offsets.numbers self.bytes.items) }
        ensures valid { IfOk result (λ a. a.valid ≡ valid_of validity) }
    {
        let Texts { offsets, bytes } = self;
        let cut = offsets.into_primitive()?;
        let shared = Buffer::from_vec(alloc, bytes)?;
        Ok(VarBinArray::of(kind, cut, shared, validity))
    }
}
