//! One text for every row.
ghost use Rattle.std.specs.Prelude.{◌≡◌, ◌<◌, ◌^◌, ◌∷◌, [], length, replicate, true, IfOk};
ghost use Rattle.vx_types.specs.TypeTree.{primitive_kind};
ghost use Rattle.vx_model.specs.Valid.{is_fitting};
ghost use Rattle.vx_model.specs.VarBin.{varbin_texts};
ghost use Rattle.vx_model.specs.VarBinView.{view_texts};
ghost use Rattle.vx_column.specs.Validity.{valid_of};
ghost use Rattle.vx_text.specs.Building.{AreTexts};

use crate::texts::Texts;
use std::alloc::Global;
use vx_bits::{Buffer, NoMemory};
use vx_column::{BinaryView, PType, TextKind, Validity, VarBinArray, VarBinViewArray};
use vx_shared::Shared;

/// These bytes as the one buffer of a column's views.
pub(crate) fn one_buffer(
    alloc: Global,
    bytes: &Buffer<u8>,
) -> Result<Shared<Vec<Buffer<u8>>>, NoMemory>
    ensures { IfOk result (λ buffers. buffers.items ≡ bytes.now ∷ []) }
{
    let mut buffers = Vec::with_capacity(alloc, 1)?;
    buffers.push(bytes.share())?;
    Ok(Shared::new(alloc, buffers)?)
}

// So many copies of one view.
fn copies(alloc: Global, view: BinaryView, len: usize) -> Result<Buffer<BinaryView>, NoMemory>
    ensures { IfOk result (λ views. views ≡ replicate len view) }
{
    Buffer::from_vec(alloc, vec![in alloc; view; len]?)
}

/// `len` rows of one text, which stands in one shared buffer, with their validity. Fails only with
/// `NoMemory`.
pub fn views_alike(
    alloc: Global,
    kind: TextKind,
    value: &Buffer<u8>,
    len: usize,
    validity: Validity,
) -> Result<VarBinViewArray, NoMemory>
    requires short { length value.now < 2 ^ 32 }
    requires fitting { is_fitting (valid_of validity) len ≡ true }
    ensures kind { IfOk result (λ a. a.kind ≡ kind) }
    ensures texts { IfOk result (λ a. (view_texts a).texts ≡ replicate len value.now) }
    ensures valid { IfOk result (λ a. a.valid ≡ valid_of validity) }
{
    let view = BinaryView::make_view(value.as_slice(), 0, 0);
    let views = copies(alloc, view, len)?;
    let buffers = one_buffer(alloc, value)?;
    Ok(VarBinViewArray::of(kind, views, buffers, validity))
}

/// `len` rows of one text, one after another with offsets of type `U64`, with their validity. Fails
/// only with `NoMemory`.
pub fn texts_alike(
    alloc: Global,
    kind: TextKind,
    value: &Buffer<u8>,
    len: usize,
    validity: Validity,
) -> Result<VarBinArray, NoMemory>
    requires { is_fitting (valid_of validity) len ≡ true }
    ensures kind { IfOk result (λ a. a.kind ≡ kind) }
    ensures offsets { IfOk result (λ a. a.offsets.kind ≡ primitive_kind PType.U64) }
    ensures texts { IfOk result (λ a. (varbin_texts a).texts ≡ replicate len value.now) }
    ensures valid { IfOk result (λ a. a.valid ≡ valid_of validity) }
{
    let texts = copied_texts(alloc, value.as_slice(), len)?;
    texts.finish(alloc, kind, validity)
}

// So many copies of one text.
fn copied_texts(alloc: Global, value: &[u8], len: usize) -> Result<Texts, NoMemory>
    ensures { IfOk result
        (λ t. AreTexts PType.U64 t.offsets t.bytes.items (replicate len value.now)) }
{
    let room = value.len().saturating_mul(len);
    let mut texts = Texts::with_room(alloc, PType::U64, len, room)?;
    for _copy in 0..len {
        texts.push(value)?;
    }
    Ok(texts)
}
