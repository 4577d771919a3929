//! One text for every row, stored row by row.
ghost use Rattle.std.specs.Prelude.{◌≡◌, map, replicate, None, true, false, IfOk};
ghost use Rattle.vx_types.specs.DType.{type_of};
ghost use Rattle.vx_types.specs.RowValue.{null, bytes};
ghost use Rattle.vx_types.specs.Scalar.{is_text_kind, scalar_row};
ghost use Rattle.vx_types.specs.Text.{text_kind};
ghost use Rattle.vx_types.specs.TypeTree.{with_nullability};
ghost use Rattle.vx_model.specs.Plain.{is_lazy_layout};
ghost use Rattle.vx_model.specs.Valid.{all_invalid, is_fitting, nullability_by, present_bits, shown_rows, stored_rows};
ghost use Rattle.vx_column.specs.Validity.{valid_of};
ghost use Rattle.vx_stored.specs.Scalars.{bytes_or_zeros, text_layout};
ghost use Rattle.vx_stored.specs.Texts.{copies_column, HasWideOffsets};

use std::alloc::Global;
use vx_bits::{Buffer, NoMemory};
use vx_column::{
    Array, DType, Scalar, ScalarValue, TextKind, Validity, VarBinArray, VarBinViewArray,
};
use vx_text::{texts_alike, views_alike};

/// Copies of one text.
#[derive(Drop)]
pub enum TextCopies {
    /// Views of a text whose length fits a view.
    Views(VarBinViewArray),
    /// A longer text, again and again, cut by offsets.
    Texts(VarBinArray),
}

impl TextCopies {
    /// The copies as a column.
    pub fn into_array(self) -> Array
        ensures { result ≡ copies_column self }
    {
        match self {
            TextCopies::Views(views) => views.into_array(),
            TextCopies::Texts(texts) => texts.into_array(),
        }
    }
}

// The value's text; an empty one for a null.
fn text_or_none(alloc: Global, value: &ScalarValue) -> Result<Buffer<u8>, NoMemory>
    ensures { IfOk result (λ b. b ≡ bytes_or_zeros 0 (scalar_row value.now)) }
{
    match value {
        ScalarValue::Bytes(bytes) => Ok(bytes.share()),
        _ => Buffer::from_vec(alloc, Vec::new(alloc)),
    }
}

// `len` copies of the value's text, of this kind with this validity: views of one text, where its
// length fits a view.
fn copy_texts(
    alloc: Global,
    kind: TextKind,
    value: &ScalarValue,
    len: usize,
    validity: Validity,
) -> Result<TextCopies, NoMemory>
    requires { is_fitting (valid_of validity) len ≡ true }
    ensures rows { IfOk result (λ t. (copies_column t).rows ≡ stored_rows (valid_of validity)
        (map bytes (replicate len (bytes_or_zeros 0 (scalar_row value.now))))) }
    ensures dtype { IfOk result (λ t. (copies_column t).dtype
        ≡ record { kind = text_kind kind; nullability = nullability_by (valid_of validity) }) }
    ensures direct { IfOk result (λ t. is_lazy_layout (copies_column t).layout ≡ false) }
    ensures form { IfOk result (λ t. (copies_column t).dense ≡ None) }
    ensures layout { IfOk result
        (λ t. (copies_column t).layout ≡ text_layout (scalar_row value.now)) }
    ensures offsets { IfOk result HasWideOffsets }
{
    let text = text_or_none(alloc, value)?;
    if text.len() <= u32::MAX as usize {
        let views = views_alike(alloc, kind, &text, len, validity)?;
        return Ok(TextCopies::Views(views));
    }
    let texts = texts_alike(alloc, kind, &text, len, validity)?;
    Ok(TextCopies::Texts(texts))
}

// Of which kind the texts of this type are.
fn kind_of_texts(dtype: &DType) -> TextKind
    requires { is_text_kind (type_of dtype.now).kind ≡ true }
    ensures { text_kind result ≡ (type_of dtype.now).kind }
{
    match dtype {
        DType::Utf8(_) => TextKind::Utf8,
        DType::Binary(_) => TextKind::Binary,
        _ => unreachable!(),
    }
}

/// `len` rows of one text, null where the validity says no, stored row by row: views of it, where
/// its length fits a view, else one text after another with offsets of type `U64`. Fails only with
/// `NoMemory`.
pub(crate) fn store_texts(
    alloc: Global,
    scalar: &Scalar,
    len: usize,
    validity: Validity,
) -> Result<TextCopies, NoMemory>
    requires text { is_text_kind scalar.now.dtype.kind ≡ true }
    requires fitting { is_fitting (valid_of validity) len ≡ true }
    requires null { scalar.now.row ≡ null → valid_of validity ≡ all_invalid }
    ensures rows { IfOk result (λ t. (copies_column t).rows
        ≡ shown_rows (present_bits (valid_of validity) len) (replicate len scalar.now.row)) }
    ensures dtype { IfOk result (λ t. (copies_column t).dtype
        ≡ with_nullability scalar.now.dtype (nullability_by (valid_of validity))) }
    ensures direct { IfOk result (λ t. is_lazy_layout (copies_column t).layout ≡ false) }
    ensures form { IfOk result (λ t. (copies_column t).dense ≡ None) }
    ensures layout { IfOk result (λ t. (copies_column t).layout ≡ text_layout scalar.now.row) }
    ensures offsets { IfOk result HasWideOffsets }
{
    let kind = kind_of_texts(scalar.dtype());
    copy_texts(alloc, kind, scalar.value(), len, validity)
}
