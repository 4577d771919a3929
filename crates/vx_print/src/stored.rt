//! What a row is stored as, whatever extensions its type is.
ghost use Rattle.std.specs.Prelude.{◌≡◌, ◌≤◌, ◌++◌, IsOk};
ghost use Rattle.vx_types.specs.DType.{type_of};
ghost use Rattle.vx_types.specs.Fields.{names_of};
ghost use Rattle.vx_model.specs.Extension.{storage_type};
ghost use Rattle.vx_column.specs.Cell.{AreBytesOf};
ghost use Rattle.vx_print.specs.Text.{bytes_text, field_names, row_text};

use crate::cells::push_record;
use crate::row::ROOM;
use crate::texts::push_bytes;
use std::rc::RcStr;
use vx_bits::NoMemory;
use vx_column::{Array, DType};
use vx_plain::ReadLayout;
use vx_quote::push_digits;

/// The column that stores the rows of this one, below whatever extensions it is. Its rows have the
/// same text.
#[tactic(auto, using(vx_model::proofs::ExtensionSteps::extension_rows, crate::proofs::Extensions::extensions))]
pub(crate) fn storage_of(column: &Array) -> &Array
    ensures rows { result.now.rows ≡ column.now.rows }
    ensures text { row_text result.now.dtype ≡ row_text column.now.dtype }
    ensures nested { result.now.depth ≤ column.now.depth }
{
    match column.as_extension() {
        Some(extension) => storage_of(extension.storage()),
        None => column,
    }
}

/// Appends bytes that are a row of this type. Fails only with `NoMemory`, also where the text would
/// grow past its bound.
#[tactic(auto, using(crate::proofs::Widths::decimal_short))]
pub(crate) fn push_stored(
    text: &mut Vec<u8>,
    dst: &mut [u8; ROOM],
    dtype: &DType,
    bytes: &[u8],
) -> Result<(), NoMemory>
    requires { AreBytesOf (storage_type (type_of dtype.now)) bytes.now }
    ensures { IsOk result → text.new.items
        ≡ text.old.items ++ bytes_text (type_of dtype.now).kind bytes.now }
{
    match dtype {
        DType::Primitive(ptype, _) => push_record(text, dst, *ptype, bytes),
        DType::Decimal(decimal, _) => {
            let width = decimal.width();
            prove!(width <= 32);
            push_digits(text, bytes)
        }
        DType::Utf8(_) | DType::Binary(_) => push_bytes(text, dtype, bytes),
        DType::Extension(ext, _) => push_stored(text, dst, ext.storage(), bytes),
        _ => unreachable!(),
    }
}

/// The names of the fields of a row of this type.
pub(crate) fn names_in(dtype: &DType) -> &[RcStr]
    ensures { names_of result.now ≡ field_names (type_of dtype.now).kind }
{
    match dtype {
        DType::Struct(fields, _) => fields.names(),
        DType::Extension(ext, _) => names_in(ext.storage()),
        _ => &[],
    }
}
