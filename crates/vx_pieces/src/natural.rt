//! The numbers of columns of unsigned integers.
ghost use Rattle.std.specs.Prelude.{◌≡◌, ◌<◌, length, pos, true, slice_index};
ghost use Rattle.vx_types.specs.PType.{number, width};
ghost use Rattle.vx_pieces.specs.Pieces.{is_unsigned, is_unsigned_type, naturals_of};

use vx_column::{Array, Cell, DType, Nullability, PType};

/// Whether a column's type is non-nullable and unsigned.
pub(crate) fn is_unsigned_column(array: &Array) -> bool
    ensures { result ≡ is_unsigned_type array.now.dtype }
{
    match array.dtype() {
        DType::Primitive(ptype, nullability) => match nullability {
            Nullability::NonNullable => is_unsigned(*ptype),
            Nullability::Nullable => false,
        },
        _ => false,
    }
}

// Whether the type is unsigned.
fn is_unsigned(ptype: PType) -> bool
    ensures { result ≡ is_unsigned ptype }
{
    match ptype {
        PType::U8 | PType::U16 | PType::U32 | PType::U64 => true,
        _ => false,
    }
}

/// The number that a record of such a type spells.
#[tactic(auto, using(crate::proofs::Naturals::spelled))]
pub(crate) fn natural(ptype: PType, bytes: &[u8]) -> usize
    requires unsigned { is_unsigned ptype ≡ true }
    requires width { length bytes.now ≡ width ptype }
    ensures { number ptype bytes.now ≡ pos result }
{
    ptype.number(bytes) as usize
}

/// The number in row `i` of a column of such a type, of any layout.
#[tactic(auto, using(crate::proofs::Naturals::naturals))]
pub(crate) fn natural_at(array: &Array, i: usize) -> usize
    requires unsigned { is_unsigned_type array.now.dtype ≡ true }
    requires row { i < length array.now.rows }
    ensures { result ≡ slice_index (naturals_of array.now) i }
{
    match array.cell_at(i) {
        Cell::Null | Cell::Bit(_) | Cell::List(_) | Cell::Fields(_) | Cell::Tagged(_) => {
            unreachable!()
        }
        Cell::Bytes(bytes) => match array.dtype() {
            DType::Primitive(ptype, _) => natural(*ptype, bytes),
            _ => unreachable!(),
        },
    }
}
