//! Takes from a lazy filter that are better made from its materialized rows.
ghost use Rattle.std.specs.Prelude.{◌≡◌};
ghost use Rattle.vx_types.specs.DType.{type_of};
ghost use Rattle.vx_dispatch.specs.Materialized.{is_big_take, is_materialized_by, is_whole_take};

use vx_column::DType;
use vx_mask::PolicyFields;

// Whether a take has at least as many indices as a column of many rows has rows.
fn is_whole_take(fields: &PolicyFields, rows: usize, indices: usize) -> bool
    ensures { result ≡ is_whole_take fields.now rows indices }
{
    rows >= fields.big_filtered_len && indices >= rows
}

// Whether a take has many indices, and at least so many times as many as rows.
fn is_big_take(fields: &PolicyFields, rows: usize, indices: usize) -> bool
    ensures { result ≡ is_big_take fields.now rows indices }
{
    let many = fields.big_take_ratio as u128 * rows as u128;
    indices >= fields.big_take_len && indices as u128 >= many
}

/// Whether a take of so many indices from a lazy filter of this type, of which so many rows are
/// left, is better made from its materialized rows: bools always; others where the indices are at
/// least as many as the rows, and these at least `big_filtered_len`; numbers also where the indices
/// are at least `big_take_len` and at least `big_take_ratio` times the rows.
pub fn is_materialized(dtype: &DType, rows: usize, indices: usize, fields: &PolicyFields) -> bool
    ensures { result ≡ is_materialized_by fields.now (type_of dtype.now).kind rows indices }
{
    match dtype {
        DType::Bool(_) => true,
        DType::Primitive(..) | DType::Decimal(..) => {
            is_whole_take(fields, rows, indices) || is_big_take(fields, rows, indices)
        }
        _ => is_whole_take(fields, rows, indices),
    }
}
