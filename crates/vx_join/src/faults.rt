//! Why two tables can't be joined by pairs of keys.
ghost use Rattle.std.specs.Prelude.{◌≡◌, ◌<◌, length, not};
ghost use Rattle.std.specs.List.{position_from};
ghost use Rattle.vx_types.specs.DType.{type_of};
ghost use Rattle.vx_join.specs.Join.{are_key_types, has_key_types, is_there};
ghost use Rattle.vx_join.specs.Keys.{AreThere};

use vx_column::DType;
use vx_table::Table;

// Whether both columns of a pair are there.
fn is_there(left: &Table, right: &Table, key: (usize, usize)) -> bool
    ensures { result ≡ is_there left.now right.now key }
{
    key.0 < left.columns().len() && key.1 < right.columns().len()
}

/// The first pair that names a column that doesn't exist.
pub(crate) fn first_missing(left: &Table, right: &Table, keys: &[(usize, usize)]) -> Option<usize>
    ensures { result ≡ position_from (λ k. not (is_there left.now right.now k)) 0 keys.now }
{
    for (pair, key) in keys.iter().enumerate() {
        if !is_there(left, right, *key) {
            return Some(pair);
        }
    }
    None
}

// Whether both types are flat, and alike but for nullability.
fn are_key_types(left: &DType, right: &DType) -> bool
    ensures { result ≡ are_key_types (type_of left.now) (type_of right.now) }
{
    match (left, right) {
        (DType::Null, DType::Null) | (DType::Bool(_), DType::Bool(_)) => true,
        (DType::Primitive(p, _), DType::Primitive(q, _)) => p == q,
        (DType::Decimal(d, _), DType::Decimal(e, _)) => {
            d.precision() == e.precision() && d.scale() == e.scale() && d.width() == e.width()
        }
        _ => false,
    }
}

// Whether the types of a pair's columns are those of keys.
fn has_key_types(left: &Table, right: &Table, key: (usize, usize)) -> bool
    requires left { key.0 < length left.now.columns }
    requires right { key.1 < length right.now.columns }
    ensures { result ≡ has_key_types left.now right.now key }
{
    are_key_types(
        left.columns().get(key.0).dtype(),
        right.columns().get(key.1).dtype(),
    )
}

/// The first pair whose columns' types aren't those of keys.
pub(crate) fn first_of_other_types(
    left: &Table,
    right: &Table,
    keys: &[(usize, usize)],
) -> Option<usize>
    requires { AreThere left.now right.now keys.now }
    ensures { result ≡ position_from (λ k. not (has_key_types left.now right.now k)) 0 keys.now }
{
    for (pair, key) in keys.iter().enumerate() {
        if !has_key_types(left, right, *key) {
            return Some(pair);
        }
    }
    None
}
