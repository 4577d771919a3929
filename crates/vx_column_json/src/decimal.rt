//! Columns of layout `Decimal`.
ghost use Rattle.std.specs.Prelude.{◌≡◌};
ghost use Rattle.std.specs.Option.{option_map};
ghost use Rattle.serde_json.specs.View.{view};
ghost use Rattle.vx_bits.specs.Records.{records_of, width_of};
ghost use Rattle.vx_column.specs.Validity.{valid_of};
ghost use Rattle.vx_json.specs.Meaning.{Gives};
ghost use Rattle.vx_column_json.specs.Decimal.{decimal_made, decimal_by_values, decimal_by};

use crate::made::made;
use crate::validity::validity_beside;
use serde_json::Value;
use std::alloc::Global;
use vx_bits::Records;
use vx_column::{Array, DecimalArray, DecimalDType, Validity};
use vx_json::{DocError, decimal_of, hex_values_of, is_closed, list_member};

/// The column of these records. `Malformed` where the validity can't be theirs.
#[tactic(auto, unfolding(crate::specs::Made::made))]
fn decimal_made(
    decimal: DecimalDType,
    values: Records,
    validity: Validity,
) -> Result<Array, DocError>
    requires { width_of values ≡ decimal.width }
    ensures { Gives (λ c. c) result
        (decimal_made decimal (records_of values) (valid_of validity)) }
{
    Ok(made(DecimalArray::try_new(decimal, values, validity))?.into_array())
}

/// The column of the records and nulls that the object lists.
#[tactic(auto, unfolding(crate::specs::Decimal::decimal_by_values))]
fn decimal_by_values(
    alloc: Global,
    stated: Option<Validity>,
    value: &Value,
) -> Result<Array, DocError>
    ensures { Gives (λ c. c) result
        (decimal_by_values (option_map valid_of stated) (view value.now)) }
{
    let decimal = decimal_of(value)?;
    let items = list_member(value, "values")?;
    let validity = validity_beside(alloc, stated, items)?;
    let values = hex_values_of(alloc, decimal.width() as usize, items)?;
    decimal_made(decimal, values, validity)
}

/// The members that an object of this layout may have.
const MEMBERS: [&str; 6] = [
    "layout",
    "precision",
    "scale",
    "width",
    "values",
    "validity",
];

/// The column of layout `Decimal` that the value means, by the validity that it states. `Malformed`
/// where there is no such type, an item is no record of its width or null, the validity can't be
/// the column's, or there is another member.
#[tactic(auto, unfolding(crate::specs::Decimal::decimal_by))]
pub fn decimal_by(alloc: Global, value: &Value, stated: Option<Validity>) -> Result<Array, DocError>
    ensures { Gives (λ c. c) result (decimal_by (view value.now) (option_map valid_of stated)) }
{
    if is_closed(value, &MEMBERS) {
        decimal_by_values(alloc, stated, value)
    } else {
        Err(DocError::Malformed)
    }
}
