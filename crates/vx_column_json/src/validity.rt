//! Validities, but for those that the document states as columns.
ghost use Rattle.std.specs.Prelude.{◌≡◌};
ghost use Rattle.std.specs.Option.{option_map};
ghost use Rattle.serde_json.specs.View.{items_view};
ghost use Rattle.vx_column.specs.Validity.{valid_of};
ghost use Rattle.vx_json.specs.Meaning.{Gives};
ghost use Rattle.vx_column_json.specs.Validity.{validity_named, validity_listed, validity_alone, validity_beside};

use serde_json::Value;
use std::alloc::Global;
use vx_column::Validity;
use vx_json::{DocError, bools_of, has_null, presence_of};

/// The constant form of this name. `Malformed` where there is none.
#[tactic(auto, unfolding(crate::specs::Validity::validity_named))]
pub fn validity_named(text: &str) -> Result<Validity, DocError>
    ensures { Gives valid_of result (validity_named text.now) }
{
    match text {
        "NonNullable" => Ok(Validity::NonNullable),
        "AllValid" => Ok(Validity::AllValid),
        "AllInvalid" => Ok(Validity::AllInvalid),
        _ => Err(DocError::Malformed),
    }
}

/// The validity that a list of bools means. `Malformed` where an item is none.
pub fn validity_listed(alloc: Global, items: &Vec<Value>) -> Result<Validity, DocError>
    ensures { Gives valid_of result (validity_listed (items_view items.now.items)) }
{
    Ok(Validity::from_bits(alloc, bools_of(alloc, items)?)?)
}

/// The one that the document states, if it states one.
pub fn validity_alone(stated: Option<Validity>) -> Validity
    ensures { valid_of result ≡ validity_alone (option_map valid_of stated) }
{
    match stated {
        Some(validity) => validity,
        None => Validity::NonNullable,
    }
}

/// The validity of listed values: the one that the document states beside them, or that by which of
/// them are there. `Malformed` where one is stated and a value is null.
#[tactic(auto, unfolding(crate::specs::Validity::validity_beside))]
pub(crate) fn validity_beside(
    alloc: Global,
    stated: Option<Validity>,
    items: &Vec<Value>,
) -> Result<Validity, DocError>
    ensures { Gives valid_of result
        (validity_beside (option_map valid_of stated) (items_view items.now.items)) }
{
    match stated {
        Some(validity) => if has_null(items) {
            Err(DocError::Malformed)
        } else {
            Ok(validity)
        },
        None => match presence_of(alloc, items)? {
            Some(bits) => Ok(Validity::from_bits(alloc, bits)?),
            None => Ok(Validity::NonNullable),
        },
    }
}
