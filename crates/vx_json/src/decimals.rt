//! Decimal types.
ghost use Rattle.std.specs.Prelude.{◌≡◌};
ghost use Rattle.serde_json.specs.View.{view};
ghost use Rattle.vx_json.specs.Meaning.{Gives, OnlyMalformed};
ghost use Rattle.vx_json.specs.Decimals.{signed_byte, decimal_with, decimal_of};

use crate::error::DocError;
use crate::members::member;
use crate::wholes::number_member;
use serde_json::Value;
use vx_types::{DecimalDType, PType};

#[tactic(auto, unfolding(crate::specs::Decimals::signed_byte))]
fn signed_byte(value: &Value) -> Result<i8, DocError>
    ensures value { Gives (λ z. z) result (signed_byte (view value.now)) }
    ensures malformed { OnlyMalformed result }
{
    let Some(number) = value.as_number() else {
        return Err(DocError::Malformed);
    };
    match number.as_i128() {
        Some(z) => if PType::I8.is_in_range(z) {
            Ok(z as i8)
        } else {
            Err(DocError::Malformed)
        },
        None => Err(DocError::Malformed),
    }
}

fn decimal_with(precision: u8, scale: i8, width: u8) -> Result<DecimalDType, DocError>
    ensures value { Gives (λ d. d) result (decimal_with precision scale width) }
    ensures malformed { OnlyMalformed result }
{
    match DecimalDType::try_new(precision, scale, width) {
        Ok(decimal) => Ok(decimal),
        Err(_) => Err(DocError::Malformed),
    }
}

/// The type that the members `precision`, `scale` and `width` say. `Malformed` where one is
/// missing or no whole number, or where there is no such type.
#[tactic(auto, unfolding(crate::specs::Decimals::decimal_of))]
pub fn decimal_of(value: &Value) -> Result<DecimalDType, DocError>
    ensures value { Gives (λ d. d) result (decimal_of (view value.now)) }
    ensures malformed { OnlyMalformed result }
{
    let precision = number_member(255, value, "precision")?;
    let scale = signed_byte(member(value, "scale")?)?;
    let width = number_member(255, value, "width")?;
    decimal_with(precision as u8, scale, width as u8)
}
