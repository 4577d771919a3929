//! Decimal types.
ghost use Rattle.std.specs.Prelude.{◌≡◌, None};
ghost use Rattle.vx_bits.specs.Results.{ok_unless};
ghost use Rattle.vx_types.specs.Decimal.{decimal_fault, is_width, least_width};

use crate::error::ColumnError;
use std::marker::Model;

/// The type of decimal numbers: Vortex's `DecimalDType`, with the stored width beside it.
#[derive(Debug, Clone, Copy, PartialEq, Eq)]
pub struct DecimalDType {
    precision: u8,
    scale: i8,
    width: u8,
}

impl Model for DecimalDType {
    ghost use Rattle.std.specs.Prelude.{◌≡◌, None};
    ghost use Rattle.vx_types.specs.Decimal.{DecimalValue, decimal_fault};

    ghost Value = { DecimalValue };

    ghost view = { λ d. record { precision = d.precision; scale = d.scale; width = d.width } };

    ghost invariant = { λ d. decimal_fault d.precision d.scale d.width ≡ None };

    ghost inverse = { λ v. record { precision = v.precision; scale = v.scale; width = v.width } };
}

// Whether records are of this width.
fn is_width(width: u8) -> bool
    ensures { result ≡ is_width width }
{
    match width {
        1 | 2 | 4 | 8 | 16 | 32 => true,
        _ => false,
    }
}

// The fewest bytes that hold every number of so many digits.
fn least_width(precision: u8) -> u8
    ensures { result ≡ least_width precision }
{
    match precision {
        0..=2 => 1,
        3..=4 => 2,
        5..=9 => 4,
        10..=18 => 8,
        19..=38 => 16,
        _ => 32,
    }
}

impl DecimalDType {
    /// The type of numbers of `precision` digits, `scale` of them behind the point, stored in
    /// `width` bytes.
    ///
    /// `WrongType` exactly where the precision isn't 1 to 76 or the scale isn't -76 to 76. Else
    /// `WrongWidth` exactly where the width isn't 1, 2, 4, 8, 16 or 32, or has too few bytes for
    /// so many digits.
    pub fn try_new(precision: u8, scale: i8, width: u8) -> Result<DecimalDType, ColumnError>
        ensures { result ≡ ok_unless (decimal_fault precision scale width)
            (record { precision = precision; scale = scale; width = width }) }
    {
        if precision < 1 || precision > 76 || scale < -76 || scale > 76 {
            return Err(ColumnError::WrongType);
        }
        if !is_width(width) {
            return Err(ColumnError::WrongWidth);
        }
        if width < least_width(precision) {
            return Err(ColumnError::WrongWidth);
        }
        Ok(DecimalDType {
            precision,
            scale,
            width,
        })
    }

    /// How many digits a number has at most, 1 to 76.
    pub fn precision(&self) -> u8
        ensures { result ≡ self.now.precision }
    {
        self.precision
    }

    /// How many of the digits are behind the point, -76 to 76.
    pub fn scale(&self) -> i8
        ensures { result ≡ self.now.scale }
    {
        self.scale
    }

    /// How many bytes store a number: 1, 2, 4, 8, 16 or 32.
    pub fn width(&self) -> u8
        ensures value { result ≡ self.now.width }
        ensures sound { decimal_fault self.now.precision self.now.scale self.now.width ≡ None }
    {
        self.width
    }
}
