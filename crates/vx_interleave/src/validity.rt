//! Which of the rows are valid.
ghost use Rattle.std.specs.Prelude.{◌≡◌, IfOk, map};
ghost use Rattle.vx_column.specs.Validity.{valid_of};
ghost use Rattle.vx_interleave.specs.Rows.{IsValidityOf, is_there, rows_in};

use crate::cells::is_there;
use std::alloc::Global;
use vx_bits::{BitBuffer, BitBuilder, NoMemory};
use vx_column::{Cell, Nullability, Validity};

/// The validity of the rows, as those of a type of this nullability.
pub(crate) fn validity_of(
    alloc: Global,
    nullability: Nullability,
    cells: &[Cell<'_>],
) -> Result<Validity, NoMemory>
    ensures { IfOk result (λ v. IsValidityOf nullability (rows_in cells.now) (valid_of v)) }
{
    match nullability {
        Nullability::NonNullable => Ok(Validity::NonNullable),
        Nullability::Nullable => Validity::from_bits(alloc, there_bits(alloc, cells)?),
    }
}

// Whether each row is there.
fn there_bits(alloc: Global, cells: &[Cell<'_>]) -> Result<BitBuffer, NoMemory>
    ensures { IfOk result
        (λ b. b ≡ record { bits = map is_there (rows_in cells.now); offset = 0 }) }
{
    let mut bits = BitBuilder::with_capacity(alloc, cells.len())?;
    for cell in cells {
        bits.append(is_there(*cell))?;
    }
    bits.finish()
}
