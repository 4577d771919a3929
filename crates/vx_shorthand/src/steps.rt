//! Steps by a column of bools, and to every n-th row.
ghost use Rattle.std.specs.Prelude.{◌≡◌, ◌<◌, [], ◌∷◌, IfOk, Some, length, pos};
ghost use Rattle.vx_bits.specs.Results.{ok_unless};
ghost use Rattle.vx_types.specs.TypeTree.{primitive_kind};
ghost use Rattle.vx_types.specs.declared.nullability.Nullability.TheVariants.{NonNullable};
ghost use Rattle.vx_types.specs.declared.ptype.PType.TheVariants.{U64};
ghost use Rattle.vx_model.specs.Numbers.{numbers_of};
ghost use Rattle.vx_steps.specs.Step.{step_value};
ghost use Rattle.vx_shorthand.specs.Every.{TakesRows, rows_every};
ghost use Rattle.vx_shorthand.specs.Faults.{bools_fault};

use std::alloc::Global;
use vx_bits::NoMemory;
use vx_build::numbers;
use vx_column::{ArrayRef, ColumnError};
use vx_pieces::{Indices, PiecewiseSequence};
use vx_plain::FlatRef;
use vx_reading::is_bool;
use vx_steps::Step;

/// The step to the rows at which the column is true; a null isn't. It shares the column.
///
/// `WrongType` exactly where the column isn't of bools.
#[tactic(auto, using(crate::proofs::Bools::flat_bools))]
pub fn filter_by(column: &ArrayRef) -> Result<Step, ColumnError>
    ensures { result ≡ ok_unless (bools_fault column.now) (Step.FilterBy column.now) }
{
    if !is_bool(column) {
        return Err(ColumnError::WrongType);
    }
    Ok(Step::FilterBy(FlatRef::of(column.share())))
}

// The non-nullable column of one number. Fails only with `NoMemory`.
fn number(alloc: Global, value: usize) -> Result<ArrayRef, NoMemory>
    ensures dtype { IfOk result (λ c. c.dtype
        ≡ record { kind = primitive_kind U64; nullability = NonNullable }) }
    ensures len { IfOk result (λ c. length c.rows ≡ 1) }
    ensures number { IfOk result (λ c. numbers_of c ≡ Some (pos value) ∷ []) }
{
    Ok(numbers(alloc, &[value])?.into_ref(alloc)?)
}

/// The step to the rows 0, `n`, 2 `n` and so on of `len` rows. Fails only with `NoMemory`.
pub fn take_every(alloc: Global, n: usize, len: usize) -> Result<Step, NoMemory>
    requires { 0 < n }
    ensures { IfOk result (λ s. TakesRows (rows_every n len) (step_value s)) }
{
    let count = len.div_ceil(n);
    let starts = number(alloc, 0)?;
    let lengths = number(alloc, count)?;
    let multipliers = number(alloc, n)?;
    let pieces = PiecewiseSequence::new_unchecked(starts, lengths, multipliers, count);
    Ok(Step::Take(Indices::Pieces(pieces)))
}
