//! Indices and steps.
ghost use Rattle.std.specs.Prelude.{◌≡◌, IfOk};
ghost use Rattle.vx_pieces.specs.Indices.{index_value};
ghost use Rattle.vx_steps.specs.Step.{slice_step, filter_step, step_value};
ghost use Rattle.vx_build.specs.Positions.{NamePositions, TakesPositions};

use crate::bits::mask;
use crate::primitive::nullable_numbers;
use std::alloc::Global;
use vx_bits::NoMemory;
use vx_pieces::Indices;
use vx_plain::FlatRef;
use vx_steps::Step;

/// The indices of these positions, null where there is none. Fails only with `NoMemory`.
pub fn indices(alloc: Global, positions: &[Option<usize>]) -> Result<Indices, NoMemory>
    ensures { IfOk result (λ i. NamePositions positions.now (index_value i)) }
{
    let column = nullable_numbers(alloc, positions)?.into_ref(alloc)?;
    Ok(Indices::Array(FlatRef::of(column)))
}

/// The step to the rows from `start` up to `end`.
pub fn slice(start: usize, end: usize) -> Step
    ensures { step_value result ≡ slice_step start end }
{
    Step::Slice { start, end }
}

/// The step to the rows at the set bits. Fails only with `NoMemory`.
pub fn filter(alloc: Global, bits: &[bool]) -> Result<Step, NoMemory>
    ensures { IfOk result (λ s. step_value s ≡ filter_step bits.now) }
{
    Ok(Step::Filter(mask(alloc, bits)?))
}

/// The step to the rows at these positions, and a null where there is none. Fails only with
/// `NoMemory`.
pub fn take(alloc: Global, positions: &[Option<usize>]) -> Result<Step, NoMemory>
    ensures { IfOk result (λ s. TakesPositions positions.now (step_value s)) }
{
    Ok(Step::Take(indices(alloc, positions)?))
}
