//! Laws that no single call carries: each is the contract of a function that does nothing.
ghost use Rattle.std.specs.Prelude.{map};
ghost use Rattle.vx_steps.specs.Step.{step_value};
ghost use Rattle.vx_select.specs.Laws.{SelectionsAreAlike};

use vx_column::Array;
use vx_steps::Step;

/// Whatever two policies, and whichever of `select` and `select_fused`: two answers that are Ok
/// have the same type and rows, and a refusal that isn't `NoMemory` is the same.
pub fn selections_alike(column: &Array, steps: &[Step])
    ensures { SelectionsAreAlike column.now (map step_value steps.now) }
{
    // Only the contract speaks of it.
    let _ = column;
    let _ = steps;
}
