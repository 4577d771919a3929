//! What the steps over the layouts have in common.
ghost use Rattle.vx_model.specs.Column.{Column};

use vx_bits::NoMemory;
use vx_column::Array;

/// What a step gives: a column, or `NoMemory`.
pub(crate) type StepResult = Result<Array, NoMemory>;

/// The parts of a layout that a step goes over, or of several layouts taken together.
pub(crate) trait Parts {
    // the column of these parts
    ghost column: { Self → Column };
}
