//! The rule that a step breaks, and the first step of a list that breaks one.
ghost use Rattle.std.specs.Prelude.{◌≡◌, ◌==◌, map, option_map, None, Some, if◌then◌else◌};
ghost use Rattle.vx_steps.specs.Step.{step_value};
ghost use Rattle.vx_steps.specs.Walk.{walk, broken, cause_of, rows_left};
ghost use Rattle.vx_steps.specs.Check.{IsChecked};
ghost use Rattle.vx_steps.specs.declared.cause.Cause.TheVariants.{BadMask};

use crate::cause::{Cause, SelectError};
use crate::step::Step;
use vx_pieces::IndexFault;
use vx_reading::{is_bool, true_rows};

impl Step {
    /// The rule that the step breaks over `len` rows; none where it breaks none.
    pub(crate) fn broken(&self, len: usize) -> Option<Cause>
        ensures { result ≡ broken (step_value self.now) len }
    {
        match self {
            Step::Slice { start, end } => {
                if start <= end && *end <= len {
                    None
                } else {
                    Some(Cause::BadRange {
                        start: *start,
                        end: *end,
                        len,
                    })
                }
            }
            Step::Filter(mask) => bad_mask(mask.len(), len),
            Step::FilterBy(column) => {
                if is_bool(column.array()) {
                    bad_mask(column.array().len(), len)
                } else {
                    Some(Cause::NotBool)
                }
            }
            Step::Take(indices) => cause_of(indices.fault(len), len),
        }
    }

    /// How many rows the step leaves, where it breaks no rule: of a take as many as it has indices.
    pub(crate) fn rows_left(&self) -> usize
        ensures { result ≡ rows_left (step_value self.now) }
    {
        match self {
            Step::Slice { start, end } => end.saturating_sub(*start),
            Step::Filter(mask) => mask.true_count(),
            Step::FilterBy(column) => true_rows(column.array()),
            Step::Take(indices) => indices.len(),
        }
    }
}

// The rule that a mask so long breaks over `len` rows.
fn bad_mask(mask_len: usize, len: usize) -> Option<Cause>
    ensures { result ≡ if mask_len == len then None else Some (BadMask mask_len len) }
{
    if mask_len == len {
        None
    } else {
        Some(Cause::BadMask { mask_len, len })
    }
}

// The rule that a take from `len` rows breaks, by the fault of its indices.
fn cause_of(fault: Option<IndexFault>, len: usize) -> Option<Cause>
    ensures { result ≡ option_map (cause_of len) fault }
{
    match fault {
        None => None,
        Some(IndexFault::InvalidIndices) => Some(Cause::InvalidIndices),
        Some(IndexFault::BadPieces) => Some(Cause::BadPieces),
        Some(IndexFault::OutOfBounds { index }) => Some(Cause::OutOfBounds { index, len }),
    }
}

/// How many rows the steps leave of `len` rows.
///
/// `Broken` exactly where a step breaks a rule, with the first one, and never `NoMemory`.
pub fn check_steps(len: usize, steps: &[Step]) -> Result<usize, SelectError>
    ensures { IsChecked result (walk len (map step_value steps.now)) }
{
    let mut left = len;
    for (step, s) in steps.iter().enumerate() {
        if let Some(cause) = s.broken(left) {
            return Err(SelectError::Broken { step, cause });
        }
        left = s.rows_left();
    }
    Ok(left)
}
