//! The answer to a list of steps over a file.
ghost use Rattle.std.specs.Prelude.{◌≡◌, ◌+◌, ◌≤◌, IfErr, IfOk, IfSome, MatchResult, OnOk, map, true};
ghost use Rattle.vx_io.specs.Bytes.{Rose};
ghost use Rattle.vx_types.specs.PType.{width};
ghost use Rattle.vx_types.specs.RowValue.{null};
ghost use Rattle.vx_types.specs.TypeTree.{also_nullable};
ghost use Rattle.vx_types.specs.declared.nullability.Nullability.TheVariants.{NonNullable};
ghost use Rattle.vx_take.specs.Picks.{at};
ghost use Rattle.vx_positions.specs.Positions.{AllThere};
ghost use Rattle.vx_model.specs.Plain.{is_unwrapped};
ghost use Rattle.vx_steps.specs.Answer.{answer_of, answer_rows, type_after};
ghost use Rattle.vx_steps.specs.Compose.{IsUnbroken};
ghost use Rattle.vx_steps.specs.Step.{step_value};
ghost use Rattle.vx_steps.specs.Walk.{walk};
ghost use Rattle.vx_file.specs.Errors.{IfUnbroken, IsBrokenBy};
ghost use Rattle.vx_file.specs.File.{file_rows};
ghost use Rattle.vx_file.specs.Reading.{AllRead, AreSpellings, AreTold, IsReadError, NamesTouched};
ghost use Rattle.vx_file.specs.Shape.{row_type};
ghost use Rattle.vx_file.specs.Touched.{picks_of_steps, touched_count};

use crate::block_reader::BlockReader;
use crate::columns::{column_of, taken_records};
use crate::error::FileError;
use crate::reading::read_touched;
use crate::shape::FileShape;
use std::alloc::Global;
use vx_column::{Array, Nullability, Validity};
use vx_dispatch::take_validity;
use vx_mask::Policy;
use vx_select::{Step, compose};
use vx_steps::takes_nullability;
use vx_take::Picks;

// The rows at the picks, null at a null, which there is only where `nullability` says so.
fn take_file<R: BlockReader>(
    alloc: Global,
    reader: &mut R,
    shape: &FileShape,
    picks: &Picks,
    nullability: Nullability,
    policy: &Policy,
) -> Result<Array, FileError>
    requires bound { picks.now.bound ≡ shape.now.len }
    requires there { nullability ≡ NonNullable → AllThere picks.now.picks }
    ensures rows { IfOk result (λ a. IfSome (R.blocks reader.old) (λ all.
        a.rows ≡ at null (file_rows all shape.now) picks.now.picks)) }
    ensures dtype { IfOk result (λ a. a.dtype ≡ also_nullable (row_type shape.now) nullability) }
    ensures unwrapped { IfOk result (λ a. is_unwrapped a ≡ true) }
    ensures spelled { OnOk result (IfSome (R.blocks reader.old)
        (AreSpellings (width shape.now.ptype) picks.now)) }
    ensures told { OnOk result (AreTold (R.spare reader.old) picks.now
        (AllRead picks.now (R.reads reader.old) (R.reads reader.new))) }
    ensures error { IfErr result (IsReadError (width shape.now.ptype) picks.now
        (R.spare reader.old) (Rose (R.faults reader.old) (R.faults reader.new))
        (R.reads reader.old) (R.reads reader.new) (R.blocks reader.old)) }
    ensures touched { IfErr result (NamesTouched picks.now) }
    ensures same { R.blocks reader.new ≡ R.blocks reader.old }
    ensures cost { R.spare reader.old ≤ R.spare reader.new
        + touched_count picks.now }
    ensures never_falls { R.faults reader.old ≤ R.faults reader.new }
{
    // each pick is below the bound
    let _ = picks.bound();
    let ptype = shape.ptype();
    let width = ptype.width();
    let validity = take_validity(alloc, &Validity::NonNullable, picks, nullability, policy)?;
    let held = match read_touched(alloc, reader, width, picks) {
        Ok(held) => held,
        Err(error) => return Err(error),
    };
    let values = taken_records(alloc, &held, picks, width)?;
    Ok(column_of(ptype, values, validity))
}

/// The rows that the steps pick of a file of this shape, in order, as a column of the shape's type,
/// nullable also where a take's indices are, and unwrapped.
///
/// Each block that holds a picked row is read once, ascending, and no other; a row that is picked
/// again is read once.
///
/// `Broken` exactly where a step breaks a rule, with the first one, even when memory runs out, and
/// without a read. Else `ReadFault` only where a read failed, `Damaged` only where the block that
/// was read last is no spelling of numbers of the type, and `NoMemory`.
pub fn select_file<R: BlockReader>(
    alloc: Global,
    reader: &mut R,
    shape: &FileShape,
    steps: &[Step],
    policy: &Policy,
) -> Result<Array, FileError>
    ensures answer { IfOk result (λ a. IfSome (R.blocks reader.old) (λ all.
        answer_of (row_type shape.now) (file_rows all shape.now) (map step_value steps.now)
        ≡ answer_rows a.dtype a.rows)) }
    ensures dtype { IfOk result (λ a.
        a.dtype ≡ type_after (row_type shape.now) (map step_value steps.now)) }
    ensures unwrapped { IfOk result (λ a. is_unwrapped a ≡ true) }
    ensures fault { MatchResult result
        (λ _. IsUnbroken (walk shape.now.len (map step_value steps.now)))
        (IsBrokenBy (walk shape.now.len (map step_value steps.now))) }
    ensures spelled { OnOk result (IfSome (R.blocks reader.old) (AreSpellings
        (width shape.now.ptype) (picks_of_steps shape.now.len (map step_value steps.now)))) }

    // The reads, where as many are recorded as there are touched blocks.
    ensures told { OnOk result (AreTold (R.spare reader.old)
        (picks_of_steps shape.now.len (map step_value steps.now))
        (AllRead (picks_of_steps shape.now.len (map step_value steps.now))
        (R.reads reader.old) (R.reads reader.new))) }
    ensures error { IfErr result (IfUnbroken (reader.new ≡ reader.old)
        (IsReadError (width shape.now.ptype)
        (picks_of_steps shape.now.len (map step_value steps.now))
        (R.spare reader.old) (Rose (R.faults reader.old) (R.faults reader.new))
        (R.reads reader.old) (R.reads reader.new) (R.blocks reader.old))) }

    // A block that is reported as damaged holds a picked row, whatever is recorded of the reads.
    ensures touched { IfErr result (NamesTouched
        (picks_of_steps shape.now.len (map step_value steps.now))) }
    ensures same { R.blocks reader.new ≡ R.blocks reader.old }
    ensures cost { R.spare reader.old ≤ R.spare reader.new
        + touched_count (picks_of_steps shape.now.len (map step_value steps.now)) }
    ensures never_falls { R.faults reader.old ≤ R.faults reader.new }
{
    let picks = match compose(alloc, shape.len(), steps) {
        Ok(picks) => picks,
        Err(error) => return Err(FileError::from(error)),
    };
    let nullability = takes_nullability(steps);
    take_file(alloc, reader, shape, &picks, nullability, policy)
}
