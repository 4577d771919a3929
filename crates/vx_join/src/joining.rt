//! Joins of two tables.
ghost use Rattle.std.specs.Prelude.{◌≡◌, IfOk};
ghost use Rattle.vx_bits.specs.Results.{FailsBy};
ghost use Rattle.vx_positions.specs.Positions.{AllThere};
ghost use Rattle.vx_table.specs.Taken.{IsTaken};
ghost use Rattle.vx_join.specs.Join.{IsJoin, join_fault, rows_of_pairs};
ghost use Rattle.vx_join.specs.Keys.{AreThere, AreOfKeyTypes, left_keys, matching_pairs, right_keys};

use crate::error::JoinError;
use crate::faults::{first_missing, first_of_other_types};
use crate::indices::JoinIndices;
use crate::keys::{join_columns, key_columns};
use std::alloc::Global;
use vx_bits::NoMemory;
use vx_column::Nullability;
use vx_mask::Policy;
use vx_select::pick_indices;
use vx_table::Table;
use vx_take::Picks;

// The left columns' numbers of pairs of keys.
fn left_keys(alloc: Global, keys: &[(usize, usize)]) -> Result<Vec<usize>, NoMemory>
    ensures { IfOk result (λ numbers. numbers.items ≡ left_keys keys.now) }
{
    Ok(keys.iter().map(|key| key.0).collect(alloc)?)
}

// The right columns' numbers.
fn right_keys(alloc: Global, keys: &[(usize, usize)]) -> Result<Vec<usize>, NoMemory>
    ensures { IfOk result (λ numbers. numbers.items ≡ right_keys keys.now) }
{
    Ok(keys.iter().map(|key| key.1).collect(alloc)?)
}

// The pairs of rows, by keys that no rule refuses.
fn matched(
    alloc: Global,
    left: &Table,
    right: &Table,
    keys: &[(usize, usize)],
) -> Result<JoinIndices, NoMemory>
    requires there { AreThere left.now right.now keys.now }
    requires types { AreOfKeyTypes left.now right.now keys.now }
    ensures { IfOk result (λ found. found
        ≡ rows_of_pairs left.now right.now (matching_pairs left.now right.now keys.now)) }
{
    let left_columns = key_columns(alloc, left.columns(), &left_keys(alloc, keys)?)?;
    let right_columns = key_columns(alloc, right.columns(), &right_keys(alloc, keys)?)?;
    let found = join_columns(
        alloc,
        &left_columns,
        left.len(),
        &right_columns,
        right.len(),
    )?;
    Ok(JoinIndices::of(found, left.len(), right.len()))
}

/// The rows of two tables whose keys are equal: for each pair of rows, by the left and then by the
/// right row, its place in either table. Rows match where in every pair of key columns neither is
/// null and both are equal as they are stored, bit for bit and byte for byte: -0.0 isn't 0.0.
///
/// A pair of keys is the number of a left column and of a right one. `NoKeys` exactly where there
/// is no pair. Else `NoKey` exactly where a pair names a column that doesn't exist, with the first
/// one. Else `KeyTypes` exactly where a pair's two types aren't flat or differ in more than
/// nullability, with the first one. All three come also when memory runs out, and `NoMemory` only
/// where none of them does. More pairs than a `usize` counts want memory.
pub fn join_indices(
    alloc: Global,
    left: &Table,
    right: &Table,
    keys: &[(usize, usize)],
) -> Result<JoinIndices, JoinError>
    ensures pairs { IfOk result (λ found. found
        ≡ rows_of_pairs left.now right.now (matching_pairs left.now right.now keys.now)) }
    ensures fault { FailsBy result (join_fault left.now right.now keys.now) JoinError.NoMemory }
{
    if keys.is_empty() {
        return Err(JoinError::NoKeys);
    }
    if let Some(pair) = first_missing(left, right, keys) {
        return Err(JoinError::NoKey { pair });
    }
    if let Some(pair) = first_of_other_types(left, right, keys) {
        return Err(JoinError::KeyTypes { pair });
    }
    Ok(matched(alloc, left, right, keys)?)
}

// The rows of a table at picks of which none is a null.
fn rows_at(alloc: Global, table: &Table, picks: &Picks, policy: &Policy) -> Result<Table, NoMemory>
    requires bound { picks.now.bound ≡ table.now.len }
    requires there { AllThere picks.now.picks }
    ensures { IfOk result (IsTaken table.now (λ t. t) picks.now.picks) }
{
    let indices = pick_indices(alloc, picks, Nullability::NonNullable)?;
    table.take(alloc, &indices, policy)
}

/// The table of the pairs of rows whose keys are equal, in the order of [`join_indices`]: the left
/// columns and then the right ones, with their names and types. A flat column is unwrapped. Each
/// column is read by one take.
///
/// Refuses as [`join_indices`] does.
pub fn join(
    alloc: Global,
    left: &Table,
    right: &Table,
    keys: &[(usize, usize)],
    policy: &Policy,
) -> Result<Table, JoinError>
    ensures rows { IfOk result
        (IsJoin left.now right.now (matching_pairs left.now right.now keys.now)) }
    ensures fault { FailsBy result (join_fault left.now right.now keys.now) JoinError.NoMemory }
{
    let found = join_indices(alloc, left, right, keys)?;
    let left_rows = rows_at(alloc, left, found.left(), policy)?;
    let right_rows = rows_at(alloc, right, found.right(), policy)?;
    Ok(left_rows.beside(alloc, &right_rows)?)
}
