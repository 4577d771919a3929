//! A page of the rows that a list of steps leaves.
ghost use Rattle.std.specs.Prelude.{◌≡◌, IfErr, IfOk, None, map};
ghost use Rattle.vx_bits.specs.Results.{FailsBy};
ghost use Rattle.vx_pieces.specs.Indices.{index_fault, index_nullability, index_picks, index_value};
ghost use Rattle.vx_steps.specs.Compose.{IsFaultOf, takes_nullability};
ghost use Rattle.vx_steps.specs.Step.{step_value};
ghost use Rattle.vx_steps.specs.Walk.{walk};
ghost use Rattle.vx_table.specs.Page.{IsCutOf, IsPage, page_fault};

use crate::error::PageError;
use crate::projecting::first_missing;
use crate::table::Table;
use std::alloc::Global;
use vx_bits::NoMemory;
use vx_mask::Policy;
use vx_paging::{Readers, page_picks};
use vx_pieces::Indices;
use vx_select::{SelectError, Step, pick_indices};
use vx_steps::takes_nullability;

// The picks of a page as indices of one take. The steps are judged and composed here, once, for all
// readers.
fn page_indices(
    alloc: Global,
    len: usize,
    steps: &[Step],
    page: usize,
    page_len: usize,
    readers: Readers<'_>,
) -> Result<Indices, SelectError>
    ensures picks { IfOk result (λ i. IsCutOf (walk len (map step_value steps.now)) page page_len
        (index_picks (index_value i))) }
    ensures sound { IfOk result (λ i. index_fault (index_value i) len ≡ None) }
    ensures nullability { IfOk result (λ i. index_nullability (index_value i)
        ≡ takes_nullability (map step_value steps.now)) }
    ensures fault { IfErr result (IsFaultOf (walk len (map step_value steps.now))) }
{
    // no table has more rows than a `usize` counts, so a page that begins or ends past that begins
    // or ends past the rows
    let start = page.saturating_mul(page_len);
    let end = start.saturating_add(page_len);
    let picks = page_picks(alloc, len, steps, start, end, readers)?;
    Ok(pick_indices(alloc, &picks, takes_nullability(steps))?)
}

/// Of the rows that the steps leave of a table those of page number `page`, where each page has
/// `page_len` rows: the columns that the projection names, in its order, with their names. The last
/// page may have fewer rows, and one past the end has none. A column's type is that after the
/// steps, and a flat column is unwrapped.
///
/// Each step is judged once, and the picks are composed once, for all columns, with masks made
/// ready for as many consumers. Where no step is a take a page costs what it needs of the steps,
/// and its own rows in each of its columns; a take lists what it leaves, for each page again.
///
/// `NoColumn` exactly where a number of the projection isn't below the number of columns, with the
/// first one. Else `EmptyPage` exactly where `page_len` is 0. Else `Broken` exactly where a step
/// breaks a rule, with the first one. All three come also when memory runs out, and `NoMemory` only
/// where none of them does.
pub fn page(
    alloc: Global,
    table: &Table,
    projection: &[usize],
    steps: &[Step],
    page: usize,
    page_len: usize,
    policy: &Policy,
) -> Result<Table, PageError>
    ensures rows { IfOk result (IsPage table.now projection.now (map step_value steps.now) page
        page_len (walk table.now.len (map step_value steps.now))) }
    ensures fault { FailsBy result (page_fault table.now projection.now
        (map step_value steps.now) page_len) PageError.NoMemory }
{
    if let Some(index) = first_missing(projection, table.columns().len()) {
        return Err(PageError::NoColumn { index });
    }
    if page_len == 0 {
        return Err(PageError::EmptyPage);
    }
    let readers = Readers {
        columns: projection.len(),
        policy,
    };
    let indices = page_indices(alloc, table.len(), steps, page, page_len, readers)?;
    let rows = table
        .project(alloc, projection)?
        .take(alloc, &indices, policy)?;
    Ok(rows)
}
