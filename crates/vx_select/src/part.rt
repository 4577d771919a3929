//! A part of a column that is cut out once it is needed.
ghost use Rattle.std.specs.Prelude.{◌≡◌, ◌≤◌, IfOk, IsOk, length, replicate, slice_range, true};
ghost use Rattle.vx_types.specs.RowValue.{null};
ghost use Rattle.vx_model.specs.Plain.{is_null_layout, is_plain};
ghost use Rattle.vx_model.specs.Step.{IsStep};

use std::alloc::Global;
use std::marker::Model;
use vx_bits::NoMemory;
use vx_column::Array;
use vx_dispatch::slice;
use vx_plain::ReadLayout;

/// The rows of a column from `start` up to `end`. A contract sees it as the column with these rows
/// alone, so slices that follow each other cost one cut.
#[derive(Drop)]
pub(crate) struct Part {
    column: Array,
    start: usize,
    end: usize,
}

impl Model for Part {
    ghost use Rattle.std.specs.Prelude.{◌≤◌, length, slice_range};
    ghost use Rattle.vx_model.specs.Column.{Column};
    ghost use Rattle.vx_model.specs.ColumnCode.{coded_column};

    ghost Value = { Column };

    ghost coded = { coded_column };

    ghost view = { λ p. record p.column { rows = slice_range p.column.rows p.start p.end } };

    ghost invariant = { λ p. (p.start ≤ p.end) × (p.end ≤ length p.column.rows) };
}

impl Part {
    /// All rows of a column.
    pub(crate) fn whole(column: Array) -> Part
        ensures { result ≡ column }
    {
        let end = column.len();
        Part {
            column,
            start: 0,
            end,
        }
    }

    /// The part's rows from `start` up to `end`.
    pub(crate) fn narrowed(self, start: usize, end: usize) -> Part
        requires ordered { start ≤ end }
        requires within { end ≤ length self.rows }
        ensures { result ≡ record self { rows = slice_range self.rows start end } }
    {
        // its number of rows fits
        let _ = self.column.len();
        Part {
            column: self.column,
            start: self.start + start,
            end: self.start + end,
        }
    }

    /// Whether it is of layout `Null`, whose rows are nulls alone.
    pub(crate) fn is_null(&self) -> bool
        ensures value { result ≡ is_null_layout self.now.layout }
        ensures nulls { result ≡ true
            → self.now.rows ≡ replicate (length self.now.rows) null }
    {
        self.column.as_null().is_some()
    }

    /// The column of its rows. Fails only with `NoMemory`, and never of a plain column.
    pub(crate) fn materialize(&self, alloc: Global) -> Result<Array, NoMemory>
        ensures step { IfOk result (IsStep self.now self.now.rows self.now.dtype) }
        ensures plain { is_plain self.now ≡ true → IfOk result (λ a. is_plain a ≡ true) }
        ensures free { is_plain self.now ≡ true → IsOk result }
    {
        if self.start == 0 && self.end == self.column.len() {
            return Ok(self.column.share());
        }
        let rows = slice(alloc, &self.column, self.start, self.end)?;
        Ok(rows)
    }
}
