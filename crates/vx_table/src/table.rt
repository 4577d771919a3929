//! Tables.
ghost use Rattle.std.specs.Prelude.{◌≡◌, ◌==◌, None, length, not};
ghost use Rattle.std.specs.List.{position_from};
ghost use Rattle.vx_bits.specs.Results.{ok_unless};
ghost use Rattle.vx_table.specs.Table.{AreLong, names_of, table_fault, table_of};

use crate::error::TableError;
use std::marker::Model;
use std::rc::RcStr;
use vx_column::Columns;

/// Columns of one length, each under a name. A name may stand twice.
///
/// Clauses see the names, the columns and the length.
#[derive(Drop)]
pub struct Table {
    names: Vec<RcStr>,
    columns: Columns,
    len: usize,
}

impl Model for Table {
    ghost use Rattle.std.specs.Prelude.{◌≡◌, None};
    ghost use Rattle.vx_table.specs.Table.{TableValue, coded_table, names_of, table_fault};

    ghost Value = { TableValue };

    ghost coded = { coded_table };

    ghost view = { λ t. record {
      names = names_of t.names.items;
      columns = t.columns;
      len = t.len;
    } };

    ghost invariant = { λ t. table_fault (record {
      names = names_of t.names.items;
      columns = t.columns;
      len = t.len;
    }) ≡ None };
}

// The first column that hasn't so many rows.
fn first_of_other_length(columns: &Columns, len: usize) -> Option<usize>
    ensures { result ≡ position_from (λ c. not (length c.rows == len)) 0 columns.now }
{
    for i in 0..columns.len() {
        if columns.get(i).len() != len {
            return Some(i);
        }
    }
    None
}

impl Table {
    /// The table of these names and columns, with `len` rows.
    ///
    /// `WrongCount` exactly where there aren't as many names as columns. Else `WrongLength` exactly
    /// where a column hasn't `len` rows, with the first one.
    pub fn try_new(names: Vec<RcStr>, columns: Columns, len: usize) -> Result<Table, TableError>
        ensures { result
            ≡ ok_unless (table_fault (table_of names columns len)) (table_of names columns len) }
    {
        if names.len() != columns.len() {
            return Err(TableError::WrongCount);
        }
        if let Some(column) = first_of_other_length(&columns, len) {
            return Err(TableError::WrongLength { column });
        }
        Ok(Table {
            names,
            columns,
            len,
        })
    }

    /// The names, one a column.
    pub fn names(&self) -> &[RcStr]
        ensures value { names_of result.now ≡ self.now.names }
        ensures valid { table_fault self.now ≡ None }
    {
        &self.names
    }

    /// The columns.
    pub fn columns(&self) -> &Columns
        ensures value { result.now ≡ self.now.columns }
        ensures valid { table_fault self.now ≡ None }
        ensures long { AreLong self.now.len self.now.columns }
    {
        &self.columns
    }

    /// How many rows each column has.
    pub fn len(&self) -> usize
        ensures { result ≡ self.now.len }
    {
        self.len
    }
}
