//! Shared lists of columns.
ghost use Rattle.std.specs.Prelude.{◌≡◌, ◌<◌, IfOk, Some, length, slice_get};

use crate::array::ArrayRef;
use std::alloc::Global;
use std::marker::Model;
use vx_bits::NoMemory;
use vx_shared::Shared;

/// A shared list of columns of any types and lengths. A contract sees the columns, in order.
#[cycle(array)]
#[derive(Drop)]
pub struct Columns {
    list: Shared<Vec<ArrayRef>>,
}

impl Model for Columns {
    ghost use Rattle.std.specs.Prelude.{List};
    ghost use Rattle.std.specs.Coded.{coded_list};
    ghost use Rattle.vx_model.specs.Column.{Column};
    ghost use Rattle.vx_model.specs.ColumnCode.{coded_column};

    ghost Value = { List Column };

    ghost coded = { coded_list coded_column };

    ghost use Rattle.std.proofs.Common.{arith};
    ghost use Rattle.vx_model.specs.Columns.{columns_depth};

    ghost view = { λ c. c.list.items };

    ghost size = { columns_depth };

    ghost size_decreases = { λ a h. Prim.grind arith };
}

impl Columns {
    /// The list behind a counted pointer. Fails only with `NoMemory`.
    pub fn new(alloc: Global, columns: Vec<ArrayRef>) -> Result<Columns, NoMemory>
        ensures { IfOk result (λ c. c ≡ columns.items) }
    {
        Ok(Columns {
            list: Shared::new(alloc, columns)?,
        })
    }

    /// How many columns there are.
    pub fn len(&self) -> usize
        ensures { result ≡ length self.now }
    {
        self.list.as_ref().len()
    }

    /// Column `i`.
    pub fn get(&self, i: usize) -> &ArrayRef
        requires { i < length self.now }
        ensures { slice_get self.now i ≡ Some result.now }
    {
        &self.list.as_ref()[i]
    }

    /// The columns, in order.
    pub fn as_slice(&self) -> &[ArrayRef]
        ensures { result.now ≡ self.now }
    {
        self.list.as_ref()
    }

    /// Another handle to the same columns.
    pub fn share(&self) -> Columns
        ensures { result ≡ self.now }
    {
        Columns {
            list: self.list.share(),
        }
    }
}
