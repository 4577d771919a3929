//! The column that the lists of a layout are cut from.
ghost use Rattle.std.specs.Prelude.{◌≡◌, None, IfOk, true};
ghost use Rattle.vx_bits.specs.Results.{FailsBy};
ghost use Rattle.vx_types.specs.TypeTree.{is_carried};

use crate::array::ArrayRef;
use std::alloc::Global;
use std::marker::Model;
use vx_types::{ColumnError, ElementType};

/// A column that has the elements of all lists, and its type as that of elements.
#[cycle(array)]
#[derive(Drop)]
pub(crate) struct Elements {
    column: ArrayRef,
    element: ElementType,
}

impl Model for Elements {
    ghost use Rattle.vx_model.specs.Column.{Column};
    ghost use Rattle.vx_model.specs.ColumnCode.{coded_column};

    ghost Value = { Column };

    ghost coded = { coded_column };

    ghost use Rattle.std.specs.Prelude.{◌≡◌, ◌+◌};
    ghost use Rattle.std.proofs.Common.{arith};

    ghost view = { λ a. a.column };

    ghost invariant = { λ a. a.element ≡ a.column.dtype };

    ghost size = { λ c. c.depth + 1 };

    ghost size_decreases = { λ a h. Prim.grind arith };
}

impl Elements {
    /// The elements of this column. Fails only with `NoMemory`.
    pub(crate) fn new(alloc: Global, column: ArrayRef) -> Result<Elements, ColumnError>
        ensures made { IfOk result (λ e. e ≡ column) }
        ensures refusal { FailsBy result None ColumnError.NoMemory }
    {
        match ElementType::new(alloc, column.dtype().share()) {
            Ok(element) => Ok(Elements { column, element }),
            Err(_) => Err(ColumnError::NoMemory),
        }
    }

    /// The elements of another column, of an equal type.
    pub(crate) fn with_column(&self, column: ArrayRef) -> Elements
        requires { column.dtype ≡ self.now.dtype }
        ensures { result ≡ column }
    {
        Elements {
            column,
            element: self.element.share(),
        }
    }

    /// The column.
    pub(crate) fn column(&self) -> &ArrayRef
        ensures { result.now ≡ self.now }
    {
        &self.column
    }

    /// Its type, which is one that a column may have.
    pub(crate) fn element(&self) -> ElementType
        ensures value { result ≡ self.now.dtype }
        ensures carried { is_carried self.now.dtype ≡ true }
    {
        // What its clauses say is used below.
        let _ = self.column.dtype();
        self.element.share()
    }
}
