//! Columns that are known to be flat.
ghost use Rattle.std.specs.Prelude.{◌≡◌, true};
ghost use Rattle.vx_bits.specs.Results.{ok_unless};
ghost use Rattle.vx_types.specs.TypeTree.{is_flat};
ghost use Rattle.vx_plain.specs.Flat.{flat_fault};

use std::marker::Model;
use vx_column::ArrayRef;
use vx_types::ColumnError;

/// A shared column of a flat type. A contract sees the column.
#[derive(Drop)]
pub struct FlatRef {
    array: ArrayRef,
}

impl Model for FlatRef {
    ghost use Rattle.std.specs.Prelude.{◌≡◌, true};
    ghost use Rattle.vx_types.specs.TypeTree.{is_flat};
    ghost use Rattle.vx_model.specs.Column.{Column};
    ghost use Rattle.vx_model.specs.ColumnCode.{coded_column};

    ghost Value = { Column };

    ghost coded = { coded_column };

    ghost view = { λ f. f.array };

    ghost invariant = { λ f. is_flat f.array.dtype ≡ true };
}

impl FlatRef {
    /// The column as one of a flat type.
    ///
    /// `WrongType` exactly where the type isn't flat.
    pub fn try_new(array: ArrayRef) -> Result<FlatRef, ColumnError>
        ensures { result ≡ ok_unless (flat_fault array) array }
    {
        if !array.is_flat() {
            return Err(ColumnError::WrongType);
        }
        Ok(FlatRef { array })
    }

    /// The column, which is of a flat type.
    pub fn of(array: ArrayRef) -> FlatRef
        requires { is_flat array.dtype ≡ true }
        ensures { result ≡ array }
    {
        FlatRef { array }
    }

    /// The column.
    pub fn array(&self) -> &ArrayRef
        ensures value { result.now ≡ self.now }
        ensures flat { is_flat self.now.dtype ≡ true }
    {
        &self.array
    }

    /// Another handle to the same column.
    pub fn share(&self) -> FlatRef
        ensures { result ≡ self.now }
    {
        FlatRef {
            array: self.array.share(),
        }
    }
}
