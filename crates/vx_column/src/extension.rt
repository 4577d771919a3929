//! Layout `Extension`: a storage column under a name.
ghost use Rattle.std.specs.Prelude.{◌≡◌, None};
ghost use Rattle.vx_bits.specs.Results.{ok_unless};
ghost use Rattle.vx_model.specs.Extension.{extension_column, extension_fault, extension_with};
ghost use Rattle.vx_column.specs.Part.{IsPart};

use crate::array::{Array, ArrayRef, Layout};
use crate::cell::{Cell, ReadRow};
use std::marker::Model;
use vx_shared::Shared;
use vx_types::{ColumnError, DType, ExtDType};

/// A column of a named type, whose rows are the storage's: Vortex's `ExtensionArray`.
#[cycle(array)]
#[derive(Drop)]
pub struct ExtensionArray {
    ext: Shared<ExtDType>,
    storage: ArrayRef,
}

impl Model for ExtensionArray {
    ghost use Rattle.vx_model.specs.Extension.{ExtensionParts, coded_extension_parts};

    ghost Value = { ExtensionParts };

    ghost coded = { coded_extension_parts };

    ghost use Rattle.std.specs.Prelude.{◌≡◌, None};
    ghost use Rattle.std.proofs.Common.{arith};
    ghost use Rattle.vx_model.specs.Extension.{extension_fault, extension_size};

    ghost view = { λ a. record { ext = a.ext; storage = a.storage } };

    ghost invariant = { λ a.
        extension_fault (record { ext = a.ext; storage = a.storage }) ≡ None };

    ghost size = { extension_size };

    ghost size_decreases = { λ a h. Prim.grind arith };
}

impl ExtensionArray {
    /// A column whose rows are the storage's, nullable where it is.
    ///
    /// `WrongType` exactly where the storage's type differs in more than outer nullability.
    #[tactic(auto, using(vx_types::specs::SameLaws::kind_decides))]
    pub fn try_new(ext: Shared<ExtDType>, storage: ArrayRef) -> Result<ExtensionArray, ColumnError>
        ensures { result ≡ ok_unless (extension_fault (record { ext = ext; storage = storage }))
            (record { ext = ext; storage = storage }) }
    {
        if !ext.storage().same_kind(storage.dtype()) {
            return Err(ColumnError::WrongType);
        }
        Ok(ExtensionArray { ext, storage })
    }

    /// The extension over another storage of its kind: what a step leaves. It doesn't test what it
    /// requires; `try_new` does.
    pub fn with_storage(&self, storage: ArrayRef) -> ExtensionArray
        requires { extension_fault (extension_with self.now storage) ≡ None }
        ensures { result ≡ extension_with self.now storage }
    {
        ExtensionArray {
            ext: self.ext.share(),
            storage,
        }
    }

    /// The type's name, and the type that stores it.
    pub fn ext(&self) -> &Shared<ExtDType>
        ensures { IsPart (extension_fault self.now) result.now self.now.ext }
    {
        &self.ext
    }

    /// The column that stores the rows.
    pub fn storage(&self) -> &ArrayRef
        ensures { IsPart (extension_fault self.now) result.now self.now.storage }
    {
        &self.storage
    }

    /// Another handle to the same column.
    pub fn share(&self) -> ExtensionArray
        ensures { result ≡ self.now }
    {
        self.with_storage(self.storage.share())
    }

    /// The column of this layout.
    #[tactic(auto, using(vx_model::proofs::ExtensionSteps::extension_rows))]
    pub fn into_array(self) -> Array
        ensures { result ≡ extension_column self }
    {
        let dtype = DType::Extension(self.ext.share(), self.storage.dtype().nullability());
        let len = self.storage.len();
        Array::new(dtype, len, Layout::Extension(self))
    }
}

// Row `i`: the storage's.
impl ReadRow for ExtensionArray {
    ghost column = { extension_column };

    #[cycle(cell)]
    #[tactic(auto, using(vx_model::proofs::ExtensionSteps::extension_rows, crate::proofs::Cells::stored))]
    fn cell_at(&self, i: usize) -> Cell<'_> {
        let storage = self.storage();
        storage.cell_at(i)
    }
}
