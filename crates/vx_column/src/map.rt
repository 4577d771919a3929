//! Layout `Map`: list views of entries, each a struct of a key and a value.
ghost use Rattle.std.specs.Prelude.{◌≡◌, None};
ghost use Rattle.vx_bits.specs.Results.{ok_unless};
ghost use Rattle.vx_model.specs.Map.{map_column, map_fault};
ghost use Rattle.vx_column.specs.Part.{IsPart};

use crate::array::{Array, Layout};
use crate::listview::ListViewArray;
use std::marker::Model;
use vx_types::{ColumnError, DType, is_entry_type};

/// A column of maps, each a list of entries: Vortex's `MapArray`.
#[cycle(array)]
#[derive(Drop)]
pub struct MapArray {
    entries: ListViewArray,
}

impl Model for MapArray {
    ghost use Rattle.vx_model.specs.ListView.{ListViewParts, coded_listview};

    ghost Value = { ListViewParts };

    ghost coded = { coded_listview };

    ghost use Rattle.std.specs.Prelude.{◌≡◌, ◌+◌, None, max};
    ghost use Rattle.std.proofs.Common.{arith};
    ghost use Rattle.vx_model.specs.Map.{map_fault};
    ghost use Rattle.vx_model.specs.Valid.{valid_size};

    ghost view = { λ a. a.entries };

    ghost invariant = { λ a. map_fault a.entries ≡ None };

    ghost size = { λ p. max p.elements.depth (valid_size p.valid) + 3 };

    ghost size_decreases = { λ a h. Prim.grind arith };
}

impl MapArray {
    /// A column whose rows are those of the entries, each a list of keys and values.
    ///
    /// `WrongType` exactly where the elements aren't non-nullable structs of two fields whose
    /// first is non-nullable.
    pub fn try_new(entries: ListViewArray) -> Result<MapArray, ColumnError>
        ensures { result ≡ ok_unless (map_fault entries) entries }
    {
        if !is_entry_type(entries.elements().dtype()) {
            return Err(ColumnError::WrongType);
        }
        Ok(MapArray { entries })
    }

    /// The list views of entries.
    pub fn entries(&self) -> &ListViewArray
        ensures { IsPart (map_fault self.now) result.now self.now }
    {
        &self.entries
    }

    /// Another handle to the same column.
    pub fn share(&self) -> MapArray
        ensures { result ≡ self.now }
    {
        MapArray {
            entries: self.entries.share(),
        }
    }

    /// The column of this layout.
    #[tactic(auto, using(vx_model::proofs::ListRows::listview_rows, vx_model::proofs::MapSteps::map_rows))]
    pub fn into_array(self) -> Array
        ensures { result ≡ map_column self }
    {
        // its elements' type is one that a column may have
        let nullability = self.entries.validity().nullability();
        let dtype = match self.entries.elements().dtype() {
            DType::Struct(fields, _) => DType::Map(fields.share(), nullability),
            _ => unreachable!(),
        };
        let len = self.entries.len();
        Array::new(dtype, len, Layout::Map(self))
    }
}
