//! The layout of a column, and its parts where it is of a given one.
ghost use Rattle.std.specs.Prelude.{◌≡◌, ◌↔◌, IfSome, IsSome, is_some, length, option_map};
ghost use Rattle.vx_model.specs.Constant.{constant_column};
ghost use Rattle.vx_model.specs.Dict.{dict_codes, dict_column};
ghost use Rattle.vx_model.specs.Extension.{extension_column};
ghost use Rattle.vx_model.specs.List.{list_column};
ghost use Rattle.vx_model.specs.ListView.{listview_column};
ghost use Rattle.vx_model.specs.Null.{null_column};
ghost use Rattle.vx_model.specs.Plain.{is_constant_layout, is_listview_layout, is_null_layout};
ghost use Rattle.vx_model.specs.Struct.{struct_column};
ghost use Rattle.vx_model.specs.Union.{union_column};
ghost use Rattle.vx_types.specs.declared.layout_name.LayoutName.TheVariants.{Dict as DictLayout, Extension as ExtensionLayout, List as ListLayout, Struct as StructLayout, Union as UnionLayout};

use crate::view::ArrayView;
use crate::vtables::VTable;
use std::marker::PhantomData;
use vx_column::{
    Array, DictArray, ExtensionArray, Layout, LayoutName, ListArray, ListViewArray, NullArray,
    Scalar, StructArray, UnionArray,
};

/// Reads the layout of a column: `column.layout_name()`, `column.as_list()`.
pub trait ReadLayout {
    ghost use Rattle.vx_model.specs.Column.{Column};

    // the column that is read
    ghost column: { Self → Column };

    /// The value that each row is; some exactly where it is of layout `Constant`: Vortex's
    /// `as_constant`.
    fn as_constant(&self) -> Option<&Scalar>
        ensures value { IfSome result (λ s. constant_column
            (record { scalar = s.now; len = length (column self.now).rows }) ≡ column self.now) }
        ensures exactly { is_some result ≡ is_constant_layout (column self.now).layout };

    /// Its nulls; some exactly where it is of layout `Null`.
    fn as_null(&self) -> Option<&NullArray>
        ensures value { IfSome result (λ n. null_column n.now ≡ column self.now) }
        ensures exactly { is_some result ≡ is_null_layout (column self.now).layout };

    /// Its list views; some exactly where it is of layout `ListView`.
    fn as_listview(&self) -> Option<&ListViewArray>
        ensures value { IfSome result (λ v. listview_column v.now ≡ column self.now) }
        ensures exactly { is_some result ≡ is_listview_layout (column self.now).layout };

    /// Its storage, and the name that it is under; some exactly where it is of layout `Extension`.
    fn as_extension(&self) -> Option<&ExtensionArray>
        ensures value { IfSome result (λ e. extension_column e.now ≡ column self.now) }
        ensures exactly { IsSome result ↔ ((column self.now).layout ≡ ExtensionLayout) };

    /// Its codes and values; some exactly where it is of layout `Dict`.
    fn as_dict(&self) -> Option<&DictArray>
        ensures value { IfSome result (λ d. dict_column d.now ≡ column self.now) }
        ensures codes { option_map (λ d. dict_codes d.now) result ≡ (column self.now).codes }
        ensures exactly { IsSome result ↔ ((column self.now).layout ≡ DictLayout) };

    /// Its lists; some exactly where it is of layout `List`.
    fn as_list(&self) -> Option<&ListArray>
        ensures value { IfSome result (λ l. list_column l.now ≡ column self.now) }
        ensures exactly { IsSome result ↔ ((column self.now).layout ≡ ListLayout) };

    /// Its structs; some exactly where it is of layout `Struct`.
    fn as_struct(&self) -> Option<&StructArray>
        ensures value { IfSome result (λ s. struct_column s.now ≡ column self.now) }
        ensures exactly { IsSome result ↔ ((column self.now).layout ≡ StructLayout) };

    /// Its union; some exactly where it is of layout `Union`.
    fn as_union(&self) -> Option<&UnionArray>
        ensures value { IfSome result (λ u. union_column u.now ≡ column self.now) }
        ensures exactly { IsSome result ↔ ((column self.now).layout ≡ UnionLayout) };

    /// The name of its layout.
    fn layout_name(&self) -> LayoutName
        ensures { result ≡ (column self.now).layout };

    /// The column as one of the layout `V`: some exactly where it is of that layout.
    fn as_opt<V: VTable>(&self) -> Option<ArrayView<'_, V>>
        ensures some { IsSome result ↔ ((column self.now).layout ≡ V.NAME) }
        ensures same { IfSome result (λ v. v.array.now ≡ column self.now) };
}

impl ReadLayout for Array {
    ghost column = { λ c. c };

    #[tactic(auto, using(vx_model::proofs::LazyRows::lazy_rows))]
    fn as_constant(&self) -> Option<&Scalar> {
        match self.layout() {
            Layout::Constant(a) => Some(a.scalar()),
            _ => None,
        }
    }

    fn as_null(&self) -> Option<&NullArray> {
        match self.layout() {
            Layout::Null(a) => Some(a),
            _ => None,
        }
    }

    fn as_listview(&self) -> Option<&ListViewArray> {
        match self.layout() {
            Layout::ListView(a) => Some(a),
            _ => None,
        }
    }

    fn as_extension(&self) -> Option<&ExtensionArray> {
        match self.layout() {
            Layout::Extension(a) => Some(a),
            _ => None,
        }
    }

    fn as_dict(&self) -> Option<&DictArray> {
        match self.layout() {
            Layout::Dict(a) => Some(a),
            _ => None,
        }
    }

    fn as_list(&self) -> Option<&ListArray> {
        match self.layout() {
            Layout::List(a) => Some(a),
            _ => None,
        }
    }

    fn as_struct(&self) -> Option<&StructArray> {
        match self.layout() {
            Layout::Struct(a) => Some(a),
            _ => None,
        }
    }

    fn as_union(&self) -> Option<&UnionArray> {
        match self.layout() {
            Layout::Union(a) => Some(a),
            _ => None,
        }
    }

    #[tactic(auto, using(vx_model::proofs::Layouts::layout_names))]
    fn layout_name(&self) -> LayoutName {
        match self.layout() {
            Layout::Null(_) => LayoutName::Null,
            Layout::Bool(_) => LayoutName::Bool,
            Layout::Primitive(a) => {
                // its records are of a primitive type
                let _ = a.rows();
                LayoutName::Primitive
            }
            Layout::Decimal(a) => {
                // its records are of a decimal type
                let _ = a.rows();
                LayoutName::Decimal
            }
            Layout::VarBin(_) => LayoutName::VarBin,
            Layout::VarBinView(_) => LayoutName::VarBinView,
            Layout::List(_) => LayoutName::List,
            Layout::ListView(_) => LayoutName::ListView,
            Layout::FixedSizeList(_) => LayoutName::FixedSizeList,
            Layout::Map(_) => LayoutName::Map,
            Layout::Struct(_) => LayoutName::Struct,
            Layout::Union(_) => LayoutName::Union,
            Layout::Extension(_) => LayoutName::Extension,
            Layout::Constant(_) => LayoutName::Constant,
            Layout::Dict(_) => LayoutName::Dict,
            Layout::Filter(_) => LayoutName::Filter,
        }
    }

    fn as_opt<V: VTable>(&self) -> Option<ArrayView<'_, V>> {
        if self.layout_name() == V::NAME {
            Some(ArrayView {
                array: self,
                vtable: PhantomData,
            })
        } else {
            None
        }
    }
}
