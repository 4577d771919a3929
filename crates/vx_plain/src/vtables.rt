//! The layouts as types.
ghost use Rattle.vx_types.specs.declared.layout_name.LayoutName.{LayoutName};
ghost use Rattle.vx_types.specs.declared.layout_name.LayoutName.TheVariants.{Null as NullName, Bool as BoolName, Primitive as PrimitiveName, Decimal as DecimalName, VarBin as VarBinName, VarBinView as VarBinViewName, List as ListName, ListView as ListViewName, FixedSizeList as FixedSizeListName, Map as MapName, Struct as StructName, Union as UnionName, Extension as ExtensionName, Constant as ConstantName, Dict as DictName, Filter as FilterName};

use vx_types::LayoutName;

/// A layout as a type, which generic code is written over: Vortex's `VTable`.
pub trait VTable {
    /// The layout's name.
    const NAME: LayoutName;

    ghost NAME: { LayoutName };
}

/// Layout `Null`.
#[derive(Debug, Clone, Copy, Default)]
pub struct Null;

impl VTable for Null {
    const NAME: LayoutName = LayoutName::Null;

    ghost NAME = { NullName };
}

/// Layout `Bool`.
#[derive(Debug, Clone, Copy, Default)]
pub struct Bool;

impl VTable for Bool {
    const NAME: LayoutName = LayoutName::Bool;

    ghost NAME = { BoolName };
}

/// Layout `Primitive`.
#[derive(Debug, Clone, Copy, Default)]
pub struct Primitive;

impl VTable for Primitive {
    const NAME: LayoutName = LayoutName::Primitive;

    ghost NAME = { PrimitiveName };
}

/// Layout `Decimal`.
#[derive(Debug, Clone, Copy, Default)]
pub struct Decimal;

impl VTable for Decimal {
    const NAME: LayoutName = LayoutName::Decimal;

    ghost NAME = { DecimalName };
}

/// Layout `VarBin`.
#[derive(Debug, Clone, Copy, Default)]
pub struct VarBin;

impl VTable for VarBin {
    const NAME: LayoutName = LayoutName::VarBin;

    ghost NAME = { VarBinName };
}

/// Layout `VarBinView`.
#[derive(Debug, Clone, Copy, Default)]
pub struct VarBinView;

impl VTable for VarBinView {
    const NAME: LayoutName = LayoutName::VarBinView;

    ghost NAME = { VarBinViewName };
}

/// Layout `List`.
#[derive(Debug, Clone, Copy, Default)]
pub struct List;

impl VTable for List {
    const NAME: LayoutName = LayoutName::List;

    ghost NAME = { ListName };
}

/// Layout `ListView`.
#[derive(Debug, Clone, Copy, Default)]
pub struct ListView;

impl VTable for ListView {
    const NAME: LayoutName = LayoutName::ListView;

    ghost NAME = { ListViewName };
}

/// Layout `FixedSizeList`.
#[derive(Debug, Clone, Copy, Default)]
pub struct FixedSizeList;

impl VTable for FixedSizeList {
    const NAME: LayoutName = LayoutName::FixedSizeList;

    ghost NAME = { FixedSizeListName };
}

/// Layout `Map`.
#[derive(Debug, Clone, Copy, Default)]
pub struct Map;

impl VTable for Map {
    const NAME: LayoutName = LayoutName::Map;

    ghost NAME = { MapName };
}

/// Layout `Struct`.
#[derive(Debug, Clone, Copy, Default)]
pub struct Struct;

impl VTable for Struct {
    const NAME: LayoutName = LayoutName::Struct;

    ghost NAME = { StructName };
}

/// Layout `Union`.
#[derive(Debug, Clone, Copy, Default)]
pub struct Union;

impl VTable for Union {
    const NAME: LayoutName = LayoutName::Union;

    ghost NAME = { UnionName };
}

/// Layout `Extension`.
#[derive(Debug, Clone, Copy, Default)]
pub struct Extension;

impl VTable for Extension {
    const NAME: LayoutName = LayoutName::Extension;

    ghost NAME = { ExtensionName };
}

/// Layout `Constant`.
#[derive(Debug, Clone, Copy, Default)]
pub struct Constant;

impl VTable for Constant {
    const NAME: LayoutName = LayoutName::Constant;

    ghost NAME = { ConstantName };
}

/// Layout `Dict`.
#[derive(Debug, Clone, Copy, Default)]
pub struct Dict;

impl VTable for Dict {
    const NAME: LayoutName = LayoutName::Dict;

    ghost NAME = { DictName };
}

/// Layout `Filter`.
#[derive(Debug, Clone, Copy, Default)]
pub struct Filter;

impl VTable for Filter {
    const NAME: LayoutName = LayoutName::Filter;

    ghost NAME = { FilterName };
}
