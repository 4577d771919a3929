//! The names of the layouts.

/// The name of a layout: how the rows of a column are stored. Vortex tells them by ids.
#[derive(Debug, Clone, Copy, PartialEq, Eq)]
pub enum LayoutName {
    /// Rows that are all null.
    Null,
    /// A bit a row.
    Bool,
    /// A number of a primitive type a row.
    Primitive,
    /// A decimal number a row.
    Decimal,
    /// Bytes of any length, by running offsets.
    VarBin,
    /// Bytes of any length, by a view a row.
    VarBinView,
    /// Lists, by running offsets.
    List,
    /// Lists, by an offset and a size a row.
    ListView,
    /// Lists of one size.
    FixedSizeList,
    /// Lists of pairs of a key and a value.
    Map,
    /// A row of each field.
    Struct,
    /// A row of one variant.
    Union,
    /// A named type over a storage column.
    Extension,
    /// One value for every row.
    Constant,
    /// For each row a code that names one of the values.
    Dict,
    /// The rows of a child at the set positions of a mask.
    Filter,
}
