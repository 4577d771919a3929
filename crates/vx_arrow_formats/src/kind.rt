//! The kinds of arrays.

use vx_arrow_image::Offsets;

/// What a format string names, as far as it says how an array is stored.
#[derive(Clone, Copy)]
pub enum Kind {
    /// No values: each row is null.
    Nulls,
    /// A bit for each row.
    Bits,
    /// Unsigned integers of so many bytes.
    Unsigned(u64),
    /// Signed integers of so many bytes.
    Signed(u64),
    /// Other values of so many bytes.
    Fixed(u64),
    /// Strings, or strings of bytes.
    Text(Offsets),
    /// Views of strings, or of strings of bytes.
    TextView,
    /// A struct.
    Struct,
    /// A map: lists of entries.
    Map,
    /// Lists.
    List(Offsets),
    /// Lists of so many items each.
    FixedList(u64),
    /// Views of lists.
    ListView(Offsets),
    /// A sparse union of so many children.
    SparseUnion(u64),
    /// A dense union of so many children.
    DenseUnion(u64),
}
