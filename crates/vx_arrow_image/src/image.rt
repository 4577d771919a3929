//! One node of a column as it lies in the caller's memory, and what its rows at picks need.

/// One node of a column's tree, in numbers and borrowed bytes. It crosses a border to C as it
/// stands. Its children stand behind it, first to last, each before its own.
///
/// Bits are numbered from the least significant of each byte on, numbers are little-endian, and
/// lists may be longer than is needed. A field that the format doesn't name is never looked at.
#[repr(C)]
#[derive(Clone, Copy)]
pub struct Node<'a> {
    /// 0 nulls, 1 bits, 2 values of a fixed width, 3 texts with offsets of 4 bytes, 4 with such of
    /// 8, 5 a struct, 6 lists with offsets of 4 bytes, 7 with such of 8, 8 lists of a fixed size,
    /// 9 views of texts, 10 views of lists with offsets of 4 bytes, 11 with such of 8, 12 a sparse
    /// union, 13 a dense one.
    pub format: u64,
    /// Of values of a fixed width: how many bytes one has. Of lists of a fixed size: how many
    /// items.
    pub width: u64,
    /// How many rows it has.
    pub len: u64,
    /// How many rows stand before its first one in its lists and its children.
    pub offset: u64,
    /// How many columns stand right below it. Of views of texts: how many buffers, each a column of
    /// values of one byte.
    pub children: u64,
    /// A bit for each row, clear at a null. Of no bytes where no row is null.
    pub valid: &'a [u8],
    /// Of texts and lists: where each row's items begin, and behind the last one where they end. Of
    /// views of lists: where each row's items begin. Of dense unions: which of its child's rows
    /// each row is.
    pub offsets: &'a [u8],
    /// The values, the bits, the bytes of texts, or 16 bytes a view of a text: how many bytes it
    /// has (4 bytes), and then these, up to 12, or 4 that are not looked at, the number of a buffer
    /// (4) and where they begin there (4). Of unions: the id of each row's child, a byte.
    pub values: &'a [u8],
    /// Of views of lists: how many items each row has. Of unions: the id of each child, a byte.
    pub sizes: &'a [u8],
}

/// How many rows a node's rows at picks are, and how many bytes each of their lists has.
#[repr(C)]
#[derive(Clone, Copy)]
pub struct Need {
    /// How many rows.
    pub len: u64,
    /// Bytes of validity; 0 where none is written and no row is null.
    pub valid: u64,
    /// Bytes of offsets.
    pub offsets: u64,
    /// Bytes of values.
    pub values: u64,
    /// Bytes of sizes.
    pub sizes: u64,
}

/// Where a node's rows at picks are written. It crosses a border to C as it stands.
#[repr(C)]
#[derive(Drop)]
pub struct Room<'a> {
    /// For validity.
    pub valid: &'a mut [u8],
    /// For offsets.
    pub offsets: &'a mut [u8],
    /// For values.
    pub values: &'a mut [u8],
    /// For sizes.
    pub sizes: &'a mut [u8],
}
