//! What comes beside a node, and what is wrong with a node.

/// What Arrow's structs say of a node that its image doesn't have. It crosses a border to C as it
/// stands.
#[repr(C)]
#[derive(Clone, Copy)]
pub struct Extra {
    /// Arrow's `null_count`: how many rows are null, or `u64::MAX` where Arrow has -1.
    pub null_count: u64,
    /// How codes of a dictionary are read: 0 there is no dictionary, 1 unsigned, 2 signed.
    pub codes: u64,
    /// How many values the dictionary has.
    pub values: u64,
    /// 0, or another number for a map.
    pub map: u64,
}

/// A rule of Arrow's format.
#[derive(Debug, Clone, Copy, PartialEq, Eq)]
pub enum Rule {
    /// `null_count` is the number of nulls.
    NullCount,
    /// A row that isn't null has the code of a value of the dictionary.
    Codes,
    /// A map's entries are structs of a key and a value, and neither entries nor keys are null.
    Map,
    /// A string view is padded with zeros, or lies within a data buffer and has its first four
    /// bytes.
    Views,
    /// A list view lies within the child.
    ListViews,
    /// The offsets of a dense union do not descend within a child.
    Dense,
}

/// A node, counted from 0, and the first rule that it breaks.
#[derive(Debug, Clone, Copy, PartialEq, Eq)]
pub struct Flaw {
    pub node: usize,
    pub rule: Rule,
}
