//! Records that no number is as wide as.

/// A record of 16 bytes.
#[repr(C)]
#[derive(Clone, Copy)]
pub struct Record16 {
    pub low: u64,
    pub high: u64,
}

impl Record16 {
    /// The record of which each byte is zero.
    pub const ZERO: Record16 = Record16 { low: 0, high: 0 };
}

/// A record of 32 bytes.
#[repr(C)]
#[derive(Clone, Copy)]
pub struct Record32 {
    pub a: u64,
    pub b: u64,
    pub c: u64,
    pub d: u64,
}

impl Record32 {
    /// The record of which each byte is zero.
    pub const ZERO: Record32 = Record32 {
        a: 0,
        b: 0,
        c: 0,
        d: 0,
    };
}
