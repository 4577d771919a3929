//! Lists of records of one of six widths.
ghost use Rattle.std.specs.Prelude.{◌≡◌, ◌<◌, ◌≤◌, [], length, slice_index_or, slice_range};
ghost use Rattle.vx_bits.specs.Records.{records_of, width_of};

use crate::buffer::Buffer;
use crate::record::Record;

/// A list of records that are all of one width: 1, 2, 4, 8, 16 or 32 bytes.
#[derive(Drop)]
pub enum Records {
    /// Records of 1 byte.
    W1(Buffer<[u8; 1]>),
    /// Records of 2 bytes.
    W2(Buffer<[u8; 2]>),
    /// Records of 4 bytes.
    W4(Buffer<[u8; 4]>),
    /// Records of 8 bytes.
    W8(Buffer<[u8; 8]>),
    /// Records of 16 bytes.
    W16(Buffer<[u8; 16]>),
    /// Records of 32 bytes.
    W32(Buffer<[u8; 32]>),
}

/// Writes one arm for each width: `match_each_record_width!(records, buffer => body)` is the
/// body with `buffer` as the buffer of the width that `records` has.
#[macro_export]
macro_rules! match_each_record_width {
    ($records:expr, $buffer:ident => $body:expr) => {
        match $records {
            $crate::Records::W1($buffer) => $body,
            $crate::Records::W2($buffer) => $body,
            $crate::Records::W4($buffer) => $body,
            $crate::Records::W8($buffer) => $body,
            $crate::Records::W16($buffer) => $body,
            $crate::Records::W32($buffer) => $body,
        }
    };
}

/// Writes one arm for each width: `map_each_record_width!(records, buffer => body)` is the body as
/// `Records`, with `buffer` as the buffer of the width that `records` has. The body is a buffer of
/// records of that width.
#[macro_export]
macro_rules! map_each_record_width {
    ($records:expr, $buffer:ident => $body:expr) => {
        match $records {
            $crate::Records::W1($buffer) => $crate::Records::W1($body),
            $crate::Records::W2($buffer) => $crate::Records::W2($body),
            $crate::Records::W4($buffer) => $crate::Records::W4($body),
            $crate::Records::W8($buffer) => $crate::Records::W8($body),
            $crate::Records::W16($buffer) => $crate::Records::W16($body),
            $crate::Records::W32($buffer) => $crate::Records::W32($body),
        }
    };
}

impl Records {
    /// The number of records.
    pub fn len(&self) -> usize
        ensures { result ≡ length (records_of self.now) }
    {
        match_each_record_width!(self, buffer => buffer.len())
    }

    /// The number of bytes of each record.
    pub fn width(&self) -> usize
        ensures { result ≡ width_of self.now }
    {
        match self {
            Records::W1(_) => 1,
            Records::W2(_) => 2,
            Records::W4(_) => 4,
            Records::W8(_) => 8,
            Records::W16(_) => 16,
            Records::W32(_) => 32,
        }
    }

    /// The bytes of record `i`.
    pub fn record_bytes(&self, i: usize) -> &[u8]
        requires { i < length (records_of self.now) }
        ensures value { result.now ≡ slice_index_or (records_of self.now) i [] }
        ensures width { length result.now ≡ width_of self.now }
    {
        match_each_record_width!(self, buffer => buffer.as_slice()[i].bytes())
    }

    /// The records from `start` up to `end`, which it leaves out.
    pub fn slice(&self, start: usize, end: usize) -> Records
        requires ordered { start ≤ end }
        requires within { end ≤ length (records_of self.now) }
        ensures records { records_of result ≡ slice_range (records_of self.now) start end }
        ensures width { width_of result ≡ width_of self.now }
    {
        map_each_record_width!(self, buffer => buffer.slice(start, end))
    }

    /// Another handle to the same records.
    pub fn share(&self) -> Records
        ensures { result ≡ self.now }
    {
        map_each_record_width!(self, buffer => buffer.share())
    }
}
