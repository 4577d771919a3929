//! What the header of a file states.
ghost use Rattle.std.specs.Prelude.{◌≡◌, ◌<◌, ◌≤◌, MatchOption, drop, length, true};
ghost use Rattle.std.specs.Int.{to_le_bytes, w64};
ghost use Rattle.vx_types.specs.PType.{width};
ghost use Rattle.vx_packed.specs.Faults.{is_width};
ghost use Rattle.vx_file.specs.Shape.{IsNoHeader, header, is_unsigned, type_byte};

use std::marker::Model;
use vx_column::PType;

// The first bytes of each file.
const MAGIC: [u8; 8] = *b"VXCOL001";

// As many rows as a file may have.
const MOST_ROWS: u64 = 16_777_216;

/// The type and the number of the rows of a file: the type is unsigned, and there are at most
/// 16,777,216 rows.
#[derive(Drop)]
pub struct FileShape {
    ptype: PType,
    len: usize,
}

impl Model for FileShape {
    ghost use Rattle.vx_file.specs.Shape.{IsShape, ShapeValue, coded_shape};

    ghost Value = { ShapeValue };

    ghost coded = { coded_shape };

    ghost view = { λ s. record { ptype = s.ptype; len = s.len } };

    ghost invariant = { λ s. IsShape (record { ptype = s.ptype; len = s.len }) };
}

impl FileShape {
    /// The type of the rows, which are never null.
    pub fn ptype(&self) -> PType
        ensures value { result ≡ self.now.ptype }
        ensures unsigned { is_unsigned result ≡ true }
        ensures width { is_width (width result) ≡ true }
    {
        self.ptype
    }

    /// The number of rows.
    pub fn len(&self) -> usize
        ensures value { result ≡ self.now.len }
        ensures short { result ≤ 16777216 }
    {
        self.len
    }

    /// What a header states, where the bytes are one.
    pub(crate) fn from_header(bytes: &[u8]) -> Option<FileShape>
        ensures { MatchOption result (IsNoHeader bytes.now) (λ s. bytes.now ≡ header s) }
    {
        if bytes.len() != 17 {
            return None;
        }
        if bytes[..8] != MAGIC[..] {
            return None;
        }
        let Some(ptype) = type_of_byte(bytes[8]) else {
            return None;
        };
        let len = len_in(bytes);
        if len > MOST_ROWS {
            return None;
        }
        Some(FileShape {
            ptype,
            len: len as usize,
        })
    }
}

// The type that a header's byte stands for.
fn type_of_byte(byte: u8) -> Option<PType>
    ensures { MatchOption result (3 < byte)
        (λ p. (type_byte p ≡ byte) × (is_unsigned p ≡ true)) }
{
    match byte {
        0 => Some(PType::U8),
        1 => Some(PType::U16),
        2 => Some(PType::U32),
        3 => Some(PType::U64),
        _ => None,
    }
}

// The number of rows in a header.
fn len_in(bytes: &[u8]) -> u64
    requires { length bytes.now ≡ 17 }
    ensures { to_le_bytes w64 result ≡ drop 9 bytes.now }
{
    u64::from_le_bytes([
        bytes[9], bytes[10], bytes[11], bytes[12], bytes[13], bytes[14], bytes[15], bytes[16],
    ])
}
