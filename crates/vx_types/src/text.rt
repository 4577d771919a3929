//! Text: its kinds, and the views that a column keeps of it.
ghost use Rattle.std.specs.Prelude.{◌≡◌, ◌+◌, ◌<◌, ◌≤◌, ◌^◌, length, take, true};
ghost use Rattle.vx_types.specs.DType.{type_of};
ghost use Rattle.vx_types.specs.Text.{inline_text, is_text_at, is_view, text_kind, view_of, view_text};

use crate::dtype::DType;
use crate::nullability::Nullability;
use vx_bits::Buffer;

/// What the rows of a column of text are.
#[derive(Debug, Clone, Copy, PartialEq, Eq)]
pub enum TextKind {
    /// Text that is printed in quotes. Whether it is UTF-8 isn't tested.
    Utf8,
    /// Any bytes.
    Binary,
}

impl TextKind {
    /// The type of a column of such rows.
    pub fn dtype(self, nullability: Nullability) -> DType
        ensures { type_of result ≡ record { kind = text_kind self; nullability = nullability } }
    {
        match self {
            TextKind::Utf8 => DType::Utf8(nullability),
            TextKind::Binary => DType::Binary(nullability),
        }
    }
}

/// At most twelve bytes, in the view itself. No call looks at those past `len`.
#[derive(Clone, Copy)]
pub struct InlineBytes {
    /// How many of them are the text.
    pub len: u8,
    /// The text, and whatever follows it.
    pub bytes: [u8; 12],
}

/// The text of one row, or where it stands: Vortex's `BinaryView`.
#[derive(Clone, Copy)]
pub enum BinaryView {
    /// A text of at most twelve bytes.
    Inlined(InlineBytes),
    /// A longer one.
    Ref {
        /// How many bytes it has.
        len: u32,
        /// The first four of them.
        prefix: [u8; 4],
        /// The number of the buffer that holds it.
        buffer: u32,
        /// Where it begins there.
        offset: u32,
    },
}

// The first bytes of a text, of which it has more than twelve.
fn prefix_of(value: &[u8]) -> [u8; 4]
    requires { 12 < length value.now }
    ensures { result ≡ take 4 value.now }
{
    let mut prefix = [0; 4];
    prefix.copy_from_slice(&value[..4]);
    prefix
}

// A text of at most twelve bytes, with zeros past its end.
fn inline_bytes(value: &[u8]) -> InlineBytes
    requires { length value.now ≤ 12 }
    ensures { result ≡ inline_text value.now }
{
    let mut bytes = [0; 12];
    bytes[..value.len()].copy_from_slice(value);
    InlineBytes {
        len: value.len() as u8,
        bytes,
    }
}

impl BinaryView {
    /// The view of a text that stands at `offset` in the buffer of that number: the text itself
    /// where it has at most twelve bytes.
    pub fn make_view(value: &[u8], buffer: u32, offset: u32) -> BinaryView
        requires { length value.now < 2 ^ 32 }
        ensures { result ≡ view_of value.now buffer offset }
    {
        if value.len() <= 12 {
            return BinaryView::Inlined(inline_bytes(value));
        }
        BinaryView::Ref {
            len: value.len() as u32,
            prefix: prefix_of(value),
            buffer,
            offset,
        }
    }

    /// Whether it is a view of a text: at most twelve bytes in itself, or more that stand in one of
    /// these buffers, the first four as they are told.
    pub fn is_view_of(&self, buffers: &[Buffer<u8>]) -> bool
        ensures { result ≡ is_view buffers.now self.now }
    {
        match self {
            BinaryView::Inlined(inline) => inline.len <= 12,
            BinaryView::Ref {
                len,
                prefix,
                buffer,
                offset,
            } => match buffers.get(*buffer as usize) {
                Some(bytes) => is_text_at(
                    bytes.as_slice(),
                    *len as usize,
                    prefix,
                    *offset as usize,
                ),
                None => false,
            },
        }
    }

    /// The bytes of the text that the view is of.
    pub fn text<'a>(&'a self, buffers: &'a [Buffer<u8>]) -> &'a [u8]
        requires { is_view buffers.now self.now ≡ true }
        ensures { result.now ≡ view_text buffers.now self.now }
    {
        match self {
            BinaryView::Inlined(inline) => &inline.bytes[..inline.len as usize],
            BinaryView::Ref {
                len,
                prefix: _,
                buffer,
                offset,
            } => {
                let start = *offset as usize;
                &buffers[*buffer as usize].as_slice()[start..start + *len as usize]
            }
        }
    }
}

// Whether a text of more than twelve bytes stands there, and begins so.
fn is_text_at(bytes: &[u8], len: usize, prefix: &[u8; 4], offset: usize) -> bool
    requires { offset + len < 2 ^ 64 }
    ensures { result ≡ is_text_at bytes.now len prefix.now offset }
{
    12 < len && offset + len <= bytes.len() && bytes[offset..offset + 4] == prefix[..]
}
