//! One step as it lies in the caller's memory.
ghost use Rattle.std.specs.Prelude.{◌≡◌};
ghost use Rattle.vx_arrow.specs.Image.{kind_in, ptype_in};

use vx_types::PType;

/// One step, in numbers and borrowed bytes. It crosses a border to C as it stands.
///
/// A field that the step's kind doesn't name is never looked at. Bits are numbered from the least
/// significant of each byte on, numbers are little-endian, and lists may be longer than is needed.
#[repr(C)]
#[derive(Clone, Copy)]
pub struct StepImage<'a> {
    /// 0 a slice, 1 a filter, 2 a take, 3 a take by pieces.
    pub kind: u64,
    /// Of a slice: the first row.
    pub start: u64,
    /// Of a slice: the row after the last one.
    pub end: u64,
    /// Of a take, the type of its numbers: 0 to 3 unsigned of 8, 16, 32 and 64 bits, 4 to 7 signed,
    /// 8 to 10 floating of 16, 32 and 64 bits.
    pub ptype: u64,
    /// Of all but a slice: where its bits, numbers or pieces begin in their lists.
    pub offset: u64,
    /// Of all but a slice: how many bits, numbers or pieces it has.
    pub len: u64,
    /// Of a take by pieces: how many numbers the pieces are said to have.
    pub declared: u64,
    /// The bits of a filter, the numbers of a take, or where each piece starts, of 64 bits.
    pub values: &'a [u8],
    /// Of a filter or a take: a bit for each bit or number, clear at a null. Of no bytes where none
    /// is null.
    pub valid: &'a [u8],
    /// Of a take by pieces: how many numbers each piece has, of 64 bits.
    pub lengths: &'a [u8],
    /// Of a take by pieces: how far apart the numbers of each piece are, of 64 bits.
    pub multipliers: &'a [u8],
}

/// What a step does.
#[derive(Clone, Copy)]
pub(crate) enum StepKind {
    Slice,
    Filter,
    Take,
    TakePieces,
}

/// The kind that a number names.
pub(crate) fn kind_of(code: u64) -> Option<StepKind>
    ensures { result ≡ kind_in code }
{
    match code {
        0 => Some(StepKind::Slice),
        1 => Some(StepKind::Filter),
        2 => Some(StepKind::Take),
        3 => Some(StepKind::TakePieces),
        _ => None,
    }
}

/// The type that a number names.
pub(crate) fn ptype_of(code: u64) -> Option<PType>
    ensures { result ≡ ptype_in code }
{
    match code {
        0 => Some(PType::U8),
        1 => Some(PType::U16),
        2 => Some(PType::U32),
        3 => Some(PType::U64),
        4 => Some(PType::I8),
        5 => Some(PType::I16),
        6 => Some(PType::I32),
        7 => Some(PType::I64),
        8 => Some(PType::F16),
        9 => Some(PType::F32),
        10 => Some(PType::F64),
        _ => None,
    }
}
