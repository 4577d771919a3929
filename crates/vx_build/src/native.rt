//! Rust's integers and floats as numbers of a column.
ghost use Rattle.std.specs.Prelude.{◌≡◌, ◌≤◌};
ghost use Rattle.vx_bits.specs.Records.{records_of, width_of};
ghost use Rattle.vx_types.specs.PType.{number, width};

use std::num::{f32_to_bits_with_nan, f64_to_bits_with_nan};
use vx_bits::{Buffer, Records};
use vx_types::PType;

/// An integer or float type of Rust and the primitive type of its values, each of `W` bytes:
/// Vortex's `NativePType`.
pub trait NativePType<const W: usize>: Copy {
    ghost use Rattle.std.specs.Prelude.{ℕ, ℤ, List};
    ghost use Rattle.vx_types.specs.declared.ptype.PType.{PType};

    // the primitive type
    ghost ptype: { PType };

    // the integer that a value is; of a float, the integer that its bits are
    ghost integer: { Self → ℤ };

    // the bytes of a value, the lowest first
    ghost record_of: { Self → List ℕ };

    /// The primitive type.
    fn ptype() -> PType
        ensures value { result ≡ ptype }
        ensures width { width ptype ≡ W }
        ensures narrow { W ≤ 8 };

    /// The bytes of the value, the lowest first.
    fn to_record(self) -> [u8; W]
        ensures value { result ≡ record_of self }
        ensures number { number ptype (record_of self) ≡ integer self };
}

impl NativePType<1> for u8 {
    ghost use Rattle.std.specs.Prelude.{pos};
    ghost use Rattle.std.specs.Int.{to_le_bytes, w8};
    ghost use Rattle.vx_types.specs.declared.ptype.PType.TheVariants.{U8};

    ghost ptype = { U8 };

    ghost integer = { pos };

    ghost record_of = { to_le_bytes w8 };

    fn ptype() -> PType {
        PType::U8
    }

    fn to_record(self) -> [u8; 1] {
        self.to_le_bytes()
    }
}

impl NativePType<1> for i8 {
    ghost use Rattle.std.specs.Int.{cast_unsigned, to_le_bytes, w8};
    ghost use Rattle.vx_types.specs.declared.ptype.PType.TheVariants.{I8};

    ghost ptype = { I8 };

    ghost integer = { λ z. z };

    ghost record_of = { λ z. to_le_bytes w8 (cast_unsigned w8 z) };

    fn ptype() -> PType {
        PType::I8
    }

    fn to_record(self) -> [u8; 1] {
        self.to_le_bytes()
    }
}

impl NativePType<2> for u16 {
    ghost use Rattle.std.specs.Prelude.{pos};
    ghost use Rattle.std.specs.Int.{to_le_bytes, w16};
    ghost use Rattle.vx_types.specs.declared.ptype.PType.TheVariants.{U16};

    ghost ptype = { U16 };

    ghost integer = { pos };

    ghost record_of = { to_le_bytes w16 };

    fn ptype() -> PType {
        PType::U16
    }

    fn to_record(self) -> [u8; 2] {
        self.to_le_bytes()
    }
}

impl NativePType<2> for i16 {
    ghost use Rattle.std.specs.Int.{cast_unsigned, to_le_bytes, w16};
    ghost use Rattle.vx_types.specs.declared.ptype.PType.TheVariants.{I16};

    ghost ptype = { I16 };

    ghost integer = { λ z. z };

    ghost record_of = { λ z. to_le_bytes w16 (cast_unsigned w16 z) };

    fn ptype() -> PType {
        PType::I16
    }

    fn to_record(self) -> [u8; 2] {
        self.to_le_bytes()
    }
}

impl NativePType<4> for u32 {
    ghost use Rattle.std.specs.Prelude.{pos};
    ghost use Rattle.std.specs.Int.{to_le_bytes, w32};
    ghost use Rattle.vx_types.specs.declared.ptype.PType.TheVariants.{U32};

    ghost ptype = { U32 };

    ghost integer = { pos };

    ghost record_of = { to_le_bytes w32 };

    fn ptype() -> PType {
        PType::U32
    }

    fn to_record(self) -> [u8; 4] {
        self.to_le_bytes()
    }
}

impl NativePType<4> for i32 {
    ghost use Rattle.std.specs.Int.{cast_unsigned, to_le_bytes, w32};
    ghost use Rattle.vx_types.specs.declared.ptype.PType.TheVariants.{I32};

    ghost ptype = { I32 };

    ghost integer = { λ z. z };

    ghost record_of = { λ z. to_le_bytes w32 (cast_unsigned w32 z) };

    fn ptype() -> PType {
        PType::I32
    }

    fn to_record(self) -> [u8; 4] {
        self.to_le_bytes()
    }
}

impl NativePType<8> for u64 {
    ghost use Rattle.std.specs.Prelude.{pos};
    ghost use Rattle.std.specs.Int.{to_le_bytes, w64};
    ghost use Rattle.vx_types.specs.declared.ptype.PType.TheVariants.{U64};

    ghost ptype = { U64 };

    ghost integer = { pos };

    ghost record_of = { to_le_bytes w64 };

    fn ptype() -> PType {
        PType::U64
    }

    fn to_record(self) -> [u8; 8] {
        self.to_le_bytes()
    }
}

impl NativePType<8> for i64 {
    ghost use Rattle.std.specs.Int.{cast_unsigned, to_le_bytes, w64};
    ghost use Rattle.vx_types.specs.declared.ptype.PType.TheVariants.{I64};

    ghost ptype = { I64 };

    ghost integer = { λ z. z };

    ghost record_of = { λ z. to_le_bytes w64 (cast_unsigned w64 z) };

    fn ptype() -> PType {
        PType::I64
    }

    fn to_record(self) -> [u8; 8] {
        self.to_le_bytes()
    }
}

// A position: an unsigned number of 64 bits.
impl NativePType<8> for usize {
    ghost use Rattle.std.specs.Prelude.{pos};
    ghost use Rattle.std.specs.Int.{to_le_bytes, w64};
    ghost use Rattle.vx_types.specs.declared.ptype.PType.TheVariants.{U64};

    ghost ptype = { U64 };

    ghost integer = { pos };

    ghost record_of = { to_le_bytes w64 };

    fn ptype() -> PType {
        PType::U64
    }

    fn to_record(self) -> [u8; 8] {
        self.to_le_bytes()
    }
}

// Every NaN is the quiet one whose sign is clear.
impl NativePType<4> for f32 {
    ghost use Rattle.std.specs.Prelude.{pos, to_bits};
    ghost use Rattle.std.specs.Float.{binary32};
    ghost use Rattle.std.specs.Int.{to_le_bytes, w32};
    ghost use Rattle.vx_types.specs.declared.ptype.PType.TheVariants.{F32};

    ghost ptype = { F32 };

    ghost integer = { λ x. pos (to_bits binary32 x) };

    ghost record_of = { λ x. to_le_bytes w32 (to_bits binary32 x) };

    fn ptype() -> PType {
        PType::F32
    }

    fn to_record(self) -> [u8; 4] {
        f32_to_bits_with_nan(self).to_le_bytes()
    }
}

// Every NaN is the quiet one whose sign is clear.
impl NativePType<8> for f64 {
    ghost use Rattle.std.specs.Prelude.{pos, to_bits};
    ghost use Rattle.std.specs.Float.{binary64};
    ghost use Rattle.std.specs.Int.{to_le_bytes, w64};
    ghost use Rattle.vx_types.specs.declared.ptype.PType.TheVariants.{F64};

    ghost ptype = { F64 };

    ghost integer = { λ x. pos (to_bits binary64 x) };

    ghost record_of = { λ x. to_le_bytes w64 (to_bits binary64 x) };

    fn ptype() -> PType {
        PType::F64
    }

    fn to_record(self) -> [u8; 8] {
        f64_to_bits_with_nan(self).to_le_bytes()
    }
}

/// Records of `W` bytes, where [`Records`] has that width.
pub trait RecordWidth<const W: usize>: Copy {
    /// These records, as ones of their width.
    fn records(buffer: Buffer<[u8; W]>) -> Records
        ensures records { records_of result ≡ buffer.entry }
        ensures width { width_of result ≡ W };
}

impl RecordWidth<1> for [u8; 1] {
    fn records(buffer: Buffer<[u8; 1]>) -> Records
        ensures records { records_of result ≡ buffer }
        ensures width { width_of result ≡ 1 }
    {
        Records::W1(buffer)
    }
}

impl RecordWidth<2> for [u8; 2] {
    fn records(buffer: Buffer<[u8; 2]>) -> Records
        ensures records { records_of result ≡ buffer }
        ensures width { width_of result ≡ 2 }
    {
        Records::W2(buffer)
    }
}

impl RecordWidth<4> for [u8; 4] {
    fn records(buffer: Buffer<[u8; 4]>) -> Records
        ensures records { records_of result ≡ buffer }
        ensures width { width_of result ≡ 4 }
    {
        Records::W4(buffer)
    }
}

impl RecordWidth<8> for [u8; 8] {
    fn records(buffer: Buffer<[u8; 8]>) -> Records
        ensures records { records_of result ≡ buffer }
        ensures width { width_of result ≡ 8 }
    {
        Records::W8(buffer)
    }
}
