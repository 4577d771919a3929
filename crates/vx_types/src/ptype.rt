//! The primitive types, and the numbers that their records spell.
ghost use Rattle.std.specs.Prelude.{◌≡◌, ◌≤◌, length, true};
ghost use Rattle.vx_types.specs.PType.{width, is_int, is_signed, number, record_of, least, greatest, is_in_range};

/// A primitive type: Vortex's `PType`.
#[derive(Debug, Clone, Copy, PartialEq, Eq)]
pub enum PType {
    /// Unsigned integers of 8 bits.
    U8,
    /// Unsigned integers of 16 bits.
    U16,
    /// Unsigned integers of 32 bits.
    U32,
    /// Unsigned integers of 64 bits.
    U64,
    /// Signed integers of 8 bits, in two's complement.
    I8,
    /// Signed integers of 16 bits, in two's complement.
    I16,
    /// Signed integers of 32 bits, in two's complement.
    I32,
    /// Signed integers of 64 bits, in two's complement.
    I64,
    /// Floating-point numbers of 16 bits, which are moved as bytes.
    F16,
    /// Floating-point numbers of 32 bits, which are moved as bytes.
    F32,
    /// Floating-point numbers of 64 bits, which are moved as bytes.
    F64,
}

/// Writes one arm for each integer type: `match_each_integer_ptype!(ptype, with, args)` is
/// `with!(u8, args)` where the type is `U8`, and so on. Vortex's macro of this name takes a
/// closure-like body in place of a macro's name. The type is known to be one of these.
#[macro_export]
macro_rules! match_each_integer_ptype {
    ($ptype:expr, $with:ident $(, $arg:expr)*) => {
        match $ptype {
            $crate::PType::U8 => $with!(u8 $(, $arg)*),
            $crate::PType::U16 => $with!(u16 $(, $arg)*),
            $crate::PType::U32 => $with!(u32 $(, $arg)*),
            $crate::PType::U64 => $with!(u64 $(, $arg)*),
            $crate::PType::I8 => $with!(i8 $(, $arg)*),
            $crate::PType::I16 => $with!(i16 $(, $arg)*),
            $crate::PType::I32 => $with!(i32 $(, $arg)*),
            $crate::PType::I64 => $with!(i64 $(, $arg)*),
            $crate::PType::F16 | $crate::PType::F32 | $crate::PType::F64 => unreachable!(),
        }
    };
}

macro_rules! number_by {
    ($ty:ty, $bytes:expr) => {
        i128::from(<$ty>::from_le_bytes(as_array($bytes)))
    };
}

impl PType {
    /// How many bytes a value has: Vortex's `byte_width`.
    pub fn width(self) -> usize
        ensures { result ≡ width self }
    {
        match self {
            PType::U8 | PType::I8 => 1,
            PType::U16 | PType::I16 | PType::F16 => 2,
            PType::U32 | PType::I32 | PType::F32 => 4,
            PType::U64 | PType::I64 | PType::F64 => 8,
        }
    }

    /// Whether its values are integers.
    pub fn is_int(self) -> bool
        ensures { result ≡ is_int self }
    {
        !matches!(self, PType::F16 | PType::F32 | PType::F64)
    }

    /// Whether its values are signed integers.
    pub fn is_signed(self) -> bool
        ensures { result ≡ is_signed self }
    {
        match self {
            PType::I8 | PType::I16 | PType::I32 | PType::I64 => true,
            _ => false,
        }
    }
}

impl PType {
    // The least number of an integer type.
    fn least(self) -> i128
        requires { is_int self ≡ true }
        ensures { result ≡ least self }
    {
        match self {
            PType::U8 | PType::U16 | PType::U32 | PType::U64 => 0,
            PType::I8 => i8::MIN as i128,
            PType::I16 => i16::MIN as i128,
            PType::I32 => i32::MIN as i128,
            PType::I64 => i64::MIN as i128,
            PType::F16 | PType::F32 | PType::F64 => unreachable!(),
        }
    }

    // The greatest number of an integer type.
    fn greatest(self) -> i128
        requires { is_int self ≡ true }
        ensures { result ≡ greatest self }
    {
        match self {
            PType::U8 => u8::MAX as i128,
            PType::U16 => u16::MAX as i128,
            PType::U32 => u32::MAX as i128,
            PType::U64 => u64::MAX as i128,
            PType::I8 => i8::MAX as i128,
            PType::I16 => i16::MAX as i128,
            PType::I32 => i32::MAX as i128,
            PType::I64 => i64::MAX as i128,
            PType::F16 | PType::F32 | PType::F64 => unreachable!(),
        }
    }

    /// Whether it is a number of the type; none is one of a floating type.
    pub fn is_in_range(self, number: i128) -> bool
        ensures { result ≡ is_in_range self number }
    {
        if !self.is_int() {
            return false;
        }
        self.least() <= number && number <= self.greatest()
    }

    /// The number that a record's bytes spell: little-endian, in two's complement where the type
    /// is signed.
    #[inline(always)]
    pub fn number(self, bytes: &[u8]) -> i128
        requires int { is_int self ≡ true }
        requires width { length bytes.now ≡ width self }
        ensures { result ≡ number self bytes.now }
    {
        match_each_integer_ptype!(self, number_by, bytes)
    }
}

// These bytes, of which there are just W.
fn as_array<const W: usize>(bytes: &[u8]) -> [u8; W]
    requires { length bytes.now ≡ W }
    ensures { result ≡ bytes.now }
{
    let mut array = [0; W];
    array.copy_from_slice(bytes);
    array
}

/// The record that stores a number: its lowest W bytes in two's complement, little-endian.
pub fn record_of<const W: usize>(number: i128) -> [u8; W]
    requires { W ≤ 16 }
    ensures { result ≡ record_of W number }
{
    as_array(&number.cast_unsigned().to_le_bytes()[..W])
}
