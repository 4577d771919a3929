//! Texts of rows, each written so that it ends where what is behind it begins.
ghost use Rattle.std.specs.Prelude.{◌≡◌, ◌+◌, ◌≤◌, ◌++◌, length, drop, decimal, true};
ghost use Rattle.std.specs.Fmt.{signed_decimal};
ghost use Rattle.vx_types.specs.PType.{width, number, is_int};
ghost use Rattle.vx_quote.specs.Quoted.{hex_text};

use hex::encode_to_slice;
use itoa::write_digits;
use vx_column::PType;

/// How many rows a block has.
pub(crate) const BLOCK: usize = 64;

/// How many bytes a row takes at most: `0x`, and two digits for each of 32 bytes.
pub(crate) const ROW: usize = 66;

/// How many bytes the rows of a block take at most, with a line end behind each, or `, ` between
/// two of them.
pub(crate) const ROOM: usize = BLOCK * (ROW + 2);

#[inline(always)]
fn as_array<const W: usize>(bytes: &[u8]) -> [u8; W]
    requires { length bytes.now ≡ W }
    ensures { result ≡ bytes.now }
{
    let mut array = [0; W];
    array.copy_from_slice(bytes);
    array
}

/// Writes a word so that it ends at `end`, and answers where it begins.
#[inline(always)]
pub(crate) fn put_word(word: &[u8], dst: &mut [u8; ROOM], end: usize) -> usize
    requires room { length word.now ≤ end }
    requires within { end ≤ ROOM }
    ensures start { result + length word.now ≡ end }
    ensures put { drop result dst.new ≡ word.now ++ drop end dst.old }
{
    let start = end - word.len();
    dst[start..end].copy_from_slice(word);
    start
}

/// Writes bytes in hexadecimal digits so that they end at `end`, and returns where they begin.
#[inline(always)]
pub(crate) fn put_hex(bytes: &[u8], dst: &mut [u8; ROOM], end: usize) -> usize
    requires short { length bytes.now ≤ 32 }
    requires room { ROW ≤ end }
    requires within { end ≤ ROOM }
    ensures room { end ≤ result + ROW }
    ensures within { result ≤ end }
    ensures put { drop result dst.new ≡ hex_text bytes.now ++ drop end dst.old }
{
    let start = end - 2 * bytes.len();
    let Ok(()) = encode_to_slice(bytes, &mut dst[start..end]) else {
        unreachable!();
    };
    put_word(b"0x", dst, start)
}

/// Writes a number in decimal digits so that it ends at `end`, and returns where it begins.
#[inline(always)]
pub(crate) fn put_unsigned(number: u64, dst: &mut [u8; ROOM], end: usize) -> usize
    requires room { ROW ≤ end }
    requires within { end ≤ ROOM }
    ensures room { end ≤ result + ROW }
    ensures within { result ≤ end }
    ensures put { drop result dst.new ≡ decimal number ++ drop end dst.old }
{
    write_digits(number, dst, end)
}

// Writes a number in decimal digits, with a sign before a negative one, so that it ends at `end`,
// and returns where it begins.
#[inline(always)]
fn put_signed(number: i64, dst: &mut [u8; ROOM], end: usize) -> usize
    requires room { ROW ≤ end }
    requires within { end ≤ ROOM }
    ensures room { end ≤ result + ROW }
    ensures within { result ≤ end }
    ensures put { drop result dst.new ≡ signed_decimal number ++ drop end dst.old }
{
    let start = write_digits(number.unsigned_abs(), dst, end);
    if number >= 0 {
        return start;
    }
    dst[start - 1] = b'-';
    start - 1
}

// Writes the number that a record of type `$ty` spells.
macro_rules! put_by {
    ($put:ident, $wide:ty, $ty:ty, $record:expr, $dst:expr, $end:expr) => {
        $put(<$wide>::from(<$ty>::from_le_bytes(as_array($record))), $dst, $end)
    };
}

/// Writes the number of a record of integer type so that it ends at `end`, and returns where it
/// begins.
#[inline(always)]
pub(crate) fn put_number(ptype: PType, value: &[u8], dst: &mut [u8; ROOM], end: usize) -> usize
    requires int { is_int ptype ≡ true }
    requires width { length value.now ≡ width ptype }
    requires room { ROW ≤ end }
    requires within { end ≤ ROOM }
    ensures room { end ≤ result + ROW }
    ensures within { result ≤ end }
    ensures put { drop result dst.new
        ≡ signed_decimal (number ptype value.now) ++ drop end dst.old }
{
    match ptype {
        PType::U8 => put_by!(put_unsigned, u64, u8, value, dst, end),
        PType::U16 => put_by!(put_unsigned, u64, u16, value, dst, end),
        PType::U32 => put_by!(put_unsigned, u64, u32, value, dst, end),
        PType::U64 => put_by!(put_unsigned, u64, u64, value, dst, end),
        PType::I8 => put_by!(put_signed, i64, i8, value, dst, end),
        PType::I16 => put_by!(put_signed, i64, i16, value, dst, end),
        PType::I32 => put_by!(put_signed, i64, i32, value, dst, end),
        PType::I64 => put_by!(put_signed, i64, i64, value, dst, end),
        PType::F16 | PType::F32 | PType::F64 => unreachable!(),
    }
}
