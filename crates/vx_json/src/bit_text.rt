//! Texts of `0` and `1`, as bits.
ghost use Rattle.std.specs.Prelude.{◌≡◌, ◌%◌, ◌<◌, ◌≤◌, IfOk, length};
ghost use Rattle.vx_bits.specs.Words.{word_bits};
ghost use Rattle.vx_json.specs.Meaning.{Gives, Leaves, with_read};
ghost use Rattle.vx_json.specs.BitText.{bit_named, bits_in};

use crate::error::DocError;
use crate::offsets::{builder_at, finished_at};
use std::alloc::Global;
use vx_bits::{BitBuffer, BitBuilder};

/// The bit that a digit names.
fn bit_named(byte: u8) -> Result<bool, DocError>
    ensures { Gives (λ b. b) result (bit_named byte) }
{
    match byte {
        b'0' => Ok(false),
        b'1' => Ok(true),
        _ => Err(DocError::Malformed),
    }
}

/// The bits that eight digits name, the first one lowest. All eight are looked at as one word, in
/// which a multiplication moves the lowest bit of each into the highest byte.
#[inline(always)]
fn byte_named(digits: &[u8]) -> Result<u64, DocError>
    requires { length digits.now ≡ 8 }
    ensures bits { Gives (λ b. word_bits b 8) result (bits_in digits.now) }
    ensures byte { IfOk result (λ b. b < 256) }
{
    let mut bytes = [0; 8];
    bytes.copy_from_slice(digits);
    let word = u64::from_le_bytes(bytes);
    if word & 0xfefe_fefe_fefe_fefe != 0x3030_3030_3030_3030 {
        return Err(DocError::Malformed);
    }
    Ok((word & 0x0101_0101_0101_0101).wrapping_mul(0x0102_0408_1020_4080) >> 56)
}

/// The bits that 64 digits name, the first one lowest.
#[inline(always)]
fn word_named(digits: &[u8]) -> Result<u64, DocError>
    requires { length digits.now ≡ 64 }
    ensures { Gives (λ w. word_bits w 64) result (bits_in digits.now) }
{
    let mut word = 0;
    for k in 0..8usize {
        word += byte_named(&digits[8 * k..8 * k + 8])? << (8 * k);
    }
    Ok(word)
}

/// Appends the bits that the digits name, 64 at a time.
fn append_words(bits: &mut BitBuilder, text: &[u8]) -> Result<(), DocError>
    requires { length text.now % 64 ≡ 0 }
    ensures { Leaves result bits.new (with_read bits.old (bits_in text.now)) }
{
    for i in 0..text.len() / 64 {
        bits.append_word(word_named(&text[64 * i..64 * i + 64])?, 64)?;
    }
    Ok(())
}

/// Appends the bits that the digits name, eight at a time.
fn append_bytes(bits: &mut BitBuilder, text: &[u8]) -> Result<(), DocError>
    requires { length text.now % 8 ≡ 0 }
    ensures { Leaves result bits.new (with_read bits.old (bits_in text.now)) }
{
    for i in 0..text.len() / 8 {
        bits.append_word(byte_named(&text[8 * i..8 * i + 8])?, 8)?;
    }
    Ok(())
}

/// Appends the bits that the digits name, one at a time.
fn append_digits(bits: &mut BitBuilder, text: &[u8]) -> Result<(), DocError>
    ensures { Leaves result bits.new (with_read bits.old (bits_in text.now)) }
{
    for byte in text {
        bits.append(bit_named(*byte)?)?;
    }
    Ok(())
}

/// Appends the bits that a few digits name, by bytes and then one at a time.
fn append_few(bits: &mut BitBuilder, text: &[u8]) -> Result<(), DocError>
    ensures { Leaves result bits.new (with_read bits.old (bits_in text.now)) }
{
    let whole = text.len() - text.len() % 8;
    append_bytes(bits, &text[..whole])?;
    append_digits(bits, &text[whole..])
}

/// Appends the bits that the digits name, by words and then a few.
fn append_text(bits: &mut BitBuilder, text: &[u8]) -> Result<(), DocError>
    ensures { Leaves result bits.new (with_read bits.old (bits_in text.now)) }
{
    let whole = text.len() - text.len() % 64;
    append_words(bits, &text[..whole])?;
    append_few(bits, &text[whole..])
}

/// The bits that digits `0` and `1` name, the first one at that offset in its byte. `Malformed`
/// where one is no digit.
pub fn bits_in(alloc: Global, text: &[u8], offset: usize) -> Result<BitBuffer, DocError>
    requires { offset ≤ 7 }
    ensures bits { Gives (λ b. b.bits) result (bits_in text.now) }
    ensures offset { IfOk result (λ b. b.offset ≡ offset) }
{
    let mut bits = builder_at(alloc, offset, offset + text.len())?;
    append_text(&mut bits, text)?;
    Ok(finished_at(bits, offset)?)
}
