//! The line of a broken step, written without memory.
ghost use Rattle.std.specs.Prelude.{◌≡◌, ◌+◌, ◌≤◌, ◌++◌, length, take, decimal};
ghost use Rattle.std.specs.Fmt.{signed_decimal};
ghost use Rattle.vx_steps.specs.Fault.{fault_text};
ghost use Rattle.vx_steps.specs.Messages.{cause_text};

use crate::cause::Cause;
use itoa::Buffer;

/// How many bytes the line of a broken step has room for.
pub const FAULT_ROOM: usize = 160;

// Writes a part of the line behind what is there, and answers where it ends.
fn put(dst: &mut [u8; FAULT_ROOM], at: usize, part: &str) -> usize
    requires { at + length part.now ≤ FAULT_ROOM }
    ensures len { result ≡ at + length part.now }
    ensures put { take result dst.new ≡ take at dst.old ++ part.now }
{
    let end = at + part.len();
    dst[at..end].copy_from_slice(part.as_bytes());
    end
}

// Writes a number in decimal digits behind what is there, and returns where it ends.
fn put_number(dst: &mut [u8; FAULT_ROOM], at: usize, number: usize) -> usize
    requires { at + 20 ≤ FAULT_ROOM }
    ensures len { result ≤ at + 20 }
    ensures put { take result dst.new ≡ take at dst.old ++ decimal number }
{
    let mut buffer = Buffer::new();
    put(dst, at, buffer.format(number))
}

// Writes a part of the line and a number behind what is there, and returns where they end.
fn put_counted(dst: &mut [u8; FAULT_ROOM], at: usize, part: &str, number: usize) -> usize
    requires { at + length part.now + 20 ≤ FAULT_ROOM }
    ensures len { result ≤ at + length part.now + 20 }
    ensures put { take result dst.new ≡ take at dst.old ++ part.now ++ decimal number }
{
    let at = put(dst, at, part);
    put_number(dst, at, number)
}

// Writes an index, which may be negative, behind what is there, and returns where it ends.
fn put_index(dst: &mut [u8; FAULT_ROOM], at: usize, index: &i128) -> usize
    requires { at + 40 ≤ FAULT_ROOM }
    ensures len { result ≤ at + 40 }
    ensures put { take result dst.new ≡ take at dst.old ++ signed_decimal index.now }
{
    let mut buffer = Buffer::new();
    put(dst, at, buffer.format(*index))
}

// Writes a broken rule behind what is there, at most 30 bytes, and returns where it ends.
fn put_cause(dst: &mut [u8; FAULT_ROOM], at: usize, cause: &Cause) -> usize
    requires { at ≤ 30 }
    ensures len { result ≤ at + 80 }
    ensures put { take result dst.new ≡ take at dst.old ++ cause_text cause.now }
{
    match cause {
        Cause::BadRange { start, end, len } => {
            let at = put_counted(dst, at, "BadRange ", *start);
            let at = put_counted(dst, at, "..", *end);
            put_counted(dst, at, " of ", *len)
        }
        Cause::BadMask { mask_len, len } => {
            let at = put_counted(dst, at, "BadMask ", *mask_len);
            put_counted(dst, at, " of ", *len)
        }
        Cause::NotBool => put(dst, at, "NotBool"),
        Cause::InvalidIndices => put(dst, at, "InvalidIndices"),
        Cause::BadPieces => put(dst, at, "BadPieces"),
        Cause::OutOfBounds { index, len } => {
            let at = put(dst, at, "OutOfBounds ");
            let at = put_index(dst, at, index);
            put_counted(dst, at, " of ", *len)
        }
    }
}

/// Writes the line of a broken step, counted from 0, and its cause to the front of `dst`, and
/// answers its length.
pub fn fault_line(step: usize, cause: &Cause, dst: &mut [u8; FAULT_ROOM]) -> usize
    ensures len { result ≤ FAULT_ROOM }
    ensures text { take result dst.new ≡ fault_text step cause.now }
{
    let at = put_counted(dst, 0, "step ", step);
    let at = put(dst, at, ": ");
    let at = put_cause(dst, at, cause);
    put(dst, at, "\n")
}
