//! Bytes as hexadecimal digits, and how long a text may grow.
ghost use Rattle.std.specs.Prelude.{◌≡◌, ◌++◌, ◌≤◌, length, true, IsOk};
ghost use Rattle.vx_quote.specs.Quoted.{hex_text};

use hex::encode_to_slice;
use vx_bits::NoMemory;

/// How many bytes of text there may be, with the stored ones of the row that is begun: a short
/// document can name a text or a list of any length.
pub const TEXT_BYTES: usize = 1 << 31;

/// Appends bytes in hexadecimal digits. Fails only with `NoMemory`.
pub fn push_digits(text: &mut Vec<u8>, bytes: &[u8]) -> Result<(), NoMemory>
    requires { length bytes.now ≤ TEXT_BYTES }
    ensures { IsOk result → text.new.items ≡ text.old.items ++ hex_text bytes.now }
{
    text.extend_from_slice(b"0x")?;
    let start = text.len();
    text.resize(start + 2 * bytes.len(), 0)?;
    let Ok(()) = encode_to_slice(bytes, &mut text[start..]) else {
        unreachable!();
    };
    Ok(())
}

/// Whether a row that has so many stored bytes may be begun behind a text of `len`.
#[inline(always)]
pub fn has_room(len: usize, more: usize) -> bool
    ensures { result ≡ true → more ≤ TEXT_BYTES }
{
    len <= TEXT_BYTES && more <= TEXT_BYTES - len
}
