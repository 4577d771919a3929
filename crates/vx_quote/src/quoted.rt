//! Bytes between quotes.
ghost use Rattle.std.specs.Prelude.{◌≡◌, ◌+◌, ◌++◌, ◌<◌, ◌≤◌, length, flat_map};
ghost use Rattle.std.specs.Prelude.{false, vec_len, vec_capacity, IsOk};
ghost use Rattle.std.specs.List.{list_all};
ghost use Rattle.vx_quote.specs.Quoted.{is_plain, quoted_byte, quoted_text};

use vx_bits::NoMemory;

const DIGITS: &[u8; 16] = b"0123456789abcdef";

const T: bool = true;

const F: bool = false;

// For each byte whether it stands for itself between quotes.
static PLAIN: [bool; 256] = [
    F, F, F, F, F, F, F, F, F, F, F, F, F, F, F, F, F, F, F, F, F, F, F, F, F, F, F, F, F, F, F, F,
    T, T, F, T, T, T, T, T, T, T, T, T, T, T, T, T, T, T, T, T, T, T, T, T, T, T, T, T, T, T, T, T,
    T, T, T, T, T, T, T, T, T, T, T, T, T, T, T, T, T, T, T, T, T, T, T, T, T, T, T, T, F, T, T, T,
    T, T, T, T, T, T, T, T, T, T, T, T, T, T, T, T, T, T, T, T, T, T, T, T, T, T, T, T, T, T, T, F,
    F, F, F, F, F, F, F, F, F, F, F, F, F, F, F, F, F, F, F, F, F, F, F, F, F, F, F, F, F, F, F, F,
    F, F, F, F, F, F, F, F, F, F, F, F, F, F, F, F, F, F, F, F, F, F, F, F, F, F, F, F, F, F, F, F,
    F, F, F, F, F, F, F, F, F, F, F, F, F, F, F, F, F, F, F, F, F, F, F, F, F, F, F, F, F, F, F, F,
    F, F, F, F, F, F, F, F, F, F, F, F, F, F, F, F, F, F, F, F, F, F, F, F, F, F, F, F, F, F, F, F,
];

// Texts of fewer bytes are tested by the table.
const MANY: usize = 16;

// How many bytes they take at most, with their quotes.
const FEW: usize = 4 * MANY + 2;

// Whether a byte stands for itself between quotes.
#[inline(always)]
fn is_plain(byte: u8) -> bool
    ensures { result ≡ is_plain byte }
{
    (0x20..=0x7e).contains(&byte) && byte != b'"' && byte != b'\\'
}

// Whether a byte stands for itself between quotes, by the table, where a loop looks at one byte
// after the other.
#[inline(always)]
fn is_listed(byte: u8) -> bool
    ensures { result ≡ is_plain byte }
{
    PLAIN[usize::from(byte)]
}

// Whether each byte stands for itself. It looks at all of them, so that the compiler may take many
// at once.
fn are_plain(bytes: &[u8]) -> bool
    ensures { result ≡ list_all is_plain bytes.now }
{
    let mut plain = true;
    for byte in bytes {
        plain &= is_plain(*byte);
    }
    plain
}

// Whether each byte stands for itself, by the table, for few bytes.
#[inline(always)]
fn are_listed(bytes: &[u8]) -> bool
    ensures { result ≡ list_all is_plain bytes.now }
{
    let mut plain = true;
    for byte in bytes {
        plain &= is_listed(*byte);
    }
    plain
}

// Appends `\x` and the two digits of a byte that doesn't stand for itself.
fn push_escape(text: &mut Vec<u8>, byte: u8) -> Result<(), NoMemory>
    requires { is_plain byte ≡ false }
    ensures { IsOk result → text.new.items ≡ text.old.items ++ quoted_byte byte }
{
    let high = DIGITS[usize::from(byte / 16)];
    let low = DIGITS[usize::from(byte % 16)];
    text.extend_from_slice(&[b'\\', b'x', high, low])?;
    Ok(())
}

// Appends bytes that stand for themselves. Where there are none it copies nothing: a text may have
// hundreds of millions of such runs.
#[inline(always)]
fn push_run(text: &mut Vec<u8>, run: &[u8]) -> Result<(), NoMemory>
    ensures { IsOk result → text.new.items ≡ text.old.items ++ run.now }
{
    if !run.is_empty() {
        text.extend_from_slice(run)?;
    }
    Ok(())
}

// Appends bytes as they stand between quotes, those that stand for themselves a run at a time.
fn push_runs(text: &mut Vec<u8>, bytes: &[u8]) -> Result<(), NoMemory>
    ensures { IsOk result → text.new.items ≡ text.old.items ++ flat_map quoted_byte bytes.now }
{
    let mut start = 0;
    for (i, byte) in bytes.iter().enumerate() {
        if !is_plain(*byte) {
            push_run(text, &bytes[start..i])?;
            push_escape(text, *byte)?;
            start = i + 1;
        }
    }
    text.extend_from_slice(&bytes[start..])?;
    Ok(())
}

// Appends a byte as it stands between quotes, where there is room for it.
#[inline(always)]
fn put_quoted(text: &mut Vec<u8>, byte: u8)
    requires { vec_len text.old + 4 ≤ vec_capacity text.old }
    ensures put { text.new.items ≡ text.old.items ++ quoted_byte byte }
    ensures len { vec_len text.new ≤ vec_len text.old + 4 }
    ensures capacity { vec_capacity text.new ≡ vec_capacity text.old }
{
    if is_listed(byte) {
        text.push_reserved(byte);
    } else {
        text.push_reserved(b'\\');
        text.push_reserved(b'x');
        text.push_reserved(DIGITS[usize::from(byte / 16)]);
        text.push_reserved(DIGITS[usize::from(byte % 16)]);
    }
}

// Appends a few bytes between quotes: at once where all stand for themselves, else byte by byte.
#[inline(always)]
fn push_few(text: &mut Vec<u8>, bytes: &[u8]) -> Result<(), NoMemory>
    requires { length bytes.now < MANY }
    ensures { IsOk result → text.new.items ≡ text.old.items ++ quoted_text bytes.now }
{
    text.reserve(FEW)?;
    text.push_reserved(b'"');
    if are_listed(bytes) {
        text.extend_from_slice(bytes)?;
    } else {
        for byte in bytes {
            put_quoted(text, *byte);
        }
    }
    text.push_reserved(b'"');
    Ok(())
}

/// Appends bytes between quotes. Fails only with `NoMemory`.
#[inline(always)]
pub fn push_quoted(text: &mut Vec<u8>, bytes: &[u8]) -> Result<(), NoMemory>
    ensures { IsOk result → text.new.items ≡ text.old.items ++ quoted_text bytes.now }
{
    if bytes.len() < MANY {
        return push_few(text, bytes);
    }
    text.push(b'"')?;
    if are_plain(bytes) {
        text.extend_from_slice(bytes)?;
    } else {
        push_runs(text, bytes)?;
    }
    text.push(b'"')?;
    Ok(())
}
