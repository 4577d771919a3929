//! Numbers of decimal digits, and fields between commas.
ghost use Rattle.std.specs.Prelude.{◌≡◌, ◌==◌, ◌∷◌, ◌≤◌, ◌<◌, ◌^◌, IfSome, length, position, unwrap_or};
ghost use Rattle.vx_arrow_formats.specs.Numbers.{fields_in, fields_left, number_in};

/// The number that digits write, up to 2^31 - 1.
pub(crate) fn number(text: &[u8]) -> Option<u64>
    ensures value { result ≡ number_in text.now }
    ensures small { IfSome result (λ n. n < 2 ^ 31) }
{
    if text.is_empty() {
        return None;
    }
    let mut value = 0u64;
    for byte in text {
        if *byte < b'0' || *byte > b'9' {
            return None;
        }
        value = 10 * value + (*byte - b'0') as u64;
        if value >= 1 << 31 {
            return None;
        }
    }
    Some(value)
}

/// The first field of a text, and what follows its comma.
#[derive(Clone, Copy)]
pub(crate) struct Fields<'a> {
    /// The field.
    pub(crate) field: &'a [u8],
    /// The text behind the comma, if there is one.
    pub(crate) rest: Option<&'a [u8]>,
}

// Where the first comma of a text is.
fn first_comma(text: &[u8]) -> Option<usize>
    ensures { result ≡ position (λ b. b == 44) text.now }
{
    text.iter().position(|byte| *byte == b',')
}

// Where the first comma of a text is; its length where there is none.
fn comma(text: &[u8]) -> usize
    ensures place { result ≡ unwrap_or (position (λ b. b == 44) text.now) (length text.now) }
    ensures within { result ≤ length text.now }
{
    first_comma(text).unwrap_or(text.len())
}

/// The first field of a text.
pub(crate) fn first_field(text: &[u8]) -> Fields<'_>
    ensures cut { fields_in text.now ≡ result.field.now ∷ fields_left result.rest }
    ensures shorter { IfSome result.rest (λ r. length r.now < length text.now) }
{
    let end = comma(text);
    if end == text.len() {
        return Fields {
            field: text,
            rest: None,
        };
    }
    Fields {
        field: &text[..end],
        rest: Some(&text[end + 1..]),
    }
}
