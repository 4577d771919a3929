//! The format strings without parameters.
ghost use Rattle.std.specs.Prelude.{◌≡◌, ◌∷◌, []};
ghost use Rattle.vx_arrow_formats.specs.Words.{word_in};

use crate::kind::Kind;
use vx_arrow_image::Offsets;

// One letter.
fn letter(a: u8) -> Option<Kind>
    ensures { result ≡ word_in (a ∷ []) }
{
    match a {
        b'n' => Some(Kind::Nulls),
        b'b' => Some(Kind::Bits),
        b'c' => Some(Kind::Signed(1)),
        b'C' => Some(Kind::Unsigned(1)),
        b's' => Some(Kind::Signed(2)),
        b'S' => Some(Kind::Unsigned(2)),
        b'i' => Some(Kind::Signed(4)),
        b'I' => Some(Kind::Unsigned(4)),
        b'l' => Some(Kind::Signed(8)),
        b'L' => Some(Kind::Unsigned(8)),
        b'e' => Some(Kind::Fixed(2)),
        b'f' => Some(Kind::Fixed(4)),
        b'g' => Some(Kind::Fixed(8)),
        b'z' | b'u' => Some(Kind::Text(Offsets::Short)),
        b'Z' | b'U' => Some(Kind::Text(Offsets::Long)),
        _ => None,
    }
}

// `v` and a letter.
fn view(a: u8) -> Option<Kind>
    ensures { result ≡ word_in (118 ∷ (a ∷ [])) }
{
    match a {
        b'z' | b'u' => Some(Kind::TextView),
        _ => None,
    }
}

// `+` and a letter.
fn nested(a: u8) -> Option<Kind>
    ensures { result ≡ word_in (43 ∷ (a ∷ [])) }
{
    match a {
        b'l' => Some(Kind::List(Offsets::Short)),
        b'L' => Some(Kind::List(Offsets::Long)),
        b's' => Some(Kind::Struct),
        b'm' => Some(Kind::Map),
        _ => None,
    }
}

// Two letters.
fn pair(a: u8, b: u8) -> Option<Kind>
    ensures { result ≡ word_in (a ∷ (b ∷ [])) }
{
    match a {
        b'v' => view(b),
        b'+' => nested(b),
        _ => None,
    }
}

// `+v` and a letter.
fn list_view(a: u8) -> Option<Kind>
    ensures { result ≡ word_in (43 ∷ (118 ∷ (a ∷ []))) }
{
    match a {
        b'l' => Some(Kind::ListView(Offsets::Short)),
        b'L' => Some(Kind::ListView(Offsets::Long)),
        _ => None,
    }
}

// `td` and a letter: dates.
fn date(a: u8) -> Option<Kind>
    ensures { result ≡ word_in (116 ∷ (100 ∷ (a ∷ []))) }
{
    match a {
        b'D' => Some(Kind::Fixed(4)),
        b'm' => Some(Kind::Fixed(8)),
        _ => None,
    }
}

// `tt` and a letter: times of a day.
fn time(a: u8) -> Option<Kind>
    ensures { result ≡ word_in (116 ∷ (116 ∷ (a ∷ []))) }
{
    match a {
        b's' | b'm' => Some(Kind::Fixed(4)),
        b'u' | b'n' => Some(Kind::Fixed(8)),
        _ => None,
    }
}

// `tD` and a letter: durations.
fn duration(a: u8) -> Option<Kind>
    ensures { result ≡ word_in (116 ∷ (68 ∷ (a ∷ []))) }
{
    match a {
        b's' | b'm' | b'u' | b'n' => Some(Kind::Fixed(8)),
        _ => None,
    }
}

// `ti` and a letter: intervals.
fn interval(a: u8) -> Option<Kind>
    ensures { result ≡ word_in (116 ∷ (105 ∷ (a ∷ []))) }
{
    match a {
        b'M' => Some(Kind::Fixed(4)),
        b'D' => Some(Kind::Fixed(8)),
        b'n' => Some(Kind::Fixed(16)),
        _ => None,
    }
}

// `t` and two letters.
fn temporal(a: u8, b: u8) -> Option<Kind>
    ensures { result ≡ word_in (116 ∷ (a ∷ (b ∷ []))) }
{
    match a {
        b'd' => date(b),
        b't' => time(b),
        b'D' => duration(b),
        b'i' => interval(b),
        _ => None,
    }
}

// `+` and two letters.
fn nested_view(a: u8, b: u8) -> Option<Kind>
    ensures { result ≡ word_in (43 ∷ (a ∷ (b ∷ []))) }
{
    match a {
        b'v' => list_view(b),
        _ => None,
    }
}

// Three letters.
fn triple(a: u8, b: u8, c: u8) -> Option<Kind>
    ensures { result ≡ word_in (a ∷ (b ∷ (c ∷ []))) }
{
    match a {
        b't' => temporal(b, c),
        b'+' => nested_view(b, c),
        _ => None,
    }
}

/// The kind that a word names.
pub(crate) fn word(text: &[u8]) -> Option<Kind>
    ensures { result ≡ word_in text.now }
{
    match text {
        [a] => letter(*a),
        [a, b] => pair(*a, *b),
        [a, b, c] => triple(*a, *b, *c),
        _ => None,
    }
}
