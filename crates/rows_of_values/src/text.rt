//! Rows of text: of bits, of masks and of what is found.

use std::alloc::Global;
use std::fmt::Debug;
use std::test::Fail;
use vx_bits::BitBuffer;
use vx_mask::Mask;

/// A row for one thing behind its name.
pub(crate) fn shown<T: Debug>(alloc: Global, name: &str, found: &T) -> Result<String, Fail> {
    Ok(format!(in alloc; "{name}: {found:?}")?)
}

/// A row for what is found by words, and for the words that were read.
pub(crate) fn by_words(
    alloc: Global,
    name: &str,
    found: u64,
    reads: &[usize],
) -> Result<String, Fail> {
    Ok(format!(in alloc; "{name} {found}, reads {reads:?}")?)
}

/// A row for these words, in base 16.
pub(crate) fn words(alloc: Global, name: &str, words: &[u64]) -> Result<String, Fail> {
    let mut text = String::from_str(alloc, name)?;
    for word in words {
        write!(text, " {word:#x}")?;
    }
    Ok(text)
}

/// The bits, as a text of `0` and `1`.
pub(crate) fn text_of(alloc: Global, bits: &BitBuffer) -> Result<String, Fail> {
    let mut text = String::new(alloc);
    for i in 0..bits.len() {
        text.push(if bits.value(i) { '1' } else { '0' })?;
    }
    Ok(text)
}

/// A text that ends with a `0` or a `1` for each row of a mask.
pub(crate) fn rows_of(alloc: Global, start: &str, mask: &Mask) -> Result<String, Fail> {
    let mut text = String::from_str(alloc, start)?;
    for i in 0..mask.len() {
        text.push(if mask.value(i) { '1' } else { '0' })?;
    }
    Ok(text)
}

/// A row that ends with what a mask keeps beside its bits.
pub(crate) fn kept(alloc: Global, start: &str, mask: &Mask) -> Result<String, Fail> {
    let indices = mask.cached_indices();
    let slices = mask.cached_slices();
    let blocks = mask.cached_blocks();
    Ok(format!(in alloc; "{start}indices {indices:?}, slices {slices:?}, blocks {blocks:?}")?)
}

/// A row for the first and the last set bit.
pub(crate) fn ends_of(alloc: Global, name: &str, bits: &BitBuffer) -> Result<String, Fail> {
    let first = bits.first_set();
    let last = bits.last_set();
    Ok(format!(in alloc; "{name}: first set {first:?}, last set {last:?}")?)
}
