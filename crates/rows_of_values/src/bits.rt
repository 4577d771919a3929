//! Bits at an offset, and bits from bools.

use crate::text::{ends_of, shown, text_of, words};
use std::alloc::Global;
use std::test::Fail;
use vx_bits::{BitBuffer, BitError, Buffer, NoMemory};

/// A row for a refusal, for bits at an offset or for bits from bools.
pub(crate) fn row(alloc: Global, n: usize) -> Result<String, Fail> {
    match n {
        0 => refusal(alloc, "1 of ten bytes, offset 8, 0 bits", 1, 8, 0),
        1 => refusal(alloc, "1 of ten bytes, offset 3, 6 bits", 1, 3, 6),
        2 => refusal(alloc, "10 of ten bytes, offset 3, 78 bits", 10, 3, 78),
        3 => of_ten(alloc, false),
        4 => of_ten(alloc, true),
        5 => of_three(alloc, false),
        6 => of_three(alloc, true),
        _ => words_of(alloc, &thirds(alloc, 130)?),
    }
}

/// So many of ten bytes, from bit `offset` on.
fn bits_of(
    alloc: Global,
    count: usize,
    offset: usize,
    len: usize,
) -> Result<Result<BitBuffer, BitError>, Fail> {
    let mut bytes = [0xa6, 0x07, 0xff, 0x01, 0, 0, 0, 0, 0xf8, 0x0f].to_vec(alloc)?;
    bytes.truncate(count);
    Ok(BitBuffer::try_new(Buffer::from_vec(alloc, bytes)?, offset, len))
}

fn refusal(
    alloc: Global,
    name: &str,
    count: usize,
    offset: usize,
    len: usize,
) -> Result<String, Fail> {
    let refusal = bits_of(alloc, count, offset, len)?.err();
    shown(alloc, name, &refusal)
}

/// A row for ten bytes at an offset, by their bits or by their words.
fn of_ten(alloc: Global, by_words: bool) -> Result<String, Fail> {
    match bits_of(alloc, 10, 3, 72)? {
        Ok(bits) => ten(alloc, &bits, by_words),
        Err(_) => Err("refused".into()),
    }
}

fn ten(alloc: Global, bits: &BitBuffer, by_words: bool) -> Result<String, Fail> {
    if bits.len() < 72 {
        return Err("too few bits".into());
    }
    if by_words {
        words(alloc, "their words:", &[bits.word(0), bits.words().word(1)])
    } else {
        at_offset(alloc, bits.true_count(), bits.count_range(4, 70))
    }
}

fn at_offset(alloc: Global, all: usize, inner: usize) -> Result<String, Fail> {
    Ok(format!(in alloc; "ten bytes, offset 3, 72 bits: {all} set, from 4 up to 70 {inner}")?)
}

/// A row for three bools, or for all but the first.
fn of_three(alloc: Global, cut: bool) -> Result<String, Fail> {
    let bits = BitBuffer::from_bools(alloc, &[true, false, true])?;
    if cut {
        ends_of(alloc, "without its first", &bits.slice(1, 3).share())
    } else {
        three(alloc, &bits)
    }
}

fn three(alloc: Global, bits: &BitBuffer) -> Result<String, Fail> {
    let text = text_of(alloc, bits)?;
    let count = bits.true_count();
    let offset = bits.offset();
    Ok(format!(in alloc; "true false true: {text}, {count} set, offset {offset}")?)
}

/// So many bits, each third of them set.
pub(crate) fn thirds(alloc: Global, len: usize) -> Result<BitBuffer, NoMemory> {
    let mut bools = Vec::new(alloc);
    for i in 0..len {
        bools.push(i % 3 == 0)?;
    }
    BitBuffer::from_bools(alloc, bools.as_slice())
}

fn words_of(alloc: Global, bits: &BitBuffer) -> Result<String, Fail> {
    if bits.len() < 130 {
        return Err("too few bits".into());
    }
    let all = bits.words();
    words(
        alloc,
        "130 bits, each third set:",
        &[all.word(0), all.word(1), all.word(2)],
    )
}
