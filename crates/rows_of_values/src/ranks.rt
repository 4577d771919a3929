//! Ranks, with block counts and without.

use crate::bits::thirds;
use crate::text::{by_words, shown};
use std::alloc::Global;
use std::test::Fail;
use vx_bits::CountedWords;
use vx_mask::{Mask, rank_law, rank_words, words_before};

/// A row for 2,000 rows of which each third is selected: for the block counts, for a rank or for a
/// count.
pub(crate) fn row(alloc: Global, n: usize) -> Result<String, Fail> {
    let plain = Mask::from_buffer(thirds(alloc, 2000)?);
    match n {
        1 => of_mask(alloc, &plain, 600, 1537),
        5 => of_mask(alloc, &plain, 512, 1536),
        _ => of_counted(alloc, &plain.with_blocks(alloc)?, n),
    }
}

fn of_counted(alloc: Global, counted: &Mask, n: usize) -> Result<String, Fail> {
    match n {
        0 => counts(alloc, counted),
        2 => of_mask(alloc, counted, 600, 1537),
        3 => rank(alloc, "rank 600 by words:", counted, 600),
        4 => before(alloc, "before 1537 by words:", counted, 1537),
        6 => of_mask(alloc, counted, 512, 1536),
        7 => rank(alloc, "rank 512 by words:", counted, 512),
        _ => before(alloc, "before 1536 by words:", counted, 1536),
    }
}

fn counts(alloc: Global, mask: &Mask) -> Result<String, Fail> {
    rank_law();
    shown(alloc, "2000 bits, each third set", &mask.cached_blocks())
}

fn of_mask(alloc: Global, mask: &Mask, k: usize, p: usize) -> Result<String, Fail> {
    if k >= mask.true_count() || p > mask.len() {
        return Err("too few rows".into());
    }
    let position = mask.rank(k);
    let count = mask.true_before(p);
    Ok(format!(in alloc; "rank {k}: {position}; before {p}: {count}")?)
}

fn rank(alloc: Global, name: &str, mask: &Mask, k: usize) -> Result<String, Fail> {
    let Some(mask) = mask.values() else {
        return Err("no partial mask".into());
    };
    let Some(blocks) = mask.cached_blocks() else {
        return Err("no block counts".into());
    };
    if k >= mask.true_count() {
        return Err("too few set bits".into());
    }
    let mut words = CountedWords::new(alloc, mask.bits().share(), 8)?;
    let position = rank_words(&mut words, blocks, k);
    by_words(alloc, name, position as u64, words.reads())
}

fn before(alloc: Global, name: &str, mask: &Mask, p: usize) -> Result<String, Fail> {
    let Some(mask) = mask.values() else {
        return Err("no partial mask".into());
    };
    let Some(blocks) = mask.cached_blocks() else {
        return Err("no block counts".into());
    };
    if p > mask.len() {
        return Err("too few bits".into());
    }
    let mut words = CountedWords::new(alloc, mask.bits().share(), 8)?;
    let count = words_before(&mut words, blocks, p);
    by_words(alloc, name, count as u64, words.reads())
}
