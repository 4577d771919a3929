//! Masks that select some rows and not all.
ghost use Rattle.std.specs.Prelude.{◌≡◌, ◌<◌, ◌≤◌, None, IfOk, IfSome, length, slice_index_or, take, false, true};
ghost use Rattle.std.specs.Option.{option_copied};
ghost use Rattle.vx_bits.specs.BitBuffer.{true_count_of};
ghost use Rattle.vx_bits.specs.Results.{ok_unless};
ghost use Rattle.vx_mask.specs.Mask.{mask_by_indices, mask_by_slices};
ghost use Rattle.vx_mask.specs.MaskValues.{AreSlicesOf, IsPartial, bits_alone, block_counts, keep_blocks, keep_indices, keep_slices, parts_fault};
ghost use Rattle.vx_mask.specs.Positions.{ascending, rank_of, run_positions, runs_ascend, set_of, span_of};

use crate::agreement::fault_of;
use crate::blocks::counts_of;
use crate::error::MaskError;
use crate::positions::{bits_at, bits_of_runs};
use crate::ranks::{rank_from, rank_words, words_before};
use crate::runs::{next_with, positions_of, runs_of};
use std::alloc::Global;
use std::marker::Model;
use vx_bits::{BitBuffer, Buffer, NoMemory, PlainWords};

/// The bits of a mask that has at least one set and one clear bit: Vortex's `MaskValues`.
///
/// Clauses see the bits, and the indices, slices and block counts that the mask keeps beside
/// them, where it keeps any.
#[derive(Drop)]
pub struct MaskValues {
    bits: BitBuffer,
    true_count: usize,
    indices: Option<Buffer<usize>>,
    slices: Option<Buffer<(usize, usize)>>,
    blocks: Option<Buffer<usize>>,
}

impl Model for MaskValues {
    ghost use Rattle.vx_mask.specs.MaskValues.{PartialMask, IsPartial};

    ghost Value = { PartialMask };

    ghost view = { λ m. record {
      bits = m.bits;
      indices = m.indices;
      slices = m.slices;
      blocks = m.blocks;
    } };

    ghost invariant = { λ m. IsPartial (record {
      bits = m.bits;
      indices = m.indices;
      slices = m.slices;
      blocks = m.blocks;
    }) m.true_count };
}

impl MaskValues {
    /// The mask of these bits, with the set positions and the runs of them that are handed in.
    ///
    /// In this order: `Count` exactly where `true_count` is not the number of set bits,
    /// `NotSelective` exactly where it is 0 or the length, `Indices` exactly where there are
    /// indices and they are not just the set positions, ascending, `Slices` exactly where there
    /// are slices and one is empty, or they do not cover just the set positions in their order.
    /// Slices that touch are no fault.
    pub fn try_from_parts(
        bits: BitBuffer,
        true_count: usize,
        indices: Option<Buffer<usize>>,
        slices: Option<Buffer<(usize, usize)>>,
    ) -> Result<MaskValues, MaskError>
        ensures { result ≡ ok_unless (parts_fault bits.bits true_count indices slices)
            (record { bits = bits; indices = indices; slices = slices; blocks = None }) }
    {
        if let Some(fault) = fault_of(&bits, true_count, &indices, &slices) {
            return Err(fault);
        }
        Ok(MaskValues::with_lists(bits, true_count, indices, slices))
    }

    /// The mask of bits of which some are set and not all, with their count.
    pub(crate) fn new(bits: BitBuffer, true_count: usize) -> MaskValues
        requires counted { true_count ≡ true_count_of bits.bits }
        requires some { 0 < true_count }
        requires not_all { true_count < length bits.bits }
        ensures { result ≡ bits_alone bits }
    {
        MaskValues {
            bits,
            true_count,
            indices: None,
            slices: None,
            blocks: None,
        }
    }

    /// The mask of these bits with their count, and of lists that agree with them.
    pub(crate) fn with_lists(
        bits: BitBuffer,
        true_count: usize,
        indices: Option<Buffer<usize>>,
        slices: Option<Buffer<(usize, usize)>>,
    ) -> MaskValues
        requires { IsPartial (record {
          bits = bits;
          indices = indices;
          slices = slices;
          blocks = None;
        }) true_count }
        ensures { result
            ≡ record { bits = bits; indices = indices; slices = slices; blocks = None } }
    {
        MaskValues {
            bits,
            true_count,
            indices,
            slices,
            blocks: None,
        }
    }

    /// The mask of the rows at these indices, which are some rows and not all. It keeps them.
    pub(crate) fn by_indices(
        alloc: Global,
        len: usize,
        indices: Vec<usize>,
    ) -> Result<MaskValues, NoMemory>
        requires ascend { ascending 0 len indices.items ≡ true }
        requires some { 0 < length indices.items }
        requires not_all { length indices.items < len }
        ensures { IfOk result (λ m. m ≡ mask_by_indices len indices.items) }
    {
        let count = indices.len();
        let bits = bits_at(alloc, len, indices.as_slice())?;
        let indices = Buffer::from_vec(alloc, indices)?;
        Ok(MaskValues::with_lists(bits, count, Some(indices), None))
    }

    /// The mask of the rows of these runs, which are some rows and not all. It keeps them.
    pub(crate) fn by_slices(
        alloc: Global,
        len: usize,
        true_count: usize,
        slices: Vec<(usize, usize)>,
    ) -> Result<MaskValues, NoMemory>
        requires ascend { runs_ascend 0 len slices.items ≡ true }
        requires counted { true_count ≡ length (run_positions slices.items) }
        requires some { 0 < true_count }
        requires not_all { true_count < len }
        ensures { IfOk result (λ m. m ≡ mask_by_slices len slices.items) }
    {
        let bits = bits_of_runs(alloc, len, slices.as_slice())?;
        let slices = Buffer::from_vec(alloc, slices)?;
        Ok(MaskValues::with_lists(bits, true_count, None, Some(slices)))
    }

    /// The number of rows that the mask is for.
    pub fn len(&self) -> usize
        ensures { result ≡ length self.now.bits.bits }
    {
        self.bits.len()
    }

    /// The number of set bits, above 0 and below the length.
    pub fn true_count(&self) -> usize
        ensures count { result ≡ true_count_of self.now.bits.bits }
        ensures some { 0 < result }
        ensures not_all { result < length self.now.bits.bits }
    {
        self.true_count
    }

    /// The bits.
    pub fn bits(&self) -> &BitBuffer
        ensures { result.now ≡ self.now.bits }
    {
        &self.bits
    }

    /// The set positions, ascending, where the mask keeps them.
    pub fn cached_indices(&self) -> Option<&[usize]>
        ensures value { option_copied result ≡ self.now.indices }
        ensures set { IfSome result (λ indices. indices.now ≡ set_of self.now.bits.bits) }
    {
        match &self.indices {
            Some(indices) => Some(indices.as_slice()),
            None => None,
        }
    }

    /// Runs that cover just the set positions, ascending, where the mask keeps them. Runs may
    /// touch.
    pub fn cached_slices(&self) -> Option<&[(usize, usize)]>
        ensures value { option_copied result ≡ self.now.slices }
        ensures cover { IfSome result (λ slices. AreSlicesOf self.now slices.now) }
    {
        match &self.slices {
            Some(slices) => Some(slices.as_slice()),
            None => None,
        }
    }

    /// For each multiple of 512 up to the length, the number of set bits before it, where the mask
    /// keeps these counts.
    pub fn cached_blocks(&self) -> Option<&[usize]>
        ensures value { option_copied result ≡ self.now.blocks }
        ensures counts { IfSome result (λ blocks. blocks.now ≡ block_counts self.now) }
    {
        match &self.blocks {
            Some(blocks) => Some(blocks.as_slice()),
            None => None,
        }
    }

    /// Where the set positions are all those from a start up to an end, that run.
    pub(crate) fn contiguous(&self) -> Option<(usize, usize)>
        ensures { result ≡ span_of self.now.bits.bits }
    {
        let start = next_with(&self.bits, 0, true);
        let end = next_with(&self.bits, start, false);
        if end - start == self.true_count {
            Some((start, end))
        } else {
            None
        }
    }

    /// The mask with slices beside it: those that it has, or else its maximal runs.
    pub(crate) fn keep_slices(&self, alloc: Global) -> Result<MaskValues, NoMemory>
        ensures { IfOk result (λ m. m ≡ keep_slices self.now) }
    {
        let slices = match &self.slices {
            Some(slices) => slices.share(),
            None => Buffer::from_vec(alloc, runs_of(alloc, &self.bits)?)?,
        };
        Ok(MaskValues {
            slices: Some(slices),
            bits: self.bits.share(),
            true_count: self.true_count,
            indices: shared(&self.indices),
            blocks: shared(&self.blocks),
        })
    }

    /// The mask with its set positions beside it.
    pub(crate) fn keep_indices(&self, alloc: Global) -> Result<MaskValues, NoMemory>
        ensures { IfOk result (λ m. m ≡ keep_indices self.now) }
    {
        let indices = match &self.indices {
            Some(indices) => indices.share(),
            None => Buffer::from_vec(alloc, positions_of(alloc, &self.bits, self.true_count)?)?,
        };
        Ok(MaskValues {
            bits: self.bits.share(),
            true_count: self.true_count,
            indices: Some(indices),
            slices: shared(&self.slices),
            blocks: shared(&self.blocks),
        })
    }

    /// The mask with its block counts beside it.
    pub(crate) fn keep_blocks(&self, alloc: Global) -> Result<MaskValues, NoMemory>
        ensures { IfOk result (λ m. m ≡ keep_blocks self.now) }
    {
        let blocks = match &self.blocks {
            Some(blocks) => blocks.share(),
            None => Buffer::from_vec(alloc, counts_of(alloc, &self.bits)?)?,
        };
        Ok(MaskValues {
            bits: self.bits.share(),
            true_count: self.true_count,
            indices: shared(&self.indices),
            slices: shared(&self.slices),
            blocks: Some(blocks),
        })
    }

    /// Whether row `i` is selected.
    pub fn value(&self, i: usize) -> bool
        requires { i < length self.now.bits.bits }
        ensures { result ≡ slice_index_or self.now.bits.bits i false }
    {
        self.bits.value(i)
    }

    /// The `k`-th set position, from 0: by the indices where they are kept, by the block counts
    /// where these are, else by the words up to that position.
    pub fn rank(&self, k: usize) -> usize
        requires { k < true_count_of self.now.bits.bits }
        ensures rank { result ≡ rank_of self.now.bits.bits k }
        ensures within { result < length self.now.bits.bits }
    {
        match &self.indices {
            Some(indices) => indices.as_slice()[k],
            None => self.rank_by_words(k),
        }
    }

    // The `k`-th set position, from 0, by the block counts where they are kept, else by the words
    // up to that position.
    fn rank_by_words(&self, k: usize) -> usize
        requires { k < true_count_of self.now.bits.bits }
        ensures rank { result ≡ rank_of self.now.bits.bits k }
        ensures within { result < length self.now.bits.bits }
    {
        let mut words = PlainWords::new(self.bits.share());
        match &self.blocks {
            Some(blocks) => rank_words(&mut words, blocks.as_slice(), k),
            None => {
                // The number of words is bounded by that of bits.
                let _ = self.len();
                rank_from(&mut words, 0, 0, k)
            }
        }
    }

    /// The number of set positions below `p`: by the block counts where they are kept, else by the
    /// words up to there.
    pub fn true_before(&self, p: usize) -> usize
        requires { p ≤ length self.now.bits.bits }
        ensures { result ≡ true_count_of (take p self.now.bits.bits) }
    {
        match &self.blocks {
            Some(blocks) => {
                let mut words = PlainWords::new(self.bits.share());
                words_before(&mut words, blocks.as_slice(), p)
            }
            None => self.bits.count_range(0, p),
        }
    }

    /// Another handle to the same mask, with what it keeps.
    pub fn share(&self) -> MaskValues
        ensures { result ≡ self.now }
    {
        MaskValues {
            bits: self.bits.share(),
            true_count: self.true_count,
            indices: shared(&self.indices),
            slices: shared(&self.slices),
            blocks: shared(&self.blocks),
        }
    }
}

// Another handle to the same list, where there is one.
fn shared<T: Copy>(list: &Option<Buffer<T>>) -> Option<Buffer<T>>
    ensures { result ≡ list.now }
{
    match list {
        Some(list) => Some(list.share()),
        None => None,
    }
}
