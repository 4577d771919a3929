//! Masks of any kind.
ghost use Rattle.std.specs.Prelude.{◌≡◌, ◌*◌, ◌<◌, ◌≤◌, ◌↔◌, IsTrue, None, IfOk, IfSome, length, map, slice_index_or, take, false, true};
ghost use Rattle.std.specs.Option.{option_copied};
ghost use Rattle.vx_bits.specs.BitBuffer.{true_count_of};
ghost use Rattle.vx_bits.specs.Results.{FailsBy};
ghost use Rattle.vx_mask.specs.Positions.{AreMaximalRuns, IsSpan, ascending, set_of, rank_of, run_positions, runs_ascend, bits_with, span_of};
ghost use Rattle.vx_mask.specs.Mask.{IsMadeFrom, mask_bits, partial_of, indices_fault, slices_fault, if_partial, mask_by_indices, mask_by_slices, indices_in, slices_in, blocks_in, map_partial};
ghost use Rattle.vx_mask.specs.Ranks.{blocks_of};
ghost use Rattle.vx_mask.specs.MaskValues.{bits_alone, keep_indices, keep_slices, keep_blocks};

use crate::error::MaskError;
use crate::intersect::bits_by_rank;
use crate::mask_values::MaskValues;
use crate::positions::{ascend, run_total};
use crate::reuse::product;
use std::alloc::Global;
use vx_bits::{BitBuffer, NoMemory};

/// Which rows are selected: Vortex's `Mask`.
#[derive(Drop)]
pub enum Mask {
    /// All of so many rows.
    AllTrue(usize),
    /// None of so many rows.
    AllFalse(usize),
    /// Some rows and not all.
    Values(MaskValues),
}

impl Mask {
    /// The rows whose bit is set: `AllFalse` where no bit is, also of no bits, `AllTrue` where all
    /// are, else `Values` of these bits.
    pub fn from_buffer(bits: BitBuffer) -> Mask
        ensures bits { mask_bits result ≡ bits.bits }
        ensures all_false { true_count_of bits.bits ≡ 0
            → result ≡ Mask.AllFalse (length bits.bits) }
        ensures all_true { 0 < true_count_of bits.bits
            → true_count_of bits.bits ≡ length bits.bits
            → result ≡ Mask.AllTrue (length bits.bits) }
        ensures values { partial_of result ≡ if_partial (bits_alone bits) }
    {
        let len = bits.len();
        let count = bits.true_count();
        if count == 0 {
            Mask::AllFalse(len)
        } else if count == len {
            Mask::AllTrue(len)
        } else {
            Mask::Values(MaskValues::new(bits, count))
        }
    }

    /// The rows at `indices`, of `len` rows.
    ///
    /// `Indices` exactly where they do not strictly ascend or one is not below `len`. Else a mask
    /// or `NoMemory`. A mask that selects some rows and not all keeps the indices.
    pub fn from_indices(alloc: Global, len: usize, indices: Vec<usize>) -> Result<Mask, MaskError>
        ensures refusal { FailsBy result (indices_fault len indices.items) MaskError.NoMemory }
        ensures set { IfOk result (λ m. set_of (mask_bits m) ≡ indices.items) }
        ensures bits { IfOk result (λ m. mask_bits m ≡ bits_with len indices.items) }
        ensures len { IfOk result (λ m. length (mask_bits m) ≡ len) }
        ensures kept { IfOk result (λ m. partial_of m
            ≡ if_partial (mask_by_indices len indices.items)) }
    {
        if !ascend(indices.as_slice(), len) {
            return Err(MaskError::Indices);
        }
        Ok(Mask::at_indices(alloc, len, indices)?)
    }

    // The mask of the rows at indices that ascend.
    fn at_indices(alloc: Global, len: usize, indices: Vec<usize>) -> Result<Mask, NoMemory>
        requires { ascending 0 len indices.items ≡ true }
        ensures { IfOk result
            (λ m. IsMadeFrom m len indices.items (mask_by_indices len indices.items)) }
    {
        let count = indices.len();
        if count == 0 {
            return Ok(Mask::AllFalse(len));
        }
        if count == len {
            return Ok(Mask::AllTrue(len));
        }
        Ok(Mask::Values(MaskValues::by_indices(alloc, len, indices)?))
    }

    /// The rows of the runs `slices`, each from its start up to its end, of `len` rows.
    ///
    /// `Slices` exactly where a run is empty, starts before the end of the one before, or ends
    /// past `len`. Else a mask or `NoMemory`. A mask that selects some rows and not all keeps the
    /// slices.
    pub fn from_slices(
        alloc: Global,
        len: usize,
        slices: Vec<(usize, usize)>,
    ) -> Result<Mask, MaskError>
        ensures refusal { FailsBy result (slices_fault len slices.items) MaskError.NoMemory }
        ensures set { IfOk result (λ m. set_of (mask_bits m) ≡ run_positions slices.items) }
        ensures bits { IfOk result (λ m. mask_bits m ≡ bits_with len (run_positions slices.items)) }
        ensures len { IfOk result (λ m. length (mask_bits m) ≡ len) }
        ensures kept { IfOk result (λ m. partial_of m
            ≡ if_partial (mask_by_slices len slices.items)) }
    {
        let Some(count) = run_total(slices.as_slice(), len) else {
            return Err(MaskError::Slices);
        };
        Ok(Mask::of_runs(alloc, len, count, slices)?)
    }

    // The mask of the rows of runs that ascend, so many.
    fn of_runs(
        alloc: Global,
        len: usize,
        count: usize,
        slices: Vec<(usize, usize)>,
    ) -> Result<Mask, NoMemory>
        requires ascend { runs_ascend 0 len slices.items ≡ true }
        requires counted { count ≡ length (run_positions slices.items) }
        ensures { IfOk result (λ m. IsMadeFrom m len (run_positions slices.items)
            (mask_by_slices len slices.items)) }
    {
        if count == 0 {
            return Ok(Mask::AllFalse(len));
        }
        if count == len {
            return Ok(Mask::AllTrue(len));
        }
        Ok(Mask::Values(MaskValues::by_slices(alloc, len, count, slices)?))
    }

    /// The number of rows that the mask is for.
    pub fn len(&self) -> usize
        ensures { result ≡ length (mask_bits self.now) }
    {
        match self {
            Mask::AllTrue(len) | Mask::AllFalse(len) => *len,
            Mask::Values(values) => values.len(),
        }
    }

    /// The number of selected rows.
    pub fn true_count(&self) -> usize
        ensures { result ≡ true_count_of (mask_bits self.now) }
    {
        match self {
            Mask::AllTrue(len) => *len,
            Mask::AllFalse(_) => 0,
            Mask::Values(values) => values.true_count(),
        }
    }

    /// The mask as one that selects some rows and not all. `None` exactly where it is not.
    pub fn values(&self) -> Option<&MaskValues>
        ensures value { option_copied result ≡ partial_of self.now }
        ensures bits { IfSome result (λ m. m.now.bits.bits ≡ mask_bits self.now) }
    {
        match self {
            Mask::AllTrue(_) | Mask::AllFalse(_) => None,
            Mask::Values(values) => Some(values),
        }
    }

    /// Whether row `i` is selected.
    pub fn value(&self, i: usize) -> bool
        requires { i < length (mask_bits self.now) }
        ensures { result ≡ slice_index_or (mask_bits self.now) i false }
    {
        match self {
            Mask::AllTrue(_) => true,
            Mask::AllFalse(_) => false,
            Mask::Values(values) => values.value(i),
        }
    }

    /// The `k`-th set position, from 0.
    pub fn rank(&self, k: usize) -> usize
        requires { k < true_count_of (mask_bits self.now) }
        ensures rank { result ≡ rank_of (mask_bits self.now) k }
        ensures within { result < length (mask_bits self.now) }
    {
        match self {
            Mask::AllTrue(_) => k,
            Mask::AllFalse(_) => unreachable!(),
            Mask::Values(values) => values.rank(k),
        }
    }

    /// The number of set positions below `p`.
    pub fn true_before(&self, p: usize) -> usize
        requires { p ≤ length (mask_bits self.now) }
        ensures { result ≡ true_count_of (take p (mask_bits self.now)) }
    {
        match self {
            Mask::AllTrue(_) => p,
            Mask::AllFalse(_) => 0,
            Mask::Values(values) => values.true_before(p),
        }
    }

    /// The set positions, ascending, where the mask keeps them.
    pub fn cached_indices(&self) -> Option<&[usize]>
        ensures value { option_copied result ≡ indices_in self.now }
        ensures set { IfSome result (λ indices. indices.now ≡ set_of (mask_bits self.now)) }
    {
        self.values()?.cached_indices()
    }

    /// Runs that cover just the set positions, ascending, where the mask keeps them. Runs may
    /// touch.
    pub fn cached_slices(&self) -> Option<&[(usize, usize)]>
        ensures value { option_copied result ≡ slices_in self.now }
        ensures cover { IfSome result
            (λ slices. run_positions slices.now ≡ set_of (mask_bits self.now)) }
    {
        self.values()?.cached_slices()
    }

    /// For each multiple of 512 up to the length, the number of set bits before it, where the mask
    /// keeps these counts.
    pub fn cached_blocks(&self) -> Option<&[usize]>
        ensures value { option_copied result ≡ blocks_in self.now }
        ensures counts { IfSome result (λ blocks. blocks.now ≡ blocks_of (mask_bits self.now)) }
    {
        self.values()?.cached_blocks()
    }

    /// The mask, with its set positions beside it where it selects some rows and not all. What else
    /// it keeps stays. Fails only with `NoMemory`.
    pub fn with_indices(&self, alloc: Global) -> Result<Mask, NoMemory>
        ensures value { IfOk result (λ m. m ≡ map_partial keep_indices self.now) }
        ensures bits { IfOk result (λ m. mask_bits m ≡ mask_bits self.now) }
    {
        match self {
            Mask::Values(values) => Ok(Mask::Values(values.keep_indices(alloc)?)),
            _ => Ok(self.share()),
        }
    }

    /// The mask, with slices beside it where it selects some rows and not all: those that it keeps,
    /// or else its maximal runs. What else it keeps stays. Fails only with `NoMemory`.
    pub fn with_slices(&self, alloc: Global) -> Result<Mask, NoMemory>
        ensures value { IfOk result (λ m. m ≡ map_partial keep_slices self.now) }
        ensures maximal { slices_in self.now ≡ None → IfOk result
            (λ m. IfSome (slices_in m) (AreMaximalRuns (mask_bits self.now))) }
        ensures bits { IfOk result (λ m. mask_bits m ≡ mask_bits self.now) }
    {
        match self {
            Mask::Values(values) => Ok(Mask::Values(values.keep_slices(alloc)?)),
            _ => Ok(self.share()),
        }
    }

    /// The mask, with its block counts beside it where it selects some rows and not all. What else
    /// it keeps stays. Fails only with `NoMemory`.
    pub fn with_blocks(&self, alloc: Global) -> Result<Mask, NoMemory>
        ensures value { IfOk result (λ m. m ≡ map_partial keep_blocks self.now) }
        ensures bits { IfOk result (λ m. mask_bits m ≡ mask_bits self.now) }
    {
        match self {
            Mask::Values(values) => Ok(Mask::Values(values.keep_blocks(alloc)?)),
            _ => Ok(self.share()),
        }
    }

    /// The rows at the set positions of this mask whose rank is set in `other`: what is left of the
    /// rows where `other` selects among those that this mask selects. Fails only with `NoMemory`.
    pub fn intersect_by_rank(&self, alloc: Global, other: &Mask) -> Result<Mask, NoMemory>
        requires { length (mask_bits other.now) ≡ true_count_of (mask_bits self.now) }
        ensures set { IfOk result (λ m. set_of (mask_bits m)
            ≡ map (rank_of (mask_bits self.now)) (set_of (mask_bits other.now))) }
        ensures len { IfOk result (λ m. length (mask_bits m) ≡ length (mask_bits self.now)) }
    {
        match self {
            Mask::AllTrue(_) => Ok(other.share()),
            Mask::AllFalse(len) => Ok(Mask::AllFalse(*len)),
            Mask::Values(values) => match other {
                Mask::AllTrue(_) => Ok(self.share()),
                Mask::AllFalse(_) => Ok(Mask::AllFalse(values.len())),
                Mask::Values(by) => {
                    let bits = bits_by_rank(alloc, values.bits(), by.bits())?;
                    Ok(Mask::from_buffer(bits))
                }
            },
        }
    }

    /// Where the set positions are all those from a start up to an end, which is left out, that
    /// run. `None` exactly where they are not, or where there is none.
    pub fn contiguous(&self) -> Option<(usize, usize)>
        ensures value { result ≡ span_of (mask_bits self.now) }
        ensures run { IfSome result (λ run. IsSpan (mask_bits self.now) run.0 run.1) }
    {
        match self {
            Mask::AllFalse(_) => None,
            Mask::AllTrue(len) => { if *len == 0 { None } else { Some((0, *len)) } }
            Mask::Values(values) => values.contiguous(),
        }
    }

    /// Whether at least `num` of each `den` rows are selected, exactly.
    pub fn density_at_least(&self, num: u64, den: u64) -> bool
        ensures { IsTrue result ↔ (num * length (mask_bits self.now)
            ≤ true_count_of (mask_bits self.now) * den) }
    {
        product(num, self.len() as u64) <= product(self.true_count() as u64, den)
    }

    /// Another handle to the same mask.
    pub fn share(&self) -> Mask
        ensures { result ≡ self.now }
    {
        match self {
            Mask::AllTrue(len) => Mask::AllTrue(*len),
            Mask::AllFalse(len) => Mask::AllFalse(*len),
            Mask::Values(values) => Mask::Values(values.share()),
        }
    }
}
