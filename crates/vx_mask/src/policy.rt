//! The numbers that choose between kernels.
ghost use Rattle.std.specs.Prelude.{◌≡◌, ◌≤◌, None};
ghost use Rattle.vx_bits.specs.Results.{ok_unless};
ghost use Rattle.vx_mask.specs.Policy.{has_zero_divisor, has_wide_sparse_limit, policy_fault, sparse_limit_of, vortex_fields};

use std::error::Error;
use std::fmt;
use std::marker::Model;

/// The ratio `num / den`.
#[derive(Debug, Clone, Copy, PartialEq, Eq)]
pub struct Ratio {
    /// What is divided.
    pub num: u64,
    /// What it is divided by.
    pub den: u64,
}

/// The numbers of a policy. A field that ends in `_w1`, `_w2`, `_w4` or `_w8` is that of records
/// of 1, 2, 4 or 8 bytes, and one that ends in `_other` that of every other width.
#[derive(Clone, Copy)]
pub struct PolicyFields {
    /// The density from which on records of 1 byte are compressed by whole bytes of the mask.
    pub dense_w1: Ratio,
    /// The density from which on records of 2 bytes are compressed by whole bytes of the mask.
    pub dense_w2: Ratio,
    /// The density from which on records of 4 bytes are compressed by whole bytes of the mask.
    pub dense_w4: Ratio,
    /// The density from which on records of 8 bytes are compressed by whole bytes of the mask.
    pub dense_w8: Ratio,
    /// The density from which on records of other widths are compressed by whole bytes of the mask.
    pub dense_other: Ratio,
    /// The density up to which cached indices are useful.
    pub cached_indices_max: Ratio,
    /// The density from which on an owned list is filtered in place.
    pub in_place_min: Ratio,
    /// The average length of runs from which on cached slices are useful.
    pub min_average_run: usize,
    /// The length in bytes that runs have on average from which on they are moved run by run.
    pub min_run_bytes: usize,
    /// The density below which bits are filtered by their set positions.
    pub bool_sparse_below: Ratio,
    /// The number of selected values of a chunk up to which only these are decoded, for records
    /// of 1 byte.
    pub sparse_w1: usize,
    /// The number of selected values of a chunk up to which only these are decoded, for records of
    /// 2 bytes.
    pub sparse_w2: usize,
    /// The number of selected values of a chunk up to which only these are decoded, for records of
    /// 4 bytes.
    pub sparse_w4: usize,
    /// The number of selected values of a chunk up to which only these are decoded, for records of
    /// other widths.
    pub sparse_other: usize,
    /// Ranks are looked up one by one where they number at most the true count divided by this,
    /// taken at least 1.
    pub rank_lookup_divisor: usize,
    /// The number of ranks above which they are never looked up one by one.
    pub rank_lookup_cap: usize,
    /// The density up to which a mask for two consumers gets indices.
    pub reuse_two_max: Ratio,
    /// The density up to which a mask for three and more consumers gets indices.
    pub reuse_more_max: Ratio,
    /// The density below which texts are filtered by set positions.
    pub text_indices_below: Ratio,
    /// The density below which lists are filtered by set positions.
    pub list_indices_below: Ratio,
    /// The number of elements outside the selected lists from which on a list filter crops.
    pub crop_min: usize,
    /// For a crop, that number times this must reach the number of all elements.
    pub crop_factor: usize,
    /// The length of fixed-size lists from which on the mask of their elements keeps slices.
    pub cached_list_size: usize,
    /// The length of a filtered column from which on a take may materialize it.
    pub big_filtered_len: usize,
    /// The length of a take from which on it may materialize a filtered column.
    pub big_take_len: usize,
    /// The ratio of picks and rows by which such a take is judged.
    pub big_take_ratio: usize,
}

/// Why fields are no policy.
#[derive(Debug, Clone, Copy, PartialEq, Eq)]
pub enum PolicyError {
    /// A `den`, `rank_lookup_divisor` or `min_run_bytes` is 0.
    ZeroDivisor,
    /// `rank_lookup_cap` is 0.
    ZeroLookupCap,
    /// One of the four sparse limits is above 160.
    SparseLimit,
}

/// Fields without a fault.
///
/// Clauses see the fields.
#[derive(Drop)]
pub struct Policy {
    fields: PolicyFields,
}

impl Model for Policy {
    ghost use Rattle.std.specs.Prelude.{◌≡◌, None};
    ghost use Rattle.vx_mask.specs.declared.policy.PolicyFields.{PolicyFields};
    ghost use Rattle.vx_mask.specs.Policy.{policy_fault};

    ghost Value = { PolicyFields };

    ghost view = { λ p. p.fields };

    ghost invariant = { λ p. policy_fault p.fields ≡ None };
}

impl PolicyFields {
    // Whether a number that is divided by is 0.
    fn has_zero_divisor(&self) -> bool
        ensures { result ≡ has_zero_divisor self.now }
    {
        [
            self.dense_w1.den,
            self.dense_w2.den,
            self.dense_w4.den,
            self.dense_w8.den,
            self.dense_other.den,
            self.cached_indices_max.den,
            self.in_place_min.den,
            self.bool_sparse_below.den,
            self.reuse_two_max.den,
            self.reuse_more_max.den,
            self.text_indices_below.den,
            self.list_indices_below.den,
            self.rank_lookup_divisor as u64,
            self.min_run_bytes as u64,
        ]
        .contains(&0)
    }

    // Whether a sparse limit is above 160.
    fn has_wide_sparse_limit(&self) -> bool
        ensures { result ≡ has_wide_sparse_limit self.now }
    {
        self.sparse_w1 > 160
            || self.sparse_w2 > 160
            || self.sparse_w4 > 160
            || self.sparse_other > 160
    }
}

impl Policy {
    /// The policy with these fields.
    ///
    /// In this order: `ZeroDivisor` exactly where a `den`, `rank_lookup_divisor` or
    /// `min_run_bytes` is 0, `ZeroLookupCap` exactly where `rank_lookup_cap` is 0, `SparseLimit`
    /// exactly where one of the four sparse limits is above 160.
    pub fn try_new(fields: PolicyFields) -> Result<Policy, PolicyError>
        ensures { result ≡ ok_unless (policy_fault fields) fields }
    {
        if fields.has_zero_divisor() {
            return Err(PolicyError::ZeroDivisor);
        }
        if fields.rank_lookup_cap == 0 {
            return Err(PolicyError::ZeroLookupCap);
        }
        if fields.has_wide_sparse_limit() {
            return Err(PolicyError::SparseLimit);
        }
        Ok(Policy { fields })
    }

    /// The policy with the numbers of Vortex.
    pub fn vortex() -> Policy
        ensures { result ≡ vortex_fields }
    {
        Policy {
            fields: PolicyFields {
                dense_w1: Ratio { num: 0, den: 1 },
                dense_w2: Ratio { num: 1, den: 2 },
                dense_w4: Ratio { num: 1, den: 2 },
                dense_w8: Ratio { num: 3, den: 4 },
                dense_other: Ratio { num: 7, den: 8 },
                cached_indices_max: Ratio { num: 1, den: 2 },
                in_place_min: Ratio { num: 1, den: 2 },
                min_average_run: 8,
                min_run_bytes: 96,
                bool_sparse_below: Ratio { num: 1, den: 20 },
                sparse_w1: 16,
                sparse_w2: 32,
                sparse_w4: 64,
                sparse_other: 160,
                rank_lookup_divisor: 80,
                rank_lookup_cap: 256,
                reuse_two_max: Ratio { num: 1, den: 20 },
                reuse_more_max: Ratio { num: 1, den: 10 },
                text_indices_below: Ratio { num: 1, den: 2 },
                list_indices_below: Ratio { num: 1, den: 20 },
                crop_min: 1024,
                crop_factor: 20,
                cached_list_size: 8,
                big_filtered_len: 4096,
                big_take_len: 25000,
                big_take_ratio: 10,
            },
        }
    }

    /// The fields.
    pub fn fields(&self) -> &PolicyFields
        ensures value { result.now ≡ self.now }
        ensures no_fault { policy_fault result.now ≡ None }
    {
        &self.fields
    }

    /// The sparse limit of records of `width` bytes.
    pub fn sparse_limit(&self, width: usize) -> usize
        ensures value { result ≡ sparse_limit_of self.now width }
        ensures bounded { result ≤ 160 }
    {
        match width {
            1 => self.fields.sparse_w1,
            2 => self.fields.sparse_w2,
            4 => self.fields.sparse_w4,
            _ => self.fields.sparse_other,
        }
    }
}

impl fmt::Display for PolicyError {
    ghost use Rattle.std.specs.Prelude.{Some};
    ghost use Rattle.vx_mask.specs.Messages.{policy_error_text};

    ghost output = { λ e. Some (policy_error_text e) };

    fn fmt<W: fmt::Write>(&self, f: &mut fmt::Formatter<W>) -> fmt::Result {
        f.write_str(match self {
            PolicyError::ZeroDivisor => "a number that is divided by is 0",
            PolicyError::ZeroLookupCap => "rank_lookup_cap is 0",
            PolicyError::SparseLimit => "a sparse limit is above 160",
        })
    }
}

impl Error for PolicyError {}
