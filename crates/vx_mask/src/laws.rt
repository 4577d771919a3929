//! What holds of all indices, of all runs, and of the set positions of every list of bits.
ghost use Rattle.std.specs.Prelude.{ℕ, Bool, List};
ghost use Rattle.vx_mask.specs.Mask.{FaultlessIndices, FaultlessSlices};
ghost use Rattle.vx_mask.specs.Positions.{FiltersJoin, RanksAscend, RanksAreTheSet};

/// Below the number of set bits the ranks strictly ascend, and they are just the positions of the
/// set bits.
pub fn rank_law()
    ensures ascend { (bits : List Bool) → RanksAscend bits }
    ensures the_set { (bits : List Bool) → RanksAreTheSet bits }
{}

/// Indices have no fault just where each is below the length and below the next one.
pub fn indices_law()
    ensures { (len : ℕ) (indices : List ℕ) → FaultlessIndices len indices }
{}

/// Runs have no fault just where each starts before its end, ends at or before the length, and
/// ends at or before the start of the next one.
pub fn slices_law()
    ensures { (len : ℕ) (slices : List (ℕ × ℕ)) → FaultlessSlices len slices }
{}

/// Of any list, the items where bits are set, and of these the items where further bits are set,
/// are the list's items at the ranks of the further set positions.
pub fn filters_law<T>()
    ensures { (bits next : List Bool) (items : List T) → FiltersJoin bits next items }
{}
