//! Values that are decoded by chunks.
ghost use Rattle.std.specs.Prelude.{◌≡◌, ℕ, ◌+◌, ◌*◌, ◌%◌, ◌^◌, ◌<◌, ◌≤◌, List, [], ◌∷◌, Option, Some, true, length, take, drop, map, slice_get};
ghost use Rattle.vx_bits.specs.WordReader.{then_told};
ghost use Rattle.vx_mask.specs.Positions.{ascending};
ghost use Rattle.vx_decoder.specs.declared.call.Call.{Call};
ghost use Rattle.vx_decoder.specs.declared.call.Call.TheVariants.{Whole, Only};

/// The number of values of a chunk: Vortex's `FILTER_CHUNK_LEN`.
pub const FILTER_CHUNK_LEN: usize = 1024;

/// Decodes a list of values by chunks of 1024. No call fails, and each costs at most one of
/// `spare`.
pub trait ChunkDecoder<T: Copy> {
    // the values
    ghost values: { Self → List T };

    // the calls that were made, where they are recorded
    ghost calls: { Self → Option (List Call) };

    // how many calls may still be made
    ghost spare: { Self → ℕ };

    /// Writes the 1024 values of a chunk to `dst`.
    fn decode_chunk(&mut self, chunk_idx: usize, dst: &mut [T])
        requires room { length dst.old ≡ 1024 }
        requires within { 1024 * (chunk_idx + 1) ≤ length (values self.old) }
        requires left { 1 ≤ spare self.old }
        ensures value { dst.new ≡ take 1024 (drop (1024 * chunk_idx) (values self.old)) }
        ensures same { values self.new ≡ values self.old }
        ensures told { calls self.new ≡ then_told (calls self.old) (Whole chunk_idx ∷ []) }
        ensures cost { spare self.old ≤ spare self.new + 1 };

    /// Writes the values of a chunk at strictly ascending indices, each below 1024, to `dst`.
    fn decode_indices(&mut self, chunk_idx: usize, indices: &[usize], dst: &mut [T])
        requires some { 0 < length indices.now }
        requires ascend { ascending 0 1024 indices.now ≡ true }
        requires room { length dst.old ≡ length indices.now }
        requires within { 1024 * (chunk_idx + 1) ≤ length (values self.old) }
        requires left { 1 ≤ spare self.old }
        ensures value { map Some dst.new
            ≡ map (λ i. slice_get (values self.old) (1024 * chunk_idx + i)) indices.now }
        ensures same { values self.new ≡ values self.old }
        ensures told { calls self.new
            ≡ then_told (calls self.old) (Only chunk_idx (length indices.now) ∷ []) }
        ensures cost { spare self.old ≤ spare self.new + 1 };

    // there are whole chunks alone
    ghost whole: { (s : Self) → length (values s) % 1024 ≡ 0 };

    // as many values as a `usize` counts
    ghost bounded: { (s : Self) → length (values s) < 2 ^ 64 };
}
