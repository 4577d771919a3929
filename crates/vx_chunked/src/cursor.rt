//! Positions that are handed out chunk by chunk.
ghost use Rattle.std.specs.Prelude.{◌≡◌, ℕ, ◌+◌, ◌*◌, ◌^◌, ◌<◌, ◌≤◌, ◌++◌, List, Some, true, length, map, slice_get};
ghost use Rattle.std.specs.List.{All};
ghost use Rattle.vx_mask.specs.Positions.{ascending};
ghost use Rattle.vx_chunked.specs.Positions.{AscendFrom};

/// Ascending positions, of which each call takes those of one chunk.
pub(crate) trait Cursor<T: Copy> {
    // the positions that are left
    ghost rest: { Self → List ℕ };

    // the places of those that were taken last, within their chunk
    ghost taken: { Self → List ℕ };

    // Takes the positions that lie in the chunk, and answers their number.
    fn take_places(&mut self, chunk: usize) -> usize
        requires fits { 1024 * (chunk + 1) < 2 ^ 64 }
        requires ahead { AscendFrom (1024 * chunk) (2 ^ 64) (rest self.old) }
        ensures count { result ≡ length (taken self.new) }
        ensures taken { rest self.old
            ≡ map (λ p. 1024 * chunk + p) (taken self.new) ++ rest self.new }
        ensures inside { All (λ p. p < 1024) (taken self.new) }
        ensures beyond { All (λ p. 1024 * (chunk + 1) ≤ p) (rest self.new) };

    // The first chunk from this one on that may hold a position which is left, or one past all.
    fn next_chunk(&self, chunk: usize) -> usize
        requires ahead { AscendFrom (1024 * chunk) (2 ^ 64) (rest self.now) }
        ensures onward { chunk ≤ result }
        ensures passed { All (λ p. 1024 * result ≤ p) (rest self.now) };

    // Writes the places that were taken last.
    fn list_places(&self, places: &mut [usize])
        requires { length places.old ≡ length (taken self.now) }
        ensures { places.new ≡ taken self.now };

    // Copies the values of a chunk at the places that were taken last.
    fn copy_values(&self, values: &[T], dst: &mut [T])
        requires chunk { length values.now ≡ 1024 }
        requires ascend { ascending 0 1024 (taken self.now) ≡ true }
        requires room { length dst.old ≡ length (taken self.now) }
        ensures { map Some dst.new ≡ map (slice_get values.now) (taken self.now) };
}
