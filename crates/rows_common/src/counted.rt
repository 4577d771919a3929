//! A decoder that counts its calls, which is not one of the library's.
use vx_decoder::ChunkDecoder;

/// A decoder that hands its calls on, and counts those that are left.
#[derive(Drop)]
pub struct Counted<D> {
    /// The decoder that the calls are handed on to.
    pub inner: D,
    /// How many calls are left.
    pub spare: usize,
}

impl<T: Copy, D: ChunkDecoder<T>> ChunkDecoder<T> for Counted<D> {
    ghost use Rattle.std.specs.Prelude.{min};

    ghost values = { λ s. D.values s.inner };

    ghost calls = { λ s. D.calls s.inner };

    ghost spare = { λ s. min s.spare (D.spare s.inner) };

    ghost whole = { λ s. D.whole s.inner };

    ghost bounded = { λ s. D.bounded s.inner };

    fn decode_chunk(&mut self, chunk_idx: usize, dst: &mut [T]) {
        self.spare -= 1;
        self.inner.decode_chunk(chunk_idx, dst);
    }

    fn decode_indices(&mut self, chunk_idx: usize, indices: &[usize], dst: &mut [T]) {
        self.spare -= 1;
        self.inner.decode_indices(chunk_idx, indices, dst);
    }
}
