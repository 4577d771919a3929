//! A decoder over values in memory.
ghost use Rattle.std.specs.Prelude.{◌≡◌, ◌%◌, ◌^◌, length};
ghost use Rattle.vx_decoder.specs.Told.{whole_chunks};

use crate::decoder::{ChunkDecoder, FILTER_CHUNK_LEN};
use crate::places::copy_places;
use std::marker::Model;
use vx_bits::Buffer;

/// Values that need no decoding. It tells no calls, and may be called as often as it is asked.
///
/// Clauses see the values.
#[derive(Drop)]
pub struct StoredChunks<T: Copy> {
    held: Buffer<T>,
}

impl<T: Copy> Model for StoredChunks<T> {
    ghost use Rattle.std.specs.Prelude.{◌≡◌, ◌%◌, List, length};

    ghost Value = { List T };

    ghost view = { λ s. s.held };

    ghost invariant = { λ s. length s.held % 1024 ≡ 0 };
}

impl<T: Copy> StoredChunks<T> {
    /// A decoder of these values, which are whole chunks.
    #[tactic(auto, using(crate::specs::Laws::whole_chunks_same))]
    pub fn new(values: Buffer<T>) -> StoredChunks<T>
        requires { length values % 1024 ≡ 0 }
        ensures value { result ≡ values }
        ensures whole { whole_chunks values ≡ values }
    {
        let _bounded = values.len();
        StoredChunks { held: values }
    }
}

impl<T: Copy> ChunkDecoder<T> for StoredChunks<T> {
    ghost use Rattle.std.specs.Prelude.{◌-◌, ◌^◌, None};
    ghost use Rattle.vx_decoder.specs.Laws.{whole_chunks_are_whole, whole_chunks_are_bounded};

    ghost values = { λ s. whole_chunks s };

    ghost calls = { λ _. None };

    ghost spare = { λ _. 2 ^ 64 - 1 };

    ghost whole = { λ s. whole_chunks_are_whole s };

    ghost bounded = { λ s. whole_chunks_are_bounded s };

    #[tactic(auto, using(crate::specs::Laws::whole_chunks_same))]
    fn decode_chunk(&mut self, chunk_idx: usize, dst: &mut [T]) {
        let _bounded = self.held.len();
        let first = FILTER_CHUNK_LEN * chunk_idx;
        dst.copy_from_slice(&self.held.as_slice()[first..first + FILTER_CHUNK_LEN]);
    }

    #[tactic(auto, using(crate::specs::Laws::whole_chunks_same))]
    fn decode_indices(&mut self, chunk_idx: usize, indices: &[usize], dst: &mut [T]) {
        let _bounded = self.held.len();
        let first = FILTER_CHUNK_LEN * chunk_idx;
        copy_places(
            &self.held.as_slice()[first..first + FILTER_CHUNK_LEN],
            indices,
            dst,
        );
    }
}
