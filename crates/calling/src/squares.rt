//! A decoder of the caller's own, which computes its values.
ghost use Rattle.std.specs.Prelude.{◌≡◌, ◌-◌, ◌^◌, ◌≤◌};
ghost use Rattle.calling.specs.Squares.{square};

use vortex_select::{ChunkDecoder, FILTER_CHUNK_LEN};

/// The squares of the first whole numbers, 8 bytes each, in so many chunks of 1024. It counts the
/// calls that it is asked, and tells no list of them.
#[derive(Drop)]
pub(crate) struct Squares {
    chunks: usize,
    asked: usize,
    ghost few: { chunks ≤ 2 ^ 22 },
}

impl Squares {
    /// So many chunks, not asked yet.
    pub(crate) fn new(chunks: usize) -> Squares
        requires { chunks ≤ 2 ^ 22 }
        ensures chunks { result.chunks ≡ chunks }
        ensures asked { result.asked ≡ 0 }
    {
        Squares { chunks, asked: 0 }
    }

    /// How many calls it was asked.
    pub(crate) fn asked(&self) -> usize
        ensures { result ≡ self.now.asked }
    {
        self.asked
    }
}

// The record of `n` times `n`.
fn square(n: usize) -> [u8; 8]
    requires { n ≤ 2 ^ 32 - 1 }
    ensures { result ≡ square n }
{
    ((n * n) as u64).to_le_bytes()
}

impl ChunkDecoder<[u8; 8]> for Squares {
    ghost use Rattle.std.specs.Prelude.{◌*◌, ◌-◌, ◌^◌, None};
    ghost use Rattle.calling.specs.Squares.{squares_below, squares_are_whole, squares_are_bounded};

    ghost values = { λ s. squares_below (1024 * s.chunks) };

    ghost calls = { λ _. None };

    ghost spare = { λ s. 2 ^ 64 - 1 - s.asked };

    ghost whole = { λ s. squares_are_whole s.chunks };

    ghost bounded = { λ s. squares_are_bounded s.chunks s.few };

    #[tactic(auto, using(crate::proofs::SquareLists::squares))]
    fn decode_chunk(&mut self, chunk_idx: usize, dst: &mut [[u8; 8]]) {
        self.asked += 1;
        let first = FILTER_CHUNK_LEN * chunk_idx;
        for i in 0..FILTER_CHUNK_LEN {
            dst[i] = square(first + i);
        }
    }

    #[tactic(auto, using(crate::proofs::SquareLists::squares))]
    fn decode_indices(&mut self, chunk_idx: usize, indices: &[usize], dst: &mut [[u8; 8]]) {
        self.asked += 1;
        let first = FILTER_CHUNK_LEN * chunk_idx;
        for k in 0..indices.len() {
            dst[k] = square(first + indices[k]);
        }
    }
}
