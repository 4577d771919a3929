//! A decoder that keeps its calls.
ghost use Rattle.std.specs.Prelude.{◌≡◌, ◌≤◌, [], IfOk};

use crate::call::{Call, CallLog};
use crate::decoder::ChunkDecoder;
use std::alloc::Global;
use std::marker::{Model, PhantomData};
use vx_bits::NoMemory;

/// A decoder, and the calls that it was asked, as many as there is room for.
///
/// Clauses see the decoder, its calls, and the room that is left.
#[derive(Drop)]
pub struct Logged<T: Copy, D: ChunkDecoder<T> + Drop> {
    inner: D,
    made: Vec<Call>,
    room: usize,
    values: PhantomData<T>,
}

impl<T: Copy, D: ChunkDecoder<T> + Drop> Model for Logged<T, D> {
    ghost use Rattle.std.specs.Prelude.{ℕ, List, ◌+◌, ◌≤◌, vec_len, vec_capacity};
    ghost use Rattle.vx_decoder.specs.declared.call.Call.{Call};

    ghost Value = { D × List Call × ℕ };

    ghost view = { λ s. (s.inner, s.made.items, s.room) };

    ghost invariant = { λ s. (vec_len s.made + s.room ≤ vec_capacity s.made)
        × (s.room ≤ D.spare s.inner) };
}

impl<T: Copy, D: ChunkDecoder<T> + Drop> Logged<T, D> {
    /// The decoder `inner`, which may be asked `room` times, with no call yet. Fails only with
    /// `NoMemory`.
    pub fn new(alloc: Global, inner: D, room: usize) -> Result<Logged<T, D>, NoMemory>
        requires { room ≤ D.spare inner }
        ensures { IfOk result (λ s. s ≡ (inner, [], room)) }
    {
        let made = Vec::with_capacity(alloc, room)?;
        Ok(Logged {
            inner,
            made,
            room,
            values: PhantomData,
        })
    }

    /// The calls, in order.
    pub fn calls(&self) -> &[Call]
        ensures { result.now ≡ self.now.1 }
    {
        self.made.as_slice()
    }

    /// The calls, without the decoder.
    pub fn into_log(self) -> CallLog
        ensures { result ≡ self.1 }
    {
        CallLog {
            made: Some(self.made),
        }
    }
}

impl<T: Copy, D: ChunkDecoder<T> + Drop> ChunkDecoder<T> for Logged<T, D> {
    ghost use Rattle.std.specs.Prelude.{Some};

    ghost values = { λ s. D.values s.0 };

    ghost calls = { λ s. Some s.1 };

    ghost spare = { λ s. s.2 };

    ghost whole = { λ s. D.whole s.0 };

    ghost bounded = { λ s. D.bounded s.0 };

    fn decode_chunk(&mut self, chunk_idx: usize, dst: &mut [T]) {
        self.made.push_reserved(Call::Whole { chunk: chunk_idx });
        self.room -= 1;
        self.inner.decode_chunk(chunk_idx, dst);
    }

    fn decode_indices(&mut self, chunk_idx: usize, indices: &[usize], dst: &mut [T]) {
        self.made.push_reserved(Call::Only {
            chunk: chunk_idx,
            count: indices.len(),
        });
        self.room -= 1;
        self.inner.decode_indices(chunk_idx, indices, dst);
    }
}
