//! A cursor over indices.
ghost use Rattle.std.specs.Prelude.{◌≡◌, ◌+◌, ◌*◌, ◌^◌, ◌<◌, ◌≤◌, ◌++◌, Some, length, map, take, drop, slice_get};
ghost use Rattle.std.specs.List.{All};
ghost use Rattle.vx_chunked.specs.Positions.{AscendFrom, IsInChunk, places_of};

use crate::cursor::Cursor;
use vx_decoder::FILTER_CHUNK_LEN;

// Indices, each a position that counts from value `offset` on, in the chunk whose first value is
// value `base`.
#[derive(Clone, Copy)]
struct IndexFront<'a> {
    indices: &'a [usize],
    offset: usize,
    base: usize,
    ghost counted: { base + 1024 ≤ 2 ^ 64 },
    ghost inside: { All (λ i. IsInChunk base (offset + i)) indices.now },
}

/// Indices that are left, each a position that counts from value `offset` on, and those that were
/// taken last.
#[derive(Drop)]
pub(crate) struct IndexCursor<'a> {
    indices: &'a [usize],
    offset: usize,
    front: IndexFront<'a>,
}

impl IndexCursor<'_> {
    /// A cursor over these indices.
    pub(crate) fn new<'a>(indices: &'a [usize], offset: usize) -> IndexCursor<'a>
        ensures { map (λ i. result.offset + i) result.indices.now
            ≡ map (λ i. offset + i) indices.now }
    {
        IndexCursor {
            indices,
            offset,
            front: IndexFront {
                indices: &[],
                offset,
                base: 0,
            },
        }
    }
}

// How many of the indices lie in the chunk: a search by halves, since they ascend. A chunk that is
// selected whole is seen by its last index.
fn count_in(indices: &[usize], offset: usize, chunk: usize) -> usize
    requires fits { 1024 * (chunk + 1) < 2 ^ 64 }
    requires ahead { AscendFrom (1024 * chunk) (2 ^ 64) (map (λ i. offset + i) indices.now) }
    ensures within { result ≤ length indices.now }
    ensures inside { All (λ i. IsInChunk (1024 * chunk) (offset + i)) (take result indices.now) }
    ensures beyond { All (λ p. 1024 * (chunk + 1) ≤ p)
        (map (λ i. offset + i) (drop result indices.now)) }
{
    let beyond = (FILTER_CHUNK_LEN * (chunk + 1)).saturating_sub(offset);
    let last = FILTER_CHUNK_LEN - 1;
    if last < indices.len() && indices[last] < beyond {
        return FILTER_CHUNK_LEN;
    }
    let (mut low, mut high) = (0, indices.len().min(FILTER_CHUNK_LEN));
    'half: while low < high {
        let middle = (low + high) / 2;
        if indices[middle] < beyond {
            low = middle + 1;
        } else {
            high = middle;
        }
    }
    low
}

// What was taken of indices, and those that are left.
struct Passed<'a> {
    front: IndexFront<'a>,
    left: &'a [usize],
}

// The indices that lie in the chunk.
fn front_of_indices<'a>(indices: &'a [usize], offset: usize, chunk: usize) -> Passed<'a>
    requires fits { 1024 * (chunk + 1) < 2 ^ 64 }
    requires ahead { AscendFrom (1024 * chunk) (2 ^ 64) (map (λ i. offset + i) indices.now) }
    ensures taken { map (λ i. offset + i) indices.now
        ≡ map (λ p. 1024 * chunk + p)
        (places_of result.front.offset result.front.base result.front.indices.now)
        ++ map (λ i. offset + i) result.left.now }
    ensures inside { All (λ p. p < 1024)
        (places_of result.front.offset result.front.base result.front.indices.now) }
    ensures beyond { All (λ p. 1024 * (chunk + 1) ≤ p) (map (λ i. offset + i) result.left.now) }
{
    let count = count_in(indices, offset, chunk);
    let front = IndexFront {
        indices: &indices[..count],
        offset,
        base: FILTER_CHUNK_LEN * chunk,
    };
    Passed {
        front,
        left: &indices[count..],
    }
}

// Writes the places of the indices.
fn put_indices(front: &IndexFront, places: &mut [usize])
    requires { length places.old ≡ length front.now.indices.now }
    ensures { places.new ≡ places_of front.now.offset front.now.base front.now.indices.now }
{
    let IndexFront {
        indices,
        offset,
        base,
    } = *front;
    for k in 0..indices.len() {
        places[k] = offset + indices[k] - base;
    }
}

// Copies the values of a chunk at the places of the indices.
fn copy_indices<T: Copy>(front: &IndexFront, values: &[T], dst: &mut [T])
    requires chunk { length values.now ≡ 1024 }
    requires room { length dst.old ≡ length front.now.indices.now }
    ensures { map Some dst.new ≡ map (slice_get values.now)
        (places_of front.now.offset front.now.base front.now.indices.now) }
{
    let IndexFront {
        indices,
        offset,
        base,
    } = *front;
    for k in 0..indices.len() {
        dst[k] = values[offset + indices[k] - base];
    }
}

impl<T: Copy> Cursor<T> for IndexCursor<'_> {
    ghost use Rattle.vx_chunked.specs.Positions.{places_of};

    ghost rest = { λ s. map (λ i. s.offset + i) s.indices.now };

    ghost taken = { λ s. places_of s.front.offset s.front.base s.front.indices.now };

    fn take_places(&mut self, chunk: usize) -> usize {
        let Passed { front, left } = front_of_indices(self.indices, self.offset, chunk);
        self.indices = left;
        self.front = front;
        front.indices.len()
    }

    fn next_chunk(&self, chunk: usize) -> usize {
        // Only the contract speaks of it.
        let _ = chunk;
        match self.indices.first() {
            Some(first) => (self.offset + first) / FILTER_CHUNK_LEN,
            None => usize::MAX,
        }
    }

    fn list_places(&self, places: &mut [usize]) {
        put_indices(&self.front, places)
    }

    fn copy_values(&self, values: &[T], dst: &mut [T]) {
        copy_indices(&self.front, values, dst)
    }
}
