//! A cursor over runs. A run may cross chunks.
ghost use Rattle.std.specs.Prelude.{◌≡◌, ◌+◌, ◌*◌, ◌-◌, ◌^◌, ◌<◌, ◌≤◌, ◌++◌, Some, length, map, take, drop, slice_get};
ghost use Rattle.std.specs.List.{All, range_with_len};
ghost use Rattle.vx_chunked.specs.Positions.{AscendFrom, IsInChunk, places_of, with_runs};

use crate::cursor::Cursor;
use vx_decoder::FILTER_CHUNK_LEN;

// What is left of a run, and the runs after it, each a range of positions.
#[derive(Clone, Copy)]
struct Runs<'a> {
    start: usize,
    end: usize,
    later: &'a [(usize, usize)],
}

// The first `count` positions of runs, each counted from value `offset` on, in the chunk whose
// first value is value `base`.
#[derive(Clone, Copy)]
struct RunFront<'a> {
    runs: Runs<'a>,
    count: usize,
    offset: usize,
    base: usize,
    ghost counted: { base + 1024 ≤ 2 ^ 64 },
    ghost enough: { count ≤ length (with_runs runs.start runs.end runs.later.now) },
    ghost inside: { All (λ i. IsInChunk base (offset + i))
        (take count (with_runs runs.start runs.end runs.later.now)) },
}

/// Runs whose positions count from value `offset` on, and those positions that were taken last.
#[derive(Drop)]
pub(crate) struct RunCursor<'a> {
    runs: Runs<'a>,
    offset: usize,
    front: RunFront<'a>,
}

impl RunCursor<'_> {
    /// A cursor over the positions from `start` up to `end`, and those of the runs.
    pub(crate) fn new<'a>(
        start: usize,
        end: usize,
        later: &'a [(usize, usize)],
        offset: usize,
    ) -> RunCursor<'a>
        ensures { map (λ i. result.offset + i)
            (with_runs result.runs.start result.runs.end result.runs.later.now)
            ≡ map (λ i. offset + i) (with_runs start end later.now) }
    {
        let runs = Runs { start, end, later };
        RunCursor {
            runs,
            offset,
            front: RunFront {
                runs,
                count: 0,
                offset,
                base: 0,
            },
        }
    }
}

// What is left of runs behind so many positions.
struct Walked<'a> {
    count: usize,
    left: Runs<'a>,
}

// Goes over the positions that lie in the chunk, of what is left of a run, and of the runs after
// it.
fn walk<'a>(runs: &Runs<'a>, offset: usize, chunk: usize) -> Walked<'a>
    requires fits { 1024 * (chunk + 1) < 2 ^ 64 }
    requires ahead { AscendFrom (1024 * chunk) (2 ^ 64)
        (map (λ i. offset + i) (with_runs runs.now.start runs.now.end runs.now.later.now)) }
    ensures enough { result.count
        ≤ length (with_runs runs.now.start runs.now.end runs.now.later.now) }
    ensures taken { drop result.count (with_runs runs.now.start runs.now.end runs.now.later.now)
        ≡ with_runs result.left.start result.left.end result.left.later.now }
    ensures inside { All (λ i. IsInChunk (1024 * chunk) (offset + i))
        (take result.count (with_runs runs.now.start runs.now.end runs.now.later.now)) }
    ensures beyond { All (λ p. 1024 * (chunk + 1) ≤ p) (map (λ i. offset + i)
        (with_runs result.left.start result.left.end result.left.later.now)) }
{
    let beyond = (FILTER_CHUNK_LEN * (chunk + 1)).saturating_sub(offset);
    let later = runs.later;
    let (mut start, mut end) = (runs.start, runs.end);
    let mut used = 0;
    let mut count = 0;
    'run: loop {
        let more = end.min(beyond).saturating_sub(start);
        count += more;
        start += more;
        if start < end {
            break;
        }
        if used == later.len() {
            break;
        }
        (start, end) = later[used];
        used += 1;
    }
    let left = Runs {
        start,
        end,
        later: &later[used..],
    };
    Walked { count, left }
}

// What was taken of runs, and those that are left.
struct Passed<'a> {
    front: RunFront<'a>,
    left: Runs<'a>,
}

// The positions of the runs that lie in the chunk.
fn front_of_runs<'a>(runs: &Runs<'a>, offset: usize, chunk: usize) -> Passed<'a>
    requires fits { 1024 * (chunk + 1) < 2 ^ 64 }
    requires ahead { AscendFrom (1024 * chunk) (2 ^ 64)
        (map (λ i. offset + i) (with_runs runs.now.start runs.now.end runs.now.later.now)) }
    ensures taken { map (λ i. offset + i)
        (with_runs runs.now.start runs.now.end runs.now.later.now)
        ≡ map (λ p. 1024 * chunk + p) (places_of result.front.offset result.front.base
        (take result.front.count (with_runs result.front.runs.start result.front.runs.end
        result.front.runs.later.now)))
        ++ map (λ i. offset + i)
        (with_runs result.left.start result.left.end result.left.later.now) }
    ensures count { result.front.count ≡ length (places_of result.front.offset result.front.base
        (take result.front.count (with_runs result.front.runs.start result.front.runs.end
        result.front.runs.later.now))) }
    ensures inside { All (λ p. p < 1024) (places_of result.front.offset result.front.base
        (take result.front.count (with_runs result.front.runs.start result.front.runs.end
        result.front.runs.later.now))) }
    ensures beyond { All (λ p. 1024 * (chunk + 1) ≤ p) (map (λ i. offset + i)
        (with_runs result.left.start result.left.end result.left.later.now)) }
{
    let Walked { count, left } = walk(runs, offset, chunk);
    let front = RunFront {
        runs: *runs,
        count,
        offset,
        base: FILTER_CHUNK_LEN * chunk,
    };
    Passed { front, left }
}

// Writes `count` numbers from `first` on, at `at`.
#[inline(always)]
fn put_range(places: &mut [usize], at: usize, first: usize, count: usize)
    requires room { at + count ≤ length places.old }
    requires fits { first + count < 2 ^ 64 }
    ensures { take (at + count) places.new ≡ take at places.old ++ range_with_len first count }
{
    for k in 0..count {
        places[at + k] = first + k;
    }
}

// Writes the places of the positions.
fn put_runs(front: &RunFront, places: &mut [usize])
    requires { length places.old ≡ front.now.count }
    ensures { places.new ≡ places_of front.now.offset front.now.base
        (take front.now.count
        (with_runs front.now.runs.start front.now.runs.end front.now.runs.later.now)) }
{
    let RunFront {
        runs,
        count,
        offset,
        base,
        ..
    } = *front;
    let later = runs.later;
    let (mut start, mut end) = (runs.start, runs.end);
    let mut used = 0;
    let mut filled = 0;
    'part: while filled < count {
        if start < end {
            let more = (end - start).min(count - filled);
            put_range(places, filled, offset + start - base, more);
            filled += more;
            start += more;
        } else {
            (start, end) = later[used];
            used += 1;
        }
    }
}

// Copies the values from `from` on, `count` of them, to `at`: a few as a block of four or of
// sixteen, where there is one and room for it, since that is less work than a call or a loop. What
// a block has beyond them is written over by what follows.
#[inline(always)]
fn copy_part<T: Copy>(dst: &mut [T], at: usize, values: &[T], from: usize, count: usize)
    requires room { at + count ≤ length dst.old }
    requires within { from + count ≤ length values.now }
    ensures { take (at + count) dst.new ≡ take at dst.old ++ take count (drop from values.now) }
{
    let room = (values.len() - from).min(dst.len() - at);
    if count <= 4 && 4 <= room {
        copy_block(dst, at, values, from, 4);
    } else if count <= 16 && 16 <= room {
        copy_block(dst, at, values, from, 16);
    } else {
        copy_block(dst, at, values, from, count);
    }
}

// Copies the values from `from` on, `count` of them, to `at`.
#[inline(always)]
fn copy_block<T: Copy>(dst: &mut [T], at: usize, values: &[T], from: usize, count: usize)
    requires room { at + count ≤ length dst.old }
    requires within { from + count ≤ length values.now }
    ensures { take (at + count) dst.new ≡ take at dst.old ++ take count (drop from values.now) }
{
    dst[at..at + count].copy_from_slice(&values[from..from + count]);
}

// Copies the values of a chunk at the places of the positions.
fn copy_runs<T: Copy>(front: &RunFront, values: &[T], dst: &mut [T])
    requires chunk { length values.now ≡ 1024 }
    requires room { length dst.old ≡ front.now.count }
    ensures { map Some dst.new ≡ map (slice_get values.now)
        (places_of front.now.offset front.now.base (take front.now.count
        (with_runs front.now.runs.start front.now.runs.end front.now.runs.later.now))) }
{
    let RunFront {
        runs,
        count,
        offset,
        base,
    } = *front;
    let later = runs.later;
    let (mut start, mut end) = (runs.start, runs.end);
    let mut used = 0;
    let mut filled = 0;
    'part: while filled < count {
        if start < end {
            let more = (end - start).min(count - filled);
            copy_part(dst, filled, values, offset + start - base, more);
            filled += more;
            start += more;
        } else {
            (start, end) = later[used];
            used += 1;
        }
    }
}

impl<T: Copy> Cursor<T> for RunCursor<'_> {
    ghost use Rattle.vx_chunked.specs.Positions.{places_of, with_runs};

    ghost rest = { λ s. map (λ i. s.offset + i)
        (with_runs s.runs.start s.runs.end s.runs.later.now) };

    ghost taken = { λ s. places_of s.front.offset s.front.base (take s.front.count
        (with_runs s.front.runs.start s.front.runs.end s.front.runs.later.now)) };

    fn take_places(&mut self, chunk: usize) -> usize {
        let Passed { front, left } = front_of_runs(&self.runs, self.offset, chunk);
        self.runs = left;
        self.front = front;
        front.count
    }

    fn next_chunk(&self, chunk: usize) -> usize {
        let Runs { start, end, later } = self.runs;
        if start < end {
            return (self.offset + start) / FILTER_CHUNK_LEN;
        }
        if later.is_empty() { usize::MAX } else { chunk }
    }

    fn list_places(&self, places: &mut [usize]) {
        put_runs(&self.front, places)
    }

    fn copy_values(&self, values: &[T], dst: &mut [T]) {
        copy_runs(&self.front, values, dst)
    }
}
