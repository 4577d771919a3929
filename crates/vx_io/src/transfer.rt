//! All of a source into memory, and all of a text into a sink.
ghost use Rattle.std.specs.Prelude.{◌≡◌, ℕ, ◌+◌, ◌<◌, ◌≤◌, [], length, take, vec_len, IfOk, OnOk, OnErr, IfSome, IsErrOf};
ghost use Rattle.vx_io.specs.Bytes.{Rose, Loses, with_front, with_back};

use crate::sink::Sink;
use crate::source::Source;
use std::alloc::{AllocError, Global};
use vx_bits::Failed;

/// How many bytes `read_all` answers at most.
pub const MAX_BYTES: usize = 16_777_216;

/// How many bytes the first read has room for.
const FIRST_ROOM: usize = 65_536;

/// Why the reading stopped before the end.
#[derive(Clone, Copy, Debug, PartialEq, Eq)]
pub enum Stop {
    /// A read failed.
    Fault,
    /// One byte more than the bound was taken.
    TooLong,
    /// Out of memory.
    NoMemory,
}

/// All bytes of a source, up to its end.
///
/// It stops at the first read that fails: rows of `rows_of_bytes` show it, and no clause says so.
/// Where there are more than `MAX_BYTES`, one byte past the bound is taken, and no more.
pub fn read_all<S: Source>(alloc: Global, source: &mut S) -> Result<Vec<u8>, Stop>
    ensures taken { IfOk result (λ v. S.rest source.old ≡ with_front v.items (S.rest source.new)) }
    ensures end { OnOk result (IfSome (S.rest source.new) (λ left. left ≡ [])) }
    ensures short { IfOk result (λ v. length v.items ≤ MAX_BYTES) }
    ensures no_fault { OnOk result (S.faults source.new ≡ S.faults source.old) }

    ensures fault { IsErrOf result Stop.Fault → Rose (S.faults source.old) (S.faults source.new) }
    ensures part { OnErr result ((n : ℕ) × Loses (S.rest source.old) (S.rest source.new) n) }
    ensures never_falls { S.faults source.old ≤ S.faults source.new }

    ensures too_long { IsErrOf result Stop.TooLong →
        IfSome (S.rest source.old) (λ bytes. MAX_BYTES < length bytes) }
    ensures past { IsErrOf result Stop.TooLong →
        Loses (S.rest source.old) (S.rest source.new) (MAX_BYTES + 1) }
    ensures too_long_no_fault { IsErrOf result Stop.TooLong →
        S.faults source.new ≡ S.faults source.old }
    ensures no_memory_no_fault { IsErrOf result Stop.NoMemory →
        S.faults source.new ≡ S.faults source.old }
{
    let mut buffer = Vec::new(alloc);
    let mut filled = 0;
    'reading: while filled <= MAX_BYTES {
        if make_room(&mut buffer, filled).is_err() {
            return Err(Stop::NoMemory);
        }
        let Ok(n) = source.read(&mut buffer[filled..]) else {
            return Err(Stop::Fault);
        };
        if n == 0 {
            buffer.truncate(filled);
            return Ok(buffer);
        }
        filled += n;
    }
    Err(Stop::TooLong)
}

/// Makes room for at least one byte behind those that are filled. The room grows by a quarter, up
/// to one byte past the bound: a list of many bytes grows in its place, so small steps cost little.
fn make_room(buffer: &mut Vec<u8>, filled: usize) -> Result<(), AllocError>
    requires within { filled ≤ vec_len buffer.old }
    requires below { filled ≤ MAX_BYTES }
    requires short { vec_len buffer.old ≤ MAX_BYTES + 1 }
    ensures room { OnOk result (filled < vec_len buffer.new) }
    ensures short { vec_len buffer.new ≤ MAX_BYTES + 1 }
    ensures kept { take filled buffer.new.items ≡ take filled buffer.old.items }
{
    if filled < buffer.len() {
        return Ok(());
    }
    let wanted = (filled + filled / 4).max(FIRST_ROOM).min(MAX_BYTES + 1);
    buffer.resize(wanted, 0)
}

/// Delivers a text to a sink: writes all of it, and finishes.
///
/// It stops at the first call that fails: rows of `rows_of_bytes` show it, and no clause says so.
pub fn deliver<K: Sink>(sink: &mut K, text: &[u8]) -> Result<(), Failed>
    ensures all { OnOk result (K.held sink.new ≡ with_back (K.held sink.old) text.now) }
    ensures finished { OnOk result (IfSome (K.held sink.old) (λ _. K.pending sink.new ≡ 0)) }
    ensures no_fault { OnOk result (K.faults sink.new ≡ K.faults sink.old) }

    ensures cause { OnErr result (Rose (K.faults sink.old) (K.faults sink.new)) }
    ensures part { OnErr result ((n : ℕ)
        × (K.held sink.new ≡ with_back (K.held sink.old) (take n text.now))) }
    ensures never_falls { K.faults sink.old ≤ K.faults sink.new }
{
    let mut at = 0;
    'writing: while at < text.len() {
        let Ok(n) = sink.write(&text[at..]) else {
            return Err(Failed);
        };
        at += n;
    }
    sink.finish()
}
