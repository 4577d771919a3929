//! Bytes kept in memory, of which some writes and finishes fail.
ghost use Rattle.std.specs.Prelude.{◌≡◌, ◌↔◌, ◌⊎◌, ◌+◌, ◌<◌, ◌≤◌, ◌++◌, [], length, take, IsErr, IfOk, OnOk, OnErr, Contains, min};
ghost use Rattle.vx_io.specs.Bytes.{Rose};
ghost use Rattle.vx_io.specs.MemorySink.{new_sink, after_write, after_finish, after_failed_call};

use crate::calls::Calls;
use crate::sink::Sink;
use std::alloc::Global;
use std::marker::Model;
use vx_bits::{Buffer, Failed, NoMemory};

/// Bytes that are kept in memory, up to a room. It takes them in pieces. Some calls fail, by
/// their numbers, and so does each write of a piece where no room is left.
#[derive(Drop)]
pub struct MemorySink {
    bytes: Vec<u8>,
    room: usize,
    pending: usize,
    piece: usize,
    calls: Calls,
}

impl Model for MemorySink {
    ghost use Rattle.std.specs.Prelude.{◌+◌, ◌≤◌, vec_len, vec_capacity};
    ghost use Rattle.vx_io.specs.MemorySink.{SinkState};

    ghost Value = { SinkState };

    ghost view = { λ s. record {
      held = s.bytes.items;
      room = s.room;
      pending = s.pending;
      piece = s.piece;
      failing = s.calls.failing;
      call = s.calls.next;
      faults = s.calls.faults;
    } };

    ghost invariant = { λ s. (vec_len s.bytes + s.room ≤ vec_capacity s.bytes)
        × (s.pending ≤ vec_len s.bytes)
        × (1 ≤ s.piece) };
}

impl MemorySink {
    /// An empty sink, with room for `room` bytes. Later calls allocate nothing. It takes at most
    /// `piece` bytes a call. A call fails where its number, from 0, is in `failing`, and a `finish`
    /// counts as a call too. Fails only with `NoMemory`.
    pub fn new(
        alloc: Global,
        piece: usize,
        failing: Buffer<usize>,
        room: usize,
    ) -> Result<MemorySink, NoMemory>
        requires { 1 ≤ piece }
        ensures { IfOk result (λ s. s ≡ new_sink piece failing room) }
    {
        Ok(MemorySink {
            bytes: Vec::with_capacity(alloc, room)?,
            room,
            pending: 0,
            piece,
            calls: Calls::new(failing),
        })
    }

    /// The bytes that were written.
    pub fn bytes(&self) -> &[u8]
        ensures { result.now ≡ self.now.held }
    {
        self.bytes.as_slice()
    }
}

impl Sink for MemorySink {
    ghost use Rattle.std.specs.Prelude.{Some};

    ghost held = { λ s. Some s.held };

    ghost pending = { λ s. s.pending };

    ghost faults = { λ s. s.faults };

    fn write(&mut self, piece: &[u8]) -> Result<usize, Failed>
        ensures within { IfOk result (λ n. n ≤ length piece.now) }
        ensures some { IfOk result (λ n. 0 < length piece.now → 0 < n) }
        ensures amount { IfOk result (λ n.
            n ≡ min (min self.old.room self.old.piece) (length piece.now)) }
        ensures written { IfOk result (λ n. self.new ≡ after_write self.old (take n piece.now)) }
        ensures appended { IfOk result (λ n. self.new.held ≡ self.old.held ++ take n piece.now) }
        ensures pending { IfOk result (λ n. self.new.pending ≡ self.old.pending + n) }
        ensures no_fault { OnOk result (self.new.faults ≡ self.old.faults) }

        // It fails exactly where its number says so, or no room is left for a piece.
        ensures fails { IsErr result ↔ (Contains self.old.failing self.old.call
            ⊎ ((self.old.room ≡ 0) × (0 < length piece.now))) }
        ensures failed { OnErr result (self.new ≡ after_failed_call self.old) }
        ensures cause { OnErr result (Rose self.old.faults self.new.faults) }
        ensures unmoved { OnErr result (self.new.held ≡ self.old.held) }
        ensures still { OnErr result (self.new.pending ≡ self.old.pending) }
        ensures never_falls { self.old.faults ≤ self.new.faults }
    {
        let fails = self.calls.next_fails();
        if fails || (self.room == 0 && !piece.is_empty()) {
            return Err(self.calls.fault());
        }
        let n = self.room.min(self.piece).min(piece.len());
        let Ok(()) = self.bytes.extend_from_slice(&piece[..n]) else {
            unreachable!();
        };
        self.room -= n;
        self.pending += n;
        Ok(n)
    }

    fn finish(&mut self) -> Result<(), Failed>
        ensures finished { OnOk result (self.new ≡ after_finish self.old) }
        ensures held { self.new.held ≡ self.old.held }
        ensures no_fault { OnOk result (self.new.faults ≡ self.old.faults) }

        // It fails exactly where its number says so.
        ensures fails { IsErr result ↔ Contains self.old.failing self.old.call }
        ensures failed { OnErr result (self.new ≡ after_failed_call self.old) }
        ensures cause { OnErr result (Rose self.old.faults self.new.faults) }
        ensures still { OnErr result (self.new.pending ≡ self.old.pending) }
        ensures never_falls { self.old.faults ≤ self.new.faults }
    {
        if self.calls.next_fails() {
            return Err(self.calls.fault());
        }
        self.pending = 0;
        Ok(())
    }
}
