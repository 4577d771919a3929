//! Bytes in memory, of which some reads fail.
ghost use Rattle.std.specs.Prelude.{◌≡◌, ◌↔◌, ◌<◌, ◌≤◌, ◌++◌, [], length, take, IsErr, IfOk, OnOk, OnErr, Contains, min};
ghost use Rattle.vx_io.specs.Bytes.{Rose};
ghost use Rattle.vx_io.specs.MemorySource.{new_source, after_read, after_failed_read};

use crate::calls::Calls;
use crate::source::Source;
use crate::steady_source::SteadySource;
use std::marker::Model;
use vx_bits::{Buffer, Failed};

/// Bytes in memory, handed out in pieces. Some calls fail, by their numbers.
#[derive(Drop)]
pub struct MemorySource {
    steady: SteadySource,
    calls: Calls,
}

impl Model for MemorySource {
    ghost use Rattle.vx_io.specs.MemorySource.{SourceState};

    ghost Value = { SourceState };

    ghost view = { λ s. record {
      bytes = s.steady.bytes;
      piece = s.steady.piece;
      failing = s.calls.failing;
      call = s.calls.next;
      faults = s.calls.faults;
    } };
}

impl MemorySource {
    /// A source of these bytes, at most `piece` of them a call. A call fails where its number,
    /// from 0, is in `failing`.
    pub fn new(bytes: Buffer<u8>, piece: usize, failing: Buffer<usize>) -> MemorySource
        requires { 1 ≤ piece }
        ensures { result ≡ new_source bytes piece failing }
    {
        MemorySource {
            steady: SteadySource::new(bytes, piece),
            calls: Calls::new(failing),
        }
    }
}

impl Source for MemorySource {
    ghost use Rattle.std.specs.Prelude.{Some};

    ghost rest = { λ s. Some s.bytes };

    ghost faults = { λ s. s.faults };

    fn read(&mut self, dst: &mut [u8]) -> Result<usize, Failed>
        ensures within { IfOk result (λ n. n ≤ length dst.new) }
        ensures taken { IfOk result (λ n. self.old.bytes ≡ take n dst.new ++ self.new.bytes) }
        ensures end { IfOk result (λ n. 0 < length dst.new → (n ≡ 0) ↔ (self.old.bytes ≡ [])) }
        ensures amount { IfOk result (λ n.
            n ≡ min (min (length self.old.bytes) self.old.piece) (length dst.new)) }
        ensures moved { IfOk result (λ n. self.new ≡ after_read self.old n) }
        ensures no_fault { OnOk result (self.new.faults ≡ self.old.faults) }

        // It fails exactly where its number says so.
        ensures fails { IsErr result ↔ Contains self.old.failing self.old.call }
        ensures failed { OnErr result (self.new ≡ after_failed_read self.old) }
        ensures kept { OnErr result (dst.new ≡ dst.old) }
        ensures cause { OnErr result (Rose self.old.faults self.new.faults) }
        ensures unmoved { OnErr result (self.new.bytes ≡ self.old.bytes) }
        ensures never_falls { self.old.faults ≤ self.new.faults }
    {
        if self.calls.next_fails() {
            return Err(self.calls.fault());
        }
        self.steady.read(dst)
    }
}
