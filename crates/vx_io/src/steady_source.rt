//! Bytes in memory, of which no read fails.
ghost use Rattle.std.specs.Prelude.{◌≡◌, ◌↔◌, ◌<◌, ◌≤◌, ◌++◌, [], length, take, drop, IsOk, IfOk, min};

use crate::source::Source;
use std::marker::Model;
use vx_bits::{Buffer, Failed};

/// Bytes in memory, handed out in pieces. No call fails.
#[derive(Drop)]
pub struct SteadySource {
    bytes: Buffer<u8>,
    at: usize,
    piece: usize,
}

impl Model for SteadySource {
    ghost use Rattle.std.specs.Prelude.{◌≤◌, drop, length};
    ghost use Rattle.vx_io.specs.SteadySource.{SteadyState};

    ghost Value = { SteadyState };

    ghost view = { λ s. record { bytes = drop s.at s.bytes; piece = s.piece } };

    ghost invariant = { λ s. (s.at ≤ length s.bytes) × (1 ≤ s.piece) };
}

impl SteadySource {
    /// A source of these bytes, at most `piece` of them a call.
    pub fn new(bytes: Buffer<u8>, piece: usize) -> SteadySource
        requires { 1 ≤ piece }
        ensures { result ≡ record { bytes = bytes; piece = piece } }
    {
        SteadySource {
            bytes,
            at: 0,
            piece,
        }
    }
}

impl Source for SteadySource {
    ghost use Rattle.std.specs.Prelude.{Some};

    ghost rest = { λ s. Some s.bytes };

    ghost faults = { λ _. 0 };

    fn read(&mut self, dst: &mut [u8]) -> Result<usize, Failed>
        ensures succeeds { IsOk result }
        ensures within { IfOk result (λ n. n ≤ length dst.new) }
        ensures taken { IfOk result (λ n. self.old.bytes ≡ take n dst.new ++ self.new.bytes) }
        ensures end { IfOk result (λ n. 0 < length dst.new → (n ≡ 0) ↔ (self.old.bytes ≡ [])) }
        ensures amount { IfOk result (λ n.
            n ≡ min (min (length self.old.bytes) self.old.piece) (length dst.new)) }
        ensures moved { IfOk result (λ n.
            self.new ≡ record self.old { bytes = drop n self.old.bytes }) }
    {
        let left = self.bytes.len() - self.at;
        let n = left.min(self.piece).min(dst.len());
        dst[..n].copy_from_slice(&self.bytes.as_slice()[self.at..self.at + n]);
        self.at += n;
        Ok(n)
    }
}
