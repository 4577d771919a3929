//! A count of the bytes that were written.
ghost use Rattle.std.specs.Prelude.{◌≡◌, ◌+◌, ◌-◌, ◌^◌, length, IsOk, IfOk, min};

use crate::sink::Sink;
use std::marker::Model;
use vx_bits::Failed;

/// Takes all bytes and keeps their number alone. It doesn't tell its bytes, and no call fails.
#[derive(Drop)]
pub struct CountingSink {
    taken: u64,
}

// Clauses see the number of bytes that were taken.
impl Model for CountingSink {
    ghost use Rattle.std.specs.Prelude.{ℕ};

    ghost Value = { ℕ };

    ghost view = { λ s. s.taken };
}

impl CountingSink {
    /// A sink that has taken nothing.
    pub fn new() -> CountingSink
        ensures { result ≡ 0 }
    {
        CountingSink { taken: 0 }
    }

    /// How many bytes it has taken. It stays at its greatest value.
    pub fn taken(&self) -> u64
        ensures { result ≡ self.now }
    {
        self.taken
    }
}

impl Sink for CountingSink {
    ghost use Rattle.std.specs.Prelude.{None};

    ghost held = { λ _. None };

    ghost pending = { λ _. 0 };

    ghost faults = { λ _. 0 };

    fn write(&mut self, piece: &[u8]) -> Result<usize, Failed>
        ensures succeeds { IsOk result }
        ensures all { IfOk result (λ n. n ≡ length piece.now) }
        ensures counted { self.new ≡ min (self.old + length piece.now) (2 ^ 64 - 1) }
    {
        self.taken = self.taken.saturating_add(piece.len() as u64);
        Ok(piece.len())
    }

    fn finish(&mut self) -> Result<(), Failed>
        ensures succeeds { IsOk result }
        ensures unchanged { self.new ≡ self.old }
    {
        Ok(())
    }
}
