//! Bytes of the caller's, to read from.
ghost use Rattle.std.specs.Prelude.{◌≡◌};

use std::marker::Model;
use vx_rows::{Failed, Source};

/// Bytes of the caller's, from which no read fails.
#[derive(Drop)]
pub(crate) struct SliceSource<'a> {
    bytes: &'a [u8],
    at: usize,
}

impl<'a> Model for SliceSource<'a> {
    ghost use Rattle.std.specs.Prelude.{◌≤◌, ℕ, List, drop, length};

    ghost Value = { List ℕ };

    ghost view = { λ s. drop s.at s.bytes.now };

    ghost invariant = { λ s. s.at ≤ length s.bytes.now };
}

impl<'a> SliceSource<'a> {
    /// A source of these bytes.
    pub(crate) fn new(bytes: &'a [u8]) -> SliceSource<'a>
        ensures { result ≡ bytes.now }
    {
        SliceSource { bytes, at: 0 }
    }
}

impl<'a> Source for SliceSource<'a> {
    ghost use Rattle.std.specs.Prelude.{Some};

    ghost rest = { λ s. Some s };

    ghost faults = { λ _. 0 };

    fn read(&mut self, dst: &mut [u8]) -> Result<usize, Failed> {
        let left = self.bytes.len() - self.at;
        let n = left.min(dst.len());
        dst[..n].copy_from_slice(&self.bytes[self.at..self.at + n]);
        self.at += n;
        Ok(n)
    }
}
