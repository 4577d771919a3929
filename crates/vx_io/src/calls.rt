//! Calls by their numbers, of which some fail.
ghost use Rattle.std.specs.Prelude.{◌≡◌, ◌↔◌, ◌≤◌, true, Contains};
ghost use Rattle.vx_io.specs.Bytes.{next_count};

use vx_bits::{Buffer, Failed};

/// Calls, with numbers from 0, of which some fail, by their numbers.
#[derive(Drop)]
pub(crate) struct Calls {
    failing: Buffer<usize>,
    next: usize,
    faults: u64,
}

impl Calls {
    /// No call yet.
    pub(crate) fn new(failing: Buffer<usize>) -> Calls
        ensures { result ≡ record { failing = failing; next = 0; faults = 0 } }
    {
        Calls {
            failing,
            next: 0,
            faults: 0,
        }
    }

    /// Counts a call, and answers whether its number says that it fails.
    pub(crate) fn next_fails(&mut self) -> bool
        ensures fails { (result ≡ true) ↔ Contains self.old.failing self.old.next }
        ensures counted { self.new ≡ record self.old { next = next_count self.old.next } }
    {
        let fails = self.failing.as_slice().contains(&self.next);
        self.next = self.next.saturating_add(1);
        fails
    }

    /// Counts a call that fails.
    pub(crate) fn fault(&mut self) -> Failed
        ensures counted { self.new ≡ record self.old { faults = next_count self.old.faults } }
        ensures never_falls { self.old.faults ≤ self.new.faults }
    {
        self.faults = self.faults.saturating_add(1);
        Failed
    }
}
