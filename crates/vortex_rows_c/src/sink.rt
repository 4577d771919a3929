//! A text in memory, to write to.
ghost use Rattle.std.specs.Prelude.{◌≡◌, ◌+◌, ◌≤◌, ◌++◌, [], length, take, IsOk, IfOk, OnOk, OnErr};
ghost use Rattle.vx_io.specs.Bytes.{Rose};

use std::alloc::Global;
use std::marker::Model;
use vx_rows::{Failed, Sink};

/// A text that grows. A write fails only when memory runs out.
#[derive(Drop)]
pub(crate) struct TextSink {
    text: Vec<u8>,
    pending: usize,
    faults: u64,
}

impl Model for TextSink {
    ghost use Rattle.std.specs.Prelude.{◌≤◌, vec_len};
    ghost use Rattle.vortex_rows_c.specs.Running.{TextState};

    ghost Value = { TextState };

    ghost view = { λ s. record { held = s.text.items; pending = s.pending; faults = s.faults } };

    ghost invariant = { λ s. s.pending ≤ vec_len s.text };
}

impl TextSink {
    /// A sink of no text yet. Allocates nothing.
    pub(crate) fn new(alloc: Global) -> TextSink
        ensures { result ≡ record { held = []; pending = 0; faults = 0 } }
    {
        TextSink {
            text: Vec::new(alloc),
            pending: 0,
            faults: 0,
        }
    }

    /// The text.
    pub(crate) fn text(&self) -> &[u8]
        ensures { result.now ≡ self.now.held }
    {
        self.text.as_slice()
    }
}

impl Sink for TextSink {
    ghost use Rattle.std.specs.Prelude.{Some};

    ghost held = { λ s. Some s.held };

    ghost pending = { λ s. s.pending };

    ghost faults = { λ s. s.faults };

    fn write(&mut self, piece: &[u8]) -> Result<usize, Failed>
        ensures all { IfOk result (λ n. n ≡ length piece.now) }
        ensures appended { IfOk result (λ n. self.new.held ≡ self.old.held ++ take n piece.now) }
        ensures pending { IfOk result (λ n. self.new.pending ≡ self.old.pending + n) }
        ensures no_fault { OnOk result (self.new.faults ≡ self.old.faults) }
        ensures cause { OnErr result (Rose self.old.faults self.new.faults) }
        ensures unmoved { OnErr result (self.new.held ≡ self.old.held) }
        ensures still { OnErr result (self.new.pending ≡ self.old.pending) }
        ensures never_falls { self.old.faults ≤ self.new.faults }
    {
        if self.text.extend_from_slice(piece).is_err() {
            self.faults = self.faults.saturating_add(1);
            return Err(Failed);
        }
        self.pending += piece.len();
        Ok(piece.len())
    }

    fn finish(&mut self) -> Result<(), Failed>
        ensures held { self.new.held ≡ self.old.held }
        ensures finished { OnOk result (self.new.pending ≡ 0) }
        ensures no_fault { self.new.faults ≡ self.old.faults }
        ensures succeeds { IsOk result }
    {
        self.pending = 0;
        Ok(())
    }
}
