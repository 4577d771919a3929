//! A source that keeps what was read, and a sink that keeps the front of what was written.
ghost use Rattle.std.specs.Prelude.{◌≤◌};

use std::alloc::Global;
use vx_rows::{Failed, Sink, Source};

/// How many bytes of a document are kept: more would cost memory that few invalid documents need.
const DOCUMENT: usize = 65_536;

/// How many bytes of what was written are kept: as many as the line of an invalid step has.
const FRONT: usize = 160;

/// A source that keeps a copy of the bytes that were read, if they are few.
#[derive(Drop)]
pub(crate) struct KeptSource<S> {
    source: S,
    bytes: Vec<u8>,
    is_whole: bool,
}

/// A sink that keeps a copy of the first bytes that were written.
#[derive(Drop)]
pub(crate) struct KeptSink<K> {
    sink: K,
    front: Vec<u8>,
}

impl<S: Source> KeptSource<S> {
    /// Makes a source over another one, of which nothing was read yet.
    pub(crate) fn new(alloc: Global, source: S) -> KeptSource<S> {
        KeptSource {
            source,
            bytes: Vec::new(alloc),
            is_whole: true,
        }
    }

    /// Returns what was read, or `None` if it has more than 65,536 bytes or memory ran out.
    pub(crate) fn bytes(&self) -> Option<&[u8]> {
        if self.is_whole {
            Some(self.bytes.as_slice())
        } else {
            None
        }
    }
}

impl<K: Sink> KeptSink<K> {
    /// Makes a sink over another one, to which nothing was written yet.
    pub(crate) fn new(alloc: Global, sink: K) -> KeptSink<K> {
        KeptSink {
            sink,
            front: Vec::new(alloc),
        }
    }

    /// Returns the first bytes that were written.
    pub(crate) fn front(&self) -> &[u8] {
        self.front.as_slice()
    }
}

impl<S: Source> Source for KeptSource<S> {
    ghost rest = { λ s. S.rest s.source };

    ghost faults = { λ s. S.faults s.source };

    fn read(&mut self, dst: &mut [u8]) -> Result<usize, Failed> {
        let Ok(n) = self.source.read(dst) else {
            return Err(Failed);
        };
        let is_long = self.bytes.len().saturating_add(n) > DOCUMENT;
        if !self.is_whole || is_long || self.bytes.extend_from_slice(&dst[..n]).is_err() {
            self.is_whole = false;
        }
        Ok(n)
    }
}

impl<K: Sink> Sink for KeptSink<K> {
    ghost held = { λ s. K.held s.sink };

    ghost pending = { λ s. K.pending s.sink };

    ghost faults = { λ s. K.faults s.sink };

    fn write(&mut self, piece: &[u8]) -> Result<usize, Failed> {
        let Ok(n) = self.sink.write(piece) else {
            return Err(Failed);
        };
        if self.front.len() < FRONT {
            let more = n.min(FRONT - self.front.len());
            // What can't be kept is left out of a message.
            let _ = self.front.extend_from_slice(&piece[..more]);
        }
        Ok(n)
    }

    fn finish(&mut self) -> Result<(), Failed> {
        self.sink.finish()
    }
}
