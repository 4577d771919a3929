//! What bytes go to.
ghost use Rattle.std.specs.Prelude.{◌≡◌, ℕ, ◌+◌, ◌<◌, ◌≤◌, List, Option, length, take, IfOk, OnOk, OnErr, IfSome};
ghost use Rattle.vx_io.specs.Bytes.{Rose, with_back};

use vx_bits::Failed;

/// What bytes are written to.
pub trait Sink {
    /// The bytes that were written, where they are known.
    ghost held: { Self → Option (List ℕ) };

    /// How many of them no `finish` has covered. It says nothing where the bytes aren't known.
    ghost pending: { Self → ℕ };

    /// How many writes and finishes have failed. It never falls, and stands still at its greatest
    /// value.
    ghost faults: { Self → ℕ };

    /// Takes a prefix of the piece, at least one byte of one that isn't empty, and answers its
    /// length.
    fn write(&mut self, piece: &[u8]) -> Result<usize, Failed>
        ensures within { IfOk result (λ n. n ≤ length piece.now) }
        ensures some { IfOk result (λ n. 0 < length piece.now → 0 < n) }
        ensures appended { IfOk result (λ n.
            held self.new ≡ with_back (held self.old) (take n piece.now)) }
        ensures pending { IfOk result (λ n.
            IfSome (held self.old) (λ _. pending self.new ≡ pending self.old + n)) }
        ensures no_fault { OnOk result (faults self.new ≡ faults self.old) }

        ensures cause { OnErr result (Rose (faults self.old) (faults self.new)) }
        ensures unmoved { OnErr result (held self.new ≡ held self.old) }
        ensures still { OnErr result
            (IfSome (held self.old) (λ _. pending self.new ≡ pending self.old)) }
        ensures never_falls { faults self.old ≤ faults self.new };

    /// Covers all that was written before.
    fn finish(&mut self) -> Result<(), Failed>
        ensures held { held self.new ≡ held self.old }
        ensures finished { OnOk result (IfSome (held self.old) (λ _. pending self.new ≡ 0)) }
        ensures no_fault { OnOk result (faults self.new ≡ faults self.old) }

        ensures cause { OnErr result (Rose (faults self.old) (faults self.new)) }
        ensures still { OnErr result
            (IfSome (held self.old) (λ _. pending self.new ≡ pending self.old)) }
        ensures never_falls { faults self.old ≤ faults self.new };
}
