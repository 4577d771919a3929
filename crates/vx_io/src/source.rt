//! What bytes come from.
ghost use Rattle.std.specs.Prelude.{◌≡◌, ◌↔◌, ℕ, ◌<◌, ◌≤◌, List, [], Option, length, take, IfOk, OnOk, OnErr, IfSome};
ghost use Rattle.vx_io.specs.Bytes.{Rose, with_front};

use vx_bits::Failed;

/// What bytes are read from.
pub trait Source {
    /// The bytes that are left, where they are known.
    ghost rest: { Self → Option (List ℕ) };

    /// How many reads have failed. It never falls, and stands still at its greatest value.
    ghost faults: { Self → ℕ };

    /// Takes bytes from the front of what is left, and puts them to the front of `dst`.
    ///
    /// Where `dst` isn't empty, `Ok(0)` is the end of input. After a failure `dst` may hold
    /// anything.
    fn read(&mut self, dst: &mut [u8]) -> Result<usize, Failed>
        ensures within { IfOk result (λ n. n ≤ length dst.new) }
        ensures taken { IfOk result (λ n.
            rest self.old ≡ with_front (take n dst.new) (rest self.new)) }
        ensures end { IfOk result (λ n. 0 < length dst.new →
            IfSome (rest self.old) (λ left. (n ≡ 0) ↔ (left ≡ []))) }
        ensures no_fault { OnOk result (faults self.new ≡ faults self.old) }

        ensures cause { OnErr result (Rose (faults self.old) (faults self.new)) }
        ensures unmoved { OnErr result (rest self.new ≡ rest self.old) }
        ensures never_falls { faults self.old ≤ faults self.new };
}
