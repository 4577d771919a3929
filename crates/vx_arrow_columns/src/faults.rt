//! What stops at a node.
ghost use Rattle.std.specs.Prelude.{◌≡◌};
ghost use Rattle.vx_arrow_columns.specs.Sound.{refusal_at};

use std::alloc::AllocFailed;
use vx_arrow_image::{Lack, Refusal};

/// Why a node's rows at picks are not there.
#[derive(Clone, Copy)]
pub(crate) enum Fault {
    Lacks(Lack),
    Overflow,
    NoMemory,
}

impl Fault {
    /// The same of the node with a number.
    pub(crate) fn at(self, node: usize) -> Refusal
        ensures { result ≡ refusal_at self node }
    {
        match self {
            Fault::Lacks(lack) => Refusal::NoMeaning { node, lack },
            Fault::Overflow => Refusal::Overflow { node },
            Fault::NoMemory => Refusal::NoMemory,
        }
    }
}

impl<T: Drop> From<AllocFailed<T>> for Fault {
    ghost use Rattle.std.specs.Prelude.{◌≡◌};
    ghost use Rattle.vx_arrow_columns.specs.declared.faults.Fault.TheVariants.{NoMemory as OutOfMemory};

    ghost from_gives = { λ _ e. e ≡ OutOfMemory };

    fn from(_error: AllocFailed<T>) -> Fault {
        Fault::NoMemory
    }
}
