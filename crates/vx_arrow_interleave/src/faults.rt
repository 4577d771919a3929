//! Why there is no column of the rows.
ghost use Rattle.std.specs.Prelude.{◌≡◌};
ghost use Rattle.vx_arrow_interleave.specs.Refusals.{beyond_at, refused_at};

use std::alloc::AllocFailed;
use vx_arrow_image::Lack;

/// Why the rows of several columns aren't joined.
#[derive(Debug, Clone, Copy, PartialEq, Eq)]
pub enum Refused {
    /// The nodes at one place have no meaning.
    NoMeaning {
        /// Their number, counted from 0.
        node: usize,
        /// What one of them lacks.
        lack: Lack,
    },
    /// The nodes at one place differ in format, width or children.
    Unlike {
        /// Their number.
        node: usize,
    },
    /// A row is past those of its table, or there is no such table.
    Beyond,
    /// A room is smaller than its need, or there are not as many rooms or needs as nodes.
    Room {
        /// The first such room's number; how many nodes there are, where rooms are too few or many.
        node: usize,
    },
    /// The rows of a node are more than its offsets, or a length, can count.
    Overflow {
        /// The node's number.
        node: usize,
    },
    /// Out of memory.
    NoMemory,
}

/// Why the rows of one node aren't there.
#[derive(Clone, Copy)]
pub(crate) enum Fault {
    Lacks(Lack),
    Unlike,
    Beyond,
    Overflow,
    NoMemory,
}

// Spans past the rows: the caller's, or those that a parent asks its child for.
fn beyond_at(node: usize) -> Refused
    ensures { result ≡ beyond_at node }
{
    if node == 0 {
        return Refused::Beyond;
    }
    Refused::NoMeaning {
        node,
        lack: Lack::Length,
    }
}

impl Fault {
    /// The same of the node with a number.
    pub(crate) fn at(self, node: usize) -> Refused
        ensures { result ≡ refused_at self node }
    {
        match self {
            Fault::Lacks(lack) => Refused::NoMeaning { node, lack },
            Fault::Unlike => Refused::Unlike { node },
            Fault::Beyond => beyond_at(node),
            Fault::Overflow => Refused::Overflow { node },
            Fault::NoMemory => Refused::NoMemory,
        }
    }
}

impl<T: Drop> From<AllocFailed<T>> for Fault {
    ghost use Rattle.std.specs.Prelude.{◌≡◌};
    ghost use Rattle.vx_arrow_interleave.specs.declared.faults.Fault.TheVariants.{NoMemory as OutOfMemory};

    ghost from_gives = { λ _ e. e ≡ OutOfMemory };

    fn from(_error: AllocFailed<T>) -> Fault {
        Fault::NoMemory
    }
}
