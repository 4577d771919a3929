//! Why there are no picks.

use crate::lacks::Lacking;
use crate::need::Need;
use std::error::Error;
use std::fmt;
use vx_bits::NoMemory;
use vx_steps::Cause;

/// Why there are no picks. What comes first here is said first.
#[derive(Debug, Clone, Copy, PartialEq, Eq)]
pub enum Refusal {
    /// An image has no meaning.
    Lacking(Lacking),
    /// A step breaks a rule.
    Broken {
        /// The first such step's number, counted from 0.
        step: usize,
        /// The rule that it breaks.
        cause: Cause,
    },
    /// The picks need more room than there is.
    Room(Need),
    /// Out of memory.
    NoMemory,
}

impl fmt::Display for Refusal {
    ghost use Rattle.std.specs.Prelude.{Some};
    ghost use Rattle.vx_arrow.specs.Messages.{refusal_text};

    ghost output = { λ e. Some (refusal_text e) };

    fn fmt<W: fmt::Write>(&self, f: &mut fmt::Formatter<W>) -> fmt::Result {
        match self {
            Refusal::Lacking(lacking) => write!(f, "{lacking}"),
            Refusal::Broken { step, cause } => write!(f, "step {step}: {cause}"),
            Refusal::Room(need) => write!(f, "too little room for {need}"),
            Refusal::NoMemory => f.write_str("out of memory"),
        }
    }
}

impl Error for Refusal {}

impl From<NoMemory> for Refusal {
    ghost use Rattle.std.specs.Prelude.{◌≡◌};
    ghost use Rattle.vx_arrow.specs.declared.refusal.Refusal.TheVariants.{NoMemory as OutOfMemory};

    ghost from_gives = { λ _ e. e ≡ OutOfMemory };

    fn from(_: NoMemory) -> Refusal {
        Refusal::NoMemory
    }
}
