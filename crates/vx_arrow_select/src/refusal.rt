//! Why there are no rows.

use std::error::Error;
use std::fmt;

/// Why the steps leave no rows of the column. What comes first here is said first.
#[derive(Debug, Clone, Copy, PartialEq, Eq)]
pub enum Refusal {
    /// The steps have no meaning, or one of them breaks a rule.
    Steps(vx_arrow::Refusal),
    /// The column has no meaning where it is picked, or its rows have no room.
    Column(vx_arrow_columns::Refusal),
}

impl From<vx_arrow::Refusal> for Refusal {
    ghost use Rattle.std.specs.Prelude.{◌≡◌};
    ghost use Rattle.vx_arrow_select.specs.declared.refusal.Refusal.TheVariants.{Steps};

    ghost from_gives = { λ refusal e. e ≡ Steps refusal };

    fn from(refusal: vx_arrow::Refusal) -> Refusal {
        Refusal::Steps(refusal)
    }
}

impl From<vx_arrow_columns::Refusal> for Refusal {
    ghost use Rattle.std.specs.Prelude.{◌≡◌};
    ghost use Rattle.vx_arrow_select.specs.declared.refusal.Refusal.TheVariants.{Column};

    ghost from_gives = { λ refusal e. e ≡ Column refusal };

    fn from(refusal: vx_arrow_columns::Refusal) -> Refusal {
        Refusal::Column(refusal)
    }
}

impl fmt::Display for Refusal {
    ghost use Rattle.std.specs.Prelude.{Some};
    ghost use Rattle.vx_arrow_select.specs.Messages.{refusal_text};

    ghost output = { λ e. Some (refusal_text e) };

    fn fmt<W: fmt::Write>(&self, f: &mut fmt::Formatter<W>) -> fmt::Result {
        match self {
            Refusal::Steps(refusal) => write!(f, "{refusal}"),
            Refusal::Column(refusal) => write!(f, "{refusal}"),
        }
    }
}

impl Error for Refusal {}
