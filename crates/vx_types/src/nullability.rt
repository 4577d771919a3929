//! Whether a type has null rows.
ghost use Rattle.std.specs.Prelude.{◌≡◌};
ghost use Rattle.vx_types.specs.Nullability.{is_nullable, either_nullable};

/// Whether a type has null rows: Vortex's `Nullability`.
#[derive(Debug, Clone, Copy, PartialEq, Eq)]
pub enum Nullability {
    /// No row is null.
    NonNullable,
    /// A row may be null.
    Nullable,
}

impl Nullability {
    /// Whether null rows are allowed.
    pub fn is_nullable(self) -> bool
        ensures { result ≡ is_nullable self }
    {
        match self {
            Nullability::NonNullable => false,
            Nullability::Nullable => true,
        }
    }

    /// Nullable where one of the two is: Vortex's `|`.
    pub fn or(self, other: Nullability) -> Nullability
        ensures { result ≡ either_nullable self other }
    {
        match self {
            Nullability::NonNullable => other,
            Nullability::Nullable => Nullability::Nullable,
        }
    }
}
