//! Lists of runs.
ghost use Rattle.std.specs.Prelude.{◌≡◌};

use std::marker::Model;

/// A list of runs, each of two numbers.
#[derive(Drop)]
pub struct Runs {
    runs: Vec<(usize, usize)>,
}

impl Model for Runs {
    ghost use Rattle.std.specs.Prelude.{ℕ, List};

    ghost Value = { List (ℕ × ℕ) };

    ghost view = { λ r. r.runs.items };
}

impl Runs {
    /// The list of these runs.
    pub fn from_vec(values: Vec<(usize, usize)>) -> Runs
        ensures { result ≡ values.items }
    {
        Runs { runs: values }
    }

    /// The runs, in order.
    pub fn as_slice(&self) -> &[(usize, usize)]
        ensures { result.now ≡ self.now }
    {
        self.runs.as_slice()
    }
}
