//! The blocks that a reader was asked for.
ghost use Rattle.std.specs.Prelude.{◌≡◌, []};

use std::marker::Model;

/// The numbers of the blocks that a reader was asked for, in order. One that isn't empty comes from
/// a reader.
///
/// Clauses see the list of numbers.
#[derive(Drop)]
pub struct ReadLog {
    pub(crate) made: Option<Vec<usize>>,
}

impl Model for ReadLog {
    ghost use Rattle.std.specs.Prelude.{ℕ, List, option_map};
    ghost use Rattle.vx_decoder.specs.Told.{items_in};

    ghost Value = { List ℕ };

    ghost view = { λ log. items_in (option_map (λ made. made.items) log.made) };
}

impl ReadLog {
    /// The numbers of the blocks, in order.
    pub fn reads(&self) -> &[usize]
        ensures { result.now ≡ self.now }
    {
        match &self.made {
            Some(made) => made.as_slice(),
            None => &[],
        }
    }

    /// An empty log of reads.
    pub fn new() -> ReadLog
        ensures { result ≡ [] }
    {
        ReadLog { made: None }
    }
}
