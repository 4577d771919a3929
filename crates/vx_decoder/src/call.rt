//! What a decoder is asked.
ghost use Rattle.std.specs.Prelude.{◌≡◌, []};

use std::marker::Model;

/// One call of a decoder.
#[derive(Debug, Clone, Copy, PartialEq, Eq)]
pub enum Call {
    /// All values of a chunk.
    Whole {
        /// The number of the chunk, from 0.
        chunk: usize,
    },
    /// So many values of a chunk.
    Only {
        /// The number of the chunk, from 0.
        chunk: usize,
        /// How many of its values.
        count: usize,
    },
}

/// The calls that a decoder was asked, in order. One that is not empty comes from a decoder.
///
/// Clauses see the list of calls.
#[derive(Drop)]
pub struct CallLog {
    pub(crate) made: Option<Vec<Call>>,
}

impl Model for CallLog {
    ghost use Rattle.std.specs.Prelude.{List, option_map};
    ghost use Rattle.vx_decoder.specs.Told.{items_in};
    ghost use Rattle.vx_decoder.specs.declared.call.Call.{Call};

    ghost Value = { List Call };

    ghost view = { λ log. items_in (option_map (λ made. made.items) log.made) };
}

impl CallLog {
    /// An empty log of calls.
    pub fn new() -> CallLog
        ensures { result ≡ [] }
    {
        CallLog { made: None }
    }

    /// The calls, in order.
    pub fn calls(&self) -> &[Call]
        ensures { result.now ≡ self.now }
    {
        match &self.made {
            Some(made) => made.as_slice(),
            None => &[],
        }
    }
}
