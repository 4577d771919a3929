//! The rows of the pairs.
ghost use Rattle.std.specs.Prelude.{◌≡◌, ◌<◌};
ghost use Rattle.std.specs.List.{All};
ghost use Rattle.vx_join.specs.Join.{picks_at};

use crate::matching::Found;
use std::marker::Model;
use vx_take::Picks;

/// The left and the right row of each pair of a join, in the order of the pairs.
#[derive(Drop)]
pub struct JoinIndices {
    left: Picks,
    right: Picks,
}

impl Model for JoinIndices {
    ghost use Rattle.vx_join.specs.Join.{JoinValue, coded_join};

    ghost Value = { JoinValue };

    ghost view = { λ j. record { left = j.left; right = j.right } };

    ghost coded = { coded_join };
}

impl JoinIndices {
    /// The rows that were found, below these lengths.
    pub(crate) fn of(found: Found, left_len: usize, right_len: usize) -> JoinIndices
        requires left { All (λ i. i < left_len) found.left.items }
        requires right { All (λ j. j < right_len) found.right.items }
        ensures { result ≡ record {
          left = picks_at found.left.items left_len;
          right = picks_at found.right.items right_len;
        } }
    {
        let Found { left, right } = found;
        JoinIndices {
            left: Picks::from_vec(left, left_len),
            right: Picks::from_vec(right, right_len),
        }
    }

    /// The left row of each pair, none of them a null.
    pub fn left(&self) -> &Picks
        ensures { result.now ≡ self.now.left }
    {
        &self.left
    }

    /// The right row of each pair, none of them a null.
    pub fn right(&self) -> &Picks
        ensures { result.now ≡ self.now.right }
    {
        &self.right
    }
}
