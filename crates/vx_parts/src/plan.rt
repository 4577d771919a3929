//! What each part is asked, and in which order its rows stand.
ghost use Rattle.std.specs.Prelude.{◌≡◌, ◌<◌, length, map, slice_index};
ghost use Rattle.vx_steps.specs.Step.{step_value};
ghost use Rattle.vx_interleave.specs.Places.{list_of};
ghost use Rattle.vx_parts.specs.Plan.{lens_in, order_in, steps_in};

use vx_column::Nullability;
use vx_interleave::Place;
use vx_steps::Step;

/// What one part is asked.
#[derive(Drop)]
pub struct PartPlan {
    /// Its own steps: slices, filters, and where rows are picked one take by indices that are no
    /// nulls.
    pub steps: Vec<Step>,
    /// How many rows they leave.
    pub len: usize,
}

/// A list of steps over a column that is cut into parts.
#[derive(Drop)]
pub struct Plan {
    /// What each part is asked.
    pub parts: Vec<PartPlan>,
    /// For each row of the answer where it stands among the parts' answers, and none for a null;
    /// none at all where the answers stand one behind another.
    pub order: Option<Vec<Option<Place>>>,
    /// Whether the steps may leave nulls where there were none.
    pub nullability: Nullability,
}

impl Plan {
    /// The steps of part `k`.
    pub fn steps_of(&self, k: usize) -> &[Step]
        requires { k < length self.now.parts.items }
        ensures { map step_value result.now ≡ list_of (steps_in self.now.parts.items) k }
    {
        &self.parts[k].steps
    }

    /// How many rows part `k` answers.
    pub fn len_of(&self, k: usize) -> usize
        requires { k < length self.now.parts.items }
        ensures { result ≡ slice_index (lens_in self.now.parts.items) k }
    {
        self.parts[k].len
    }
}
