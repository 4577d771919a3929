//! What a document asks for.
ghost use Rattle.std.specs.Prelude.{◌≡◌};

use std::marker::Model;
use vx_bits::Records;
use vx_column::Array;
use vx_mask::Policy;
use vx_steps::{ChunkShape, Step};

/// Where the rows of a document are.
#[derive(Drop)]
pub enum DocumentSource {
    /// In a column.
    Column(Array),
    /// Behind a decoder: which of its values they are, and these values. They are whole chunks of
    /// records of the type's width, and at least as many as the shape has.
    Chunks(ChunkShape, Records),
}

/// A list of steps. Clauses see it as the list.
#[derive(Drop)]
pub struct StepList {
    steps: Vec<Step>,
}

impl Model for StepList {
    ghost use Rattle.std.specs.Prelude.{List};
    ghost use Rattle.std.specs.Coded.{coded_list};
    ghost use Rattle.vx_steps.specs.declared.step.Step.{Step};
    ghost use Rattle.vx_steps.specs.contracts.step.Step.{the_row};

    ghost Value = { List Step };

    ghost coded = { coded_list the_row.coded };

    ghost view = { λ l. l.steps.items };
}

impl StepList {
    /// The steps, in order.
    pub fn as_slice(&self) -> &[Step]
        ensures { result.now ≡ self.now }
    {
        self.steps.as_slice()
    }

    /// The list of these steps.
    pub fn from_vec(values: Vec<Step>) -> StepList
        ensures { result ≡ values.items }
    {
        StepList { steps: values }
    }
}

/// What a document asks for: these steps over this source, by this policy.
#[derive(Drop)]
pub struct Document {
    /// Where the rows are.
    pub source: DocumentSource,
    /// The steps, in order.
    pub steps: StepList,
    /// The policy.
    pub policy: Policy,
}
