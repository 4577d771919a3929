//! Layout `Filter`.
ghost use Rattle.vx_mask.specs.Policy.{vortex_fields};
ghost use Rattle.vx_pieces.specs.Indices.{index_len, index_value};
ghost use Rattle.vx_layouts.specs.Answers.{AnswersTake};
ghost use Rattle.vx_dispatch.specs.Materialized.{is_materialized};

use crate::answer::Answer;
use crate::taking::{TakeError, TakeExecute, take_fault};
use std::alloc::Global;
use vx_column::Array;
use vx_dispatch::{is_materialized, take};
use vx_mask::Policy;
use vx_pieces::Indices;
use vx_plain::ArrayView;
use vx_plain::vtables::Filter;

impl TakeExecute for Filter {
    ghost declines = { is_materialized vortex_fields };

    fn take(alloc: Global, array: ArrayView<'_, Filter>, indices: &Indices) -> Answer<TakeError>
        ensures { AnswersTake array.entry.array.now (index_value indices.now)
            (is_materialized vortex_fields array.entry.array.now
            (index_len (index_value indices.now))) result }
    {
        let array = array.array();
        let policy = Policy::vortex();
        if let Some(error) = take_fault(array, indices) {
            return Err(error);
        }
        if is_materialized(array.dtype(), array.len(), indices.len(), policy.fields()) {
            return Ok(None);
        }
        Ok(Some(take(alloc, array, indices, &policy)?))
    }
}
