//! Layouts of lists: their rows over the elements in another form.
ghost use Rattle.std.specs.Prelude.{◌≡◌, length, None, false, IfOk};
ghost use Rattle.vx_model.specs.Lists.{lists_column};
ghost use Rattle.vx_model.specs.ListView.{listview_fault, listview_spans};
ghost use Rattle.vx_model.specs.Plain.{is_lazy_layout};
ghost use Rattle.vx_model.specs.Step.{IsStep};
ghost use Rattle.vx_model.specs.Valid.{nullability_by, present_bits, IsLeft};
ghost use Rattle.vx_column.specs.Lists.{spans_of};
ghost use Rattle.vx_column.specs.Validity.{valid_of};

use crate::executing::{ExecuteRows, execute};
use crate::parts::{Parts, StepResult};
use crate::validity::execute_validity;
use crate::{dict, map};
use std::alloc::Global;
use vx_bits::NoMemory;
use vx_column::{Array, ArrayRef, Layout, ListViewArray, Lists, Validity};
use vx_mask::Policy;

// The list views over their elements and with their validity, both in another form.
fn views_with(array: &ListViewArray, elements: ArrayRef, validity: Validity) -> ListViewArray
    requires elements { IsStep array.now.elements array.now.elements.rows
        array.now.elements.dtype elements }
    requires left { IsLeft array.now.valid (nullability_by array.now.valid)
        (present_bits array.now.valid (length (listview_spans array.now).spans))
        (valid_of validity) }
    ensures parts { result
        ≡ record array.now { elements = elements; valid = valid_of validity } }
    ensures valid { listview_fault array.now ≡ None }
{
    let offsets = array.offsets().share();
    let sizes = array.sizes().share();
    array.with_parts(elements, offsets, sizes, validity)
}

// The lists over their elements and with their validity, both in another form.
#[tactic(auto, using(vx_model::proofs::ListRows::list_rows, vx_model::proofs::ListRows::listview_rows, vx_model::proofs::ListRows::fixed_rows))]
fn with_elements(lists: Lists<'_>, elements: ArrayRef, validity: Validity) -> Array
    requires elements { IsStep (spans_of lists).elements (spans_of lists).elements.rows
        (spans_of lists).elements.dtype elements }
    requires left { IsLeft (spans_of lists).valid (nullability_by (spans_of lists).valid)
        (present_bits (spans_of lists).valid (length (spans_of lists).spans)) (valid_of validity) }
    ensures same { IsStep (lists_column (spans_of lists.entry))
        (lists_column (spans_of lists.entry)).rows (lists_column (spans_of lists.entry)).dtype
        result }
    ensures direct { is_lazy_layout result.layout ≡ false }
{
    match lists {
        Lists::List(array) => {
            let offsets = array.offsets().share();
            array.with_parts(elements, offsets, validity).into_array()
        }
        Lists::View(array) => views_with(array, elements, validity).into_array(),
        Lists::Fixed(array) => {
            // the elements are as many as the lists have
            let _ = array.list_size();
            array
                .with_parts(elements, validity, array.len())
                .into_array()
        }
        Lists::Map(array) => map::of_entries(views_with(array.entries(), elements, validity)),
    }
}

/// The elements, executed, but where one value or one code stands for each of them: they may be
/// more than any memory holds, as those behind null lists are.
#[cycle(execute)]
pub(crate) fn execute_elements(
    alloc: Global,
    elements: &Array,
    policy: &Policy,
) -> Result<Array, NoMemory>
    ensures { IfOk result (IsStep elements.now elements.now.rows elements.now.dtype) }
{
    match elements.layout() {
        Layout::Constant(_) => Ok(elements.share()),
        Layout::Dict(a) if matches!(a.codes().layout(), Layout::Constant(_)) => {
            dict::execute_values(alloc, a, policy)
        }
        _ => execute(alloc, elements, policy),
    }
}

impl Parts for Lists<'_> {
    ghost column = { λ lists. lists_column (spans_of lists) };
}

// The lists' rows, with the elements and the validity executed.
impl ExecuteRows for Lists<'_> {
    #[cycle(execute)]
    #[tactic(auto, using(crate::proofs::Unflat::unflat))]
    fn execute(&self, alloc: Global, policy: &Policy) -> StepResult {
        let validity = execute_validity(alloc, self.validity(), self.len(), policy)?;
        let elements = execute_elements(alloc, self.elements(), policy)?;
        Ok(with_elements(*self, elements.into_ref(alloc)?, validity))
    }
}
