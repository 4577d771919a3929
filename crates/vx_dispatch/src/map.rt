//! Layout `Map`: a step over the rows is that step over the entries.
ghost use Rattle.std.specs.Prelude.{◌≡◌, None};
ghost use Rattle.vx_model.specs.Map.{map_column, map_fault};

use crate::filtering::FilterRows;
use crate::listview;
use crate::parts::{Parts, StepResult};
use crate::slicing::SliceRows;
use crate::taking::TakeRows;
use std::alloc::Global;
use vx_column::{Array, ListViewArray, MapArray, Nullability};
use vx_mask::{MaskValues, Policy};
use vx_take::Picks;

/// The maps of these entries.
pub(crate) fn of_entries(entries: ListViewArray) -> Array
    requires { map_fault entries ≡ None }
    ensures { result ≡ map_column entries }
{
    match MapArray::try_new(entries) {
        Ok(array) => array.into_array(),
        Err(_) => unreachable!(),
    }
}

impl Parts for MapArray {
    ghost column = { map_column };
}

impl SliceRows for MapArray {
    #[cycle(slice)]
    fn slice(&self, alloc: Global, start: usize, end: usize) -> StepResult {
        let entries = listview::slice_views(alloc, self.entries(), start, end)?;
        Ok(of_entries(entries))
    }
}

impl FilterRows for MapArray {
    #[cycle(filter)]
    fn filter(&self, alloc: Global, mask: &MaskValues, policy: &Policy) -> StepResult {
        let entries = listview::filter_views(alloc, self.entries(), mask, policy)?;
        Ok(of_entries(entries))
    }
}

impl TakeRows for MapArray {
    #[cycle(take)]
    fn take(&self, alloc: Global, picks: Picks, nulls: Nullability, policy: &Policy) -> StepResult {
        let entries = listview::take_views(alloc, self.entries(), &picks, nulls, policy)?;
        Ok(of_entries(entries))
    }
}
