//! Where the rows of layout `List` begin and end.
ghost use Rattle.std.specs.Prelude.{◌≡◌, ◌<◌, ◌≤◌, length, slice_index_or};
ghost use Rattle.vx_types.specs.PType.{width};
ghost use Rattle.vx_types.specs.TypeTree.{primitive_kind};
ghost use Rattle.vx_model.specs.List.{list_spans};

use vx_column::{ListArray, PType};
use vx_offsets::span_at;
use vx_positions::by_type;

// Where the elements of row `i` begin and end, by the records of the offsets, whose type is known.
#[inline(always)]
fn span_by<const W: usize>(
    ptype: PType,
    records: &[[u8; W]],
    lists: &ListArray,
    i: usize,
) -> (usize, usize)
    requires kind { primitive_kind ptype ≡ lists.now.offsets.kind }
    requires width { W ≡ width ptype }
    requires records { records.now ≡ lists.now.offsets.records }
    requires row { i < length (list_spans lists.now).spans }
    ensures span { slice_index_or (list_spans lists.now).spans i (0, 0) ≡ result }
    ensures ordered { result.0 ≤ result.1 }
    ensures within { result.1 ≤ length lists.now.elements.rows }
{
    span_at(ptype, records, i, lists.elements().len())
}

/// Where the elements of row `i` begin and end, of a null row too. The type of the offsets is told
/// once for both.
#[tactic(auto, using(vx_model::proofs::ListRows::list_offsets))]
pub(crate) fn span_of(lists: &ListArray, i: usize) -> (usize, usize)
    requires { i < length (list_spans lists.now).spans }
    ensures span { slice_index_or (list_spans lists.now).spans i (0, 0) ≡ result }
    ensures ordered { result.0 ≤ result.1 }
    ensures within { result.1 ≤ length lists.now.elements.rows }
{
    // its offsets cut it
    let _ = lists.elements();
    let offsets = lists.offsets();
    by_type!(offsets.ptype(), offsets.values(), span_by, lists, i)
}
