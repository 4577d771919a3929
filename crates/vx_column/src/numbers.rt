//! Reading one row as bytes or as a number.
ghost use Rattle.std.specs.Prelude.{◌≡◌, ◌≢◌, ◌↔◌, ◌<◌, [], length, not, true, None, slice_index_or};
ghost use Rattle.vx_types.specs.RowValue.{bytes, is_null, null};
ghost use Rattle.vx_types.specs.Nullability.{is_nullable};
ghost use Rattle.vx_types.specs.TypeTree.{is_int_type};
ghost use Rattle.vx_model.specs.Numbers.{number_in};
ghost use Rattle.vx_model.specs.Plain.{stores_records};

use crate::array::Array;
use crate::cell::Cell;

impl Array {
    /// Whether row `i` isn't null.
    pub fn is_valid_at(&self, i: usize) -> bool
        requires { i < length self.now.rows }
        ensures { result ≡ not (is_null (slice_index_or self.now.rows i null)) }
    {
        match self.cell_at(i) {
            Cell::Null => false,
            Cell::Bit(_) | Cell::Bytes(_) | Cell::List(_) | Cell::Fields(_) | Cell::Tagged(_) =>
                true,
        }
    }

    /// The stored bytes of row `i`, of a null row too.
    #[tactic(auto, using(vx_model::proofs::Layouts::layout_rows))]
    pub fn record_at(&self, i: usize) -> &[u8]
        requires records { stores_records self.now.layout ≡ true }
        requires row { i < length self.now.rows }
        ensures stored { result.now ≡ slice_index_or self.now.stored i [] }
        ensures row { slice_index_or self.now.rows i null ≢ null
            → slice_index_or self.now.rows i null ≡ bytes result.now }
    {
        match self.records() {
            Some(records) => records.values().record_bytes(i),
            None => unreachable!(),
        }
    }

    /// The number in row `i` of a column of integer type; none exactly where the row is null.
    pub fn number_at(&self, i: usize) -> Option<i128>
        requires int { is_int_type self.now.dtype ≡ true }
        requires row { i < length self.now.rows }
        ensures value { result
            ≡ number_in self.now.dtype.kind (slice_index_or self.now.rows i null) }
        ensures null { (result ≡ None) ↔ (slice_index_or self.now.rows i null ≡ null) }
        ensures nullable { result ≡ None → is_nullable self.now.dtype.nullability ≡ true }
    {
        self.cell_at(i).number(self.dtype())
    }
}
