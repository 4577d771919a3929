//! The records of columns that store some.
ghost use Rattle.std.specs.Prelude.{◌≡◌, ◌&&◌, option_map, is_some, IfSome};
ghost use Rattle.vx_model.specs.Plain.{stores_records};
ghost use Rattle.vx_model.specs.Records.{records_column};
ghost use Rattle.vx_model.specs.Valid.{is_bools};
ghost use Rattle.vx_column.specs.Plain.{HasRecords};
ghost use Rattle.vx_column.specs.Shown.{AreShownRowsOf};

use crate::array::{Array, Layout};
use crate::records::RecordArray;
use vx_bits::{BitBuffer, Records};

impl Array {
    /// The records of its rows, one a row, where the layout stores records and no row is null by a
    /// constant form. Some where the layout stores records and the type has no null.
    pub fn plain_records(&self) -> Option<&Records>
        ensures { HasRecords self.now (option_map (λ r. r.now) result) }
    {
        match self.records() {
            Some(records) => records.plain_records(),
            None => None,
        }
    }

    /// The records of its rows, null rows too, and a bit a row that says whether it is valid. Some
    /// exactly where the layout stores records and its validity is a column of layout `Bool`.
    pub fn shown_records(&self) -> Option<(&Records, &BitBuffer)>
        ensures rows { IfSome result (λ p. AreShownRowsOf self.now p.0.now p.1.now) }
        ensures exactly { is_some result
            ≡ (stores_records self.now.layout && is_bools self.now.cover) }
    {
        match self.records() {
            Some(records) => records.shown_records(),
            None => None,
        }
    }

    /// Its rows as those of either layout that stores records; some exactly where it is one.
    #[tactic(auto, using(vx_model::proofs::Layouts::layout_rows))]
    pub fn records(&self) -> Option<&RecordArray>
        ensures same { IfSome result (λ r. records_column r.now ≡ self.now) }
        ensures exactly { is_some result ≡ stores_records self.now.layout }
    {
        match self.layout() {
            Layout::Primitive(a) => Some(a.rows()),
            Layout::Decimal(a) => Some(a.rows()),
            _ => None,
        }
    }
}
