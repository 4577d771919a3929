//! The layouts that store a row's bit or bytes, null rows too, taken together.
ghost use Rattle.std.specs.Prelude.{◌≡◌, length, true};
ghost use Rattle.vx_model.specs.Valid.{is_fitting};
ghost use Rattle.vx_plain.specs.Stored.{parts_of};
ghost use Rattle.vx_column.specs.Validity.{valid_of};

use vx_column::{BoolArray, RecordArray, Validity, VarBinArray, VarBinViewArray};

/// A borrowed column of a layout that stores its rows.
#[derive(Clone, Copy)]
pub enum Stored<'a> {
    /// A bit a row.
    Bits(&'a BoolArray),
    /// A record a row.
    Records(&'a RecordArray),
    /// Texts, one after another.
    Texts(&'a VarBinArray),
    /// A view of its text a row.
    Views(&'a VarBinViewArray),
}

impl<'a> Stored<'a> {
    /// Which rows are valid.
    #[tactic(auto, using(vx_model::proofs::Layouts::stored_items, vx_model::proofs::Texts::text_items))]
    pub fn validity(self) -> &'a Validity
        ensures value { valid_of result.now ≡ (parts_of self.entry).valid }
        ensures fitting { is_fitting (parts_of self.entry).valid
            (length (parts_of self.entry).items) ≡ true }
    {
        match self {
            Stored::Bits(array) => array.validity(),
            Stored::Records(array) => array.validity(),
            Stored::Texts(array) => array.validity(),
            Stored::Views(array) => array.validity(),
        }
    }

    /// How many rows it has.
    #[tactic(auto, using(vx_model::proofs::Layouts::stored_items, vx_model::proofs::Texts::text_items, vx_model::proofs::Texts::varbin_rows))]
    pub fn len(self) -> usize
        ensures { result ≡ length (parts_of self.entry).items }
    {
        match self {
            Stored::Bits(array) => array.bits().len(),
            Stored::Records(array) => array.values().len(),
            Stored::Texts(array) => array.offsets().values().len().saturating_sub(1),
            Stored::Views(array) => array.views().len(),
        }
    }
}
