//! Layout `VarBin`: the texts, with the new validity handed in.
use crate::rows::{StepResult, StoredRows};
use std::alloc::Global;
use vx_column::{Array, Validity, VarBinArray};
use vx_mask::{MaskValues, Policy};
use vx_take::Picks;
use vx_text::{filter_varbin, slice_varbin, take_varbin_picks, take_views};

/// The last offset of a column whose rows a take answers as views of its bytes: Vortex's
/// `MAX_BUFFER_LEN`.
const MAX_BUFFER_LEN: usize = 2_147_483_647;

impl StoredRows for VarBinArray {
    ghost use Rattle.vx_model.specs.Text.{stored_texts};
    ghost use Rattle.vx_model.specs.VarBin.{varbin_texts};

    ghost parts = { λ a. stored_texts (varbin_texts a) };

    #[tactic(auto, using(crate::proofs::TextRows::cut_texts))]
    fn slice(&self, start: usize, end: usize, valid: Validity) -> Array {
        // the validity fits the rows
        let _ = self.bytes();
        slice_varbin(self, start, end, valid).into_array()
    }

    fn filter(
        &self,
        alloc: Global,
        mask: &MaskValues,
        policy: &Policy,
        valid: Validity,
    ) -> StepResult {
        // the validity fits the rows
        let _ = self.bytes();
        let kept = filter_varbin(alloc, self, mask, policy, valid)?;
        Ok(kept.into_array())
    }

    // Views of the bytes, where these are few enough.
    #[tactic(auto, using(crate::proofs::TextRows::picked_texts))]
    fn take(&self, alloc: Global, picks: &Picks, valid: Validity) -> StepResult {
        // the validity fits the rows
        let _ = self.bytes();
        if self.last_offset() <= MAX_BUFFER_LEN {
            let views = take_views(alloc, self, picks, valid)?;
            return Ok(views.into_array());
        }
        let texts = take_varbin_picks(alloc, self, picks, valid)?;
        Ok(texts.into_array())
    }
}
