//! Layout `VarBinView`: the views, with the new validity handed in.
use crate::rows::{StepResult, StoredRows};
use std::alloc::Global;
use vx_column::{Array, Validity, VarBinViewArray};
use vx_mask::{MaskValues, Policy};
use vx_take::Picks;
use vx_text::{filter_views, gather_views, slice_views};

impl StoredRows for VarBinViewArray {
    ghost use Rattle.vx_model.specs.Text.{stored_texts};
    ghost use Rattle.vx_model.specs.VarBinView.{view_texts};

    ghost parts = { λ a. stored_texts (view_texts a) };

    #[tactic(auto, using(crate::proofs::TextRows::cut_texts))]
    fn slice(&self, start: usize, end: usize, valid: Validity) -> Array {
        // the validity fits the rows
        let _ = self.views();
        slice_views(self, start, end, valid).into_array()
    }

    fn filter(
        &self,
        alloc: Global,
        mask: &MaskValues,
        policy: &Policy,
        valid: Validity,
    ) -> StepResult {
        // the validity fits the rows
        let _ = self.views();
        let kept = filter_views(alloc, self, mask, policy, valid)?;
        Ok(kept.into_array())
    }

    #[tactic(auto, using(crate::proofs::TextRows::picked_texts))]
    fn take(&self, alloc: Global, picks: &Picks, valid: Validity) -> StepResult {
        // the validity fits the rows
        let _ = self.views();
        let taken = gather_views(alloc, self, picks, valid)?;
        Ok(taken.into_array())
    }
}
