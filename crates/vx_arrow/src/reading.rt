//! The steps that images mean.
ghost use Rattle.std.specs.Prelude.{◌≡◌, ◌+◌, ◌^◌, ◌<◌, map, None, Some, true, IfOk};
ghost use Rattle.vx_types.specs.declared.ptype.PType.TheVariants.{U64};
ghost use Rattle.vx_types.specs.TypeTree.{is_flat};
ghost use Rattle.vx_steps.specs.Step.{step_value};
ghost use Rattle.vx_arrow.specs.Image.{filter_in, filter_lack, first_lack, holds_records, naturals_in, pieces_in, pieces_lack, step_in, step_lack, step_parts, steps_in, take_lack, typed_take_in};

use crate::copies::{bits_in, numbers_in, validity_in};
use crate::image::{StepImage, StepKind, kind_of, ptype_of};
use std::alloc::Global;
use vx_bits::NoMemory;
use vx_column::{Array, ArrayRef, BoolArray, Validity};
use vx_mask::Mask;
use vx_pieces::{Indices, PiecewiseSequence};
use vx_plain::FlatRef;
use vx_steps::Step;
use vx_types::PType;

// A column that is known to be flat, behind a counted pointer. Fails only with `NoMemory`.
fn flat_ref(alloc: Global, array: Array) -> Result<FlatRef, NoMemory>
    requires { is_flat array.dtype ≡ true }
    ensures { IfOk result (λ f. f ≡ array) }
{
    Ok(FlatRef::of(array.into_ref(alloc)?))
}

impl StepImage<'_> {
    /// The step that the image means. Fails only with `NoMemory`.
    pub(crate) fn step(&self, alloc: Global) -> Result<Step, NoMemory>
        requires { step_lack (step_parts self.now) ≡ None }
        ensures { IfOk result (λ s. step_value s ≡ step_in (step_parts self.now)) }
    {
        match kind_of(self.kind) {
            None => unreachable!(),
            Some(StepKind::Slice) => Ok(Step::Slice {
                start: self.start as usize,
                end: self.end as usize,
            }),
            Some(StepKind::Filter) => self.filter(alloc),
            Some(StepKind::Take) => match ptype_of(self.ptype) {
                None => unreachable!(),
                Some(ptype) => self.take(alloc, ptype),
            },
            Some(StepKind::TakePieces) => self.take_pieces(alloc),
        }
    }

    // The filter by its bits, a null of which isn't true. Fails only with `NoMemory`.
    fn filter(&self, alloc: Global) -> Result<Step, NoMemory>
        requires { filter_lack (step_parts self.now) ≡ None }
        ensures { IfOk result (λ s. step_value s ≡ filter_in (step_parts self.now)) }
    {
        let (offset, len) = (self.offset as usize, self.len as usize);
        let bits = bits_in(alloc, self.values, offset, len)?;
        match validity_in(alloc, self.valid, offset, len)? {
            Validity::NonNullable => Ok(Step::Filter(Mask::from_buffer(bits))),
            validity => {
                let column = BoolArray::of(bits, validity).into_array();
                Ok(Step::FilterBy(flat_ref(alloc, column)?))
            }
        }
    }

    // The take by its numbers. Fails only with `NoMemory`.
    fn take(&self, alloc: Global, ptype: PType) -> Result<Step, NoMemory>
        requires { take_lack ptype (step_parts self.now) ≡ None }
        ensures { IfOk result (λ s. step_value s ≡ typed_take_in ptype (step_parts self.now)) }
    {
        let (offset, len) = (self.offset as usize, self.len as usize);
        let validity = validity_in(alloc, self.valid, offset, len)?;
        let numbers = numbers_in(alloc, ptype, self.values, validity, offset, len)?;
        Ok(Step::Take(Indices::Array(flat_ref(alloc, numbers)?)))
    }

    // A column of numbers of its pieces. Fails only with `NoMemory`.
    fn naturals(&self, alloc: Global, bytes: &[u8]) -> Result<ArrayRef, NoMemory>
        requires counted { self.now.offset + self.now.len < 2 ^ 63 }
        requires held { holds_records 8 bytes.now (self.now.offset + self.now.len) ≡ true }
        ensures { IfOk result (λ a. a ≡ naturals_in bytes.now (step_parts self.now)) }
    {
        let (offset, len) = (self.offset as usize, self.len as usize);
        let validity = Validity::NonNullable;
        numbers_in(alloc, PType::U64, bytes, validity, offset, len)?.into_ref(alloc)
    }

    // The take by its pieces. Fails only with `NoMemory`.
    fn take_pieces(&self, alloc: Global) -> Result<Step, NoMemory>
        requires { pieces_lack (step_parts self.now) ≡ None }
        ensures { IfOk result (λ s. step_value s ≡ pieces_in (step_parts self.now)) }
    {
        let starts = self.naturals(alloc, self.values)?;
        let lengths = self.naturals(alloc, self.lengths)?;
        let multipliers = self.naturals(alloc, self.multipliers)?;
        let declared = self.declared as usize;
        match PiecewiseSequence::try_new(starts, lengths, multipliers, declared) {
            Ok(pieces) => Ok(Step::Take(Indices::Pieces(pieces))),
            Err(_) => unreachable!(),
        }
    }
}

/// The steps that images mean, of which none lacks anything. Fails only with `NoMemory`.
pub(crate) fn steps_of(alloc: Global, images: &[StepImage]) -> Result<Vec<Step>, NoMemory>
    requires { first_lack 0 (map step_parts images.now) ≡ None }
    ensures { IfOk result
        (λ v. map step_value v.items ≡ steps_in (map step_parts images.now)) }
{
    let mut steps = Vec::with_capacity(alloc, images.len())?;
    for image in images {
        steps.push(image.step(alloc)?)?;
    }
    Ok(steps)
}
