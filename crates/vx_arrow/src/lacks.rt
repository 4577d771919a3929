//! Why an image of a step has no meaning.
ghost use Rattle.std.specs.Prelude.{◌≡◌, ◌+◌, ◌*◌, ◌^◌, ◌<◌, ◌≤◌, map, length, nat_le, nat_lt, None, Some, IfSome, if◌then◌else◌};
ghost use Rattle.vx_arrow.specs.Image.{filter_lack, first_lack, holds_valid, pieces_lack, step_lack, step_parts, take_lack};

use crate::image::{StepImage, StepKind, kind_of, ptype_of};
use std::error::Error;
use std::fmt;
use vx_types::PType;

/// What an image of a step lacks, in the order in which it is looked for.
#[derive(Debug, Clone, Copy, PartialEq, Eq)]
pub enum Lack {
    /// The number of the kind names none.
    Kind,
    /// The number of the type names none.
    Type,
    /// The offset and the length in all pass `i64::MAX`.
    Counted,
    /// The values are too short for the offset and the length.
    Values,
    /// The validity is too short for them, and not empty.
    Valid,
    /// The lengths are too short for them.
    Lengths,
    /// The multipliers are too short for them.
    Multipliers,
}

/// The first image of a step that lacks something.
#[derive(Debug, Clone, Copy, PartialEq, Eq)]
pub struct Lacking {
    /// The step's number, counted from 0.
    pub step: usize,
    /// What it lacks.
    pub lack: Lack,
}

impl fmt::Display for Lack {
    ghost use Rattle.std.specs.Prelude.{Some};
    ghost use Rattle.vx_arrow.specs.Messages.{lack_text};

    ghost output = { λ e. Some (lack_text e) };

    fn fmt<W: fmt::Write>(&self, f: &mut fmt::Formatter<W>) -> fmt::Result {
        match self {
            Lack::Kind => f.write_str("its kind has no number"),
            Lack::Type => f.write_str("the type of its numbers has no number"),
            Lack::Counted => f.write_str("its offset and length are too large"),
            Lack::Values => f.write_str("its values are too short"),
            Lack::Valid => f.write_str("its validity is too short"),
            Lack::Lengths => f.write_str("its lengths are too short"),
            Lack::Multipliers => f.write_str("its multipliers are too short"),
        }
    }
}

impl Error for Lack {}

impl fmt::Display for Lacking {
    ghost use Rattle.std.specs.Prelude.{Some};
    ghost use Rattle.vx_arrow.specs.Messages.{lacking_text};

    ghost output = { λ e. Some (lacking_text e) };

    fn fmt<W: fmt::Write>(&self, f: &mut fmt::Formatter<W>) -> fmt::Result {
        write!(f, "step {}: {}", self.step, self.lack)
    }
}

impl Error for Lacking {}

impl StepImage<'_> {
    /// What the image lacks; none where it has a meaning.
    pub(crate) fn lack(&self) -> Option<Lack>
        ensures { result ≡ step_lack (step_parts self.now) }
    {
        match kind_of(self.kind) {
            None => Some(Lack::Kind),
            Some(StepKind::Slice) => None,
            Some(StepKind::Filter) => self.filter_lack(),
            Some(StepKind::Take) => match ptype_of(self.ptype) {
                None => Some(Lack::Type),
                Some(ptype) => self.take_lack(ptype),
            },
            Some(StepKind::TakePieces) => self.pieces_lack(),
        }
    }

    // What it lacks of a filter.
    fn filter_lack(&self) -> Option<Lack>
        ensures { result ≡ filter_lack (step_parts self.now) }
    {
        let Some(end) = end_of(self.offset, self.len) else {
            return Some(Lack::Counted);
        };
        if !holds_bits(self.values, end) {
            return Some(Lack::Values);
        }
        self.valid_lack(end)
    }

    // What it lacks of a take by numbers of this type.
    fn take_lack(&self, ptype: PType) -> Option<Lack>
        ensures { result ≡ take_lack ptype (step_parts self.now) }
    {
        let Some(end) = end_of(self.offset, self.len) else {
            return Some(Lack::Counted);
        };
        if !holds_records(self.values, end, ptype.width()) {
            return Some(Lack::Values);
        }
        self.valid_lack(end)
    }

    // What it lacks of a take by pieces.
    fn pieces_lack(&self) -> Option<Lack>
        ensures { result ≡ pieces_lack (step_parts self.now) }
    {
        let Some(end) = end_of(self.offset, self.len) else {
            return Some(Lack::Counted);
        };
        if !holds_records(self.values, end, 8) {
            return Some(Lack::Values);
        }
        if !holds_records(self.lengths, end, 8) {
            return Some(Lack::Lengths);
        }
        if !holds_records(self.multipliers, end, 8) {
            return Some(Lack::Multipliers);
        }
        None
    }

    // What its validity lacks of so many bits.
    fn valid_lack(&self, end: usize) -> Option<Lack>
        requires { end < 2 ^ 63 }
        ensures { result ≡ if holds_valid self.now.valid.now end then None else Some Lack.Valid }
    {
        if self.valid.is_empty() || holds_bits(self.valid, end) {
            None
        } else {
            Some(Lack::Valid)
        }
    }
}

// Where so many items from `offset` on end, where an `i64` counts that.
fn end_of(offset: u64, len: u64) -> Option<usize>
    ensures value { result
        ≡ if nat_lt (offset + len) (2 ^ 63) then Some (offset + len) else None }
    ensures counted { IfSome result (λ end. end < 2 ^ 63) }
{
    let end = offset.checked_add(len)?;
    if end < 1 << 63 {
        Some(end as usize)
    } else {
        None
    }
}

// Whether the bytes have so many bits.
fn holds_bits(bytes: &[u8], end: usize) -> bool
    requires { end < 2 ^ 63 }
    ensures { result ≡ nat_le end (8 * length bytes.now) }
{
    end.div_ceil(8) <= bytes.len()
}

// Whether the bytes have so many records of a width.
fn holds_records(bytes: &[u8], end: usize, width: usize) -> bool
    requires counted { end < 2 ^ 63 }
    requires narrow { width ≤ 8 }
    ensures { result ≡ nat_le (end * width) (length bytes.now) }
{
    end as u128 * width as u128 <= bytes.len() as u128
}

/// The first image that lacks something.
pub(crate) fn first_lack(steps: &[StepImage]) -> Option<Lacking>
    ensures { result ≡ first_lack 0 (map step_parts steps.now) }
{
    for (step, image) in steps.iter().enumerate() {
        if let Some(lack) = image.lack() {
            return Some(Lacking { step, lack });
        }
    }
    None
}
