//! The layouts whose rows tell without a walk from row to row which of them are true.
ghost use Rattle.std.specs.Prelude.{◌≡◌, ◌<◌, length};
ghost use Rattle.vx_bits.specs.BitBuffer.{true_count_of};
ghost use Rattle.vx_model.specs.Bool.{bool_column};
ghost use Rattle.vx_model.specs.Constant.{constant_column};
ghost use Rattle.vx_model.specs.Filter.{filter_column};
ghost use Rattle.vx_model.specs.Valid.{is_yes};
ghost use Rattle.vx_column.specs.Truth.{true_bits};
ghost use Rattle.vx_reading.specs.BoolRows.{IsStretch};

use crate::stretch::{Stretch, alike, word_from};
use crate::truth::{true_from, true_rows, true_rows_at};
use vx_column::{BoolArray, ConstantArray, FilterArray, ScalarValue, Validity};
use vx_mask::Mask;

/// The rows of layout `Bool` from `start` on.
#[cycle(truth)]
#[tactic(auto, using(crate::proofs::TruthBits::truth))]
pub(crate) fn bools_from(array: &BoolArray, start: usize) -> Stretch
    requires { start < length (bool_column array.now).rows }
    ensures { IsStretch (true_bits (bool_column array.now)) start result.word result.len }
{
    let bits = array.bits();
    let len = (bits.len() - start).min(64);
    match array.validity() {
        Validity::NonNullable | Validity::AllValid => Stretch {
            word: word_from(bits, start, len),
            len,
        },
        Validity::AllInvalid => Stretch { word: 0, len },
        Validity::Array(there) => {
            let there = true_from(there, start);
            Stretch {
                word: there.word & word_from(bits, start, there.len),
                len: there.len,
            }
        }
    }
}

// Whether each row is true.
#[tactic(auto, using(vx_model::proofs::Scalars::scalars))]
fn is_true(array: &ConstantArray) -> bool
    ensures { result ≡ is_yes array.now.scalar.row }
{
    match array.scalar().value() {
        ScalarValue::Bit(bit) => *bit,
        ScalarValue::Null | ScalarValue::Bytes(_) => false,
    }
}

/// The rows of layout `Constant` from `start` on.
#[tactic(auto, using(vx_model::proofs::LazyRows::lazy_rows))]
pub(crate) fn constant_from(array: &ConstantArray, start: usize) -> Stretch
    requires { start < length (constant_column array.now).rows }
    ensures { IsStretch (true_bits (constant_column array.now)) start result.word result.len }
{
    let len = (array.len() - start).min(64);
    let word = alike(is_true(array), len);
    Stretch { word, len }
}

/// The rows of layout `Filter` from `start` on: what the mask keeps of a stretch of the child, which
/// begins with the first of them.
#[cycle(truth)]
#[tactic(auto, using(vx_model::proofs::LazyRows::lazy_rows, crate::proofs::TruthBits::truth))]
pub(crate) fn kept_from(array: &FilterArray, start: usize) -> Stretch
    requires { start < length (filter_column array.now).rows }
    ensures { IsStretch (true_bits (filter_column array.now)) start result.word result.len }
{
    let mask = array.mask();
    let at = mask.rank(start);
    let all = true_from(array.child(), at);
    match mask {
        Mask::AllTrue(_) => all,
        Mask::AllFalse(_) => unreachable!(),
        Mask::Values(values) => all.picked(word_from(values.bits(), at, all.len)),
    }
}

/// How many rows of layout `Filter` are true: the child's at the set positions, a stretch after
/// another.
#[cycle(true_rows)]
#[tactic(auto, using(vx_model::proofs::LazyRows::lazy_rows, crate::proofs::TruthBits::truth))]
pub(crate) fn kept_true_rows(array: &FilterArray) -> usize
    ensures { result ≡ true_count_of (true_bits (filter_column array.now)) }
{
    let child = array.child();
    match array.mask() {
        Mask::AllTrue(_) => true_rows(child),
        Mask::AllFalse(_) => 0,
        Mask::Values(values) => true_rows_at(child, values.bits()),
    }
}
