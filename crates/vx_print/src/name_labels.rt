//! What stands in front of a struct's fields.
ghost use Rattle.std.specs.Prelude.{◌≡◌, ◌++◌, map, IfOk, IsOk};
ghost use Rattle.vx_types.specs.Fields.{names_of};
ghost use Rattle.vx_print.specs.Fields.{label_at, AreLabels};

use crate::joined::push_gap;
use crate::types::push_name;
use std::alloc::Global;
use std::rc::RcStr;
use vx_bits::NoMemory;

/// What stands in front of each field of these names, so that it is put together once a column and
/// not once a row. Fails only with `NoMemory`.
pub(crate) fn labels_of(alloc: Global, names: &[RcStr]) -> Result<Vec<Vec<u8>>, NoMemory>
    ensures { IfOk result (λ labels.
        AreLabels (names_of names.now) (map (λ l. l.items) labels.items)) }
{
    let mut labels = Vec::with_capacity(alloc, names.len())?;
    for k in 0..names.len() {
        let mut label = Vec::new(alloc);
        push_gap(&mut label, k == 0)?;
        push_name(&mut label, names, k)?;
        labels.push(label)?;
    }
    Ok(labels)
}

/// Appends what stands in front of field `k`, as it is put together where it is. Fails only with
/// `NoMemory`.
#[inline(always)]
pub(crate) fn push_label(
    text: &mut Vec<u8>,
    names: &[RcStr],
    labels: &[Vec<u8>],
    k: usize,
) -> Result<(), NoMemory>
    requires { AreLabels (names_of names.now) (map (λ l. l.items) labels.now) }
    ensures { IsOk result → text.new.items ≡ text.old.items ++ label_at (names_of names.now) k }
{
    match labels.get(k) {
        Some(label) => {
            text.extend_from_slice(label.as_slice())?;
            Ok(())
        }
        None => {
            push_gap(text, k == 0)?;
            push_name(text, names, k)
        }
    }
}
