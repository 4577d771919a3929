//! Rows of equal keys, each linked to the next.
ghost use Rattle.std.specs.Prelude.{IfOk};
ghost use Rattle.std.specs.Ordering.{eq_by_cmp};
ghost use Rattle.std.specs.BTreeMap as tree;
ghost use Rattle.vx_join.specs.Chains.{AreLinked};

use std::alloc::Global;
use std::collections::BTreeMap;
use vx_bits::NoMemory;

/// The rows of a list, where each is linked to the next one of an equal key.
#[derive(Drop)]
pub(crate) struct Chains<K: Ord> {
    /// The first row of each key.
    pub first: BTreeMap<K, usize>,
    /// The next row of the same key, or the number of rows where there is none.
    pub next: Vec<usize>,
}

/// Links rows of equal keys, from the last row to the first. A row without a key is in no chain.
pub(crate) fn chains_of<K: Ord + Copy>(
    alloc: Global,
    rows: &[Option<K>],
) -> Result<Chains<K>, NoMemory>
    ensures { IfOk result (λ c. AreLinked (eq_by_cmp K.cmp) rows.now 0 (tree.get K.cmp c.first)
        c.next.items) }
{
    let mut first = BTreeMap::new(alloc);
    let mut next = vec![in alloc; rows.len(); rows.len()]?;
    for j in (0..rows.len()).rev() {
        if let Some(key) = rows[j] {
            if let Some(later) = first.insert(key, j)? {
                next[j] = later;
            }
        }
    }
    Ok(Chains { first, next })
}
