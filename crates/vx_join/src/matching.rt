//! The pairs of rows with equal keys.
ghost use Rattle.std.specs.Prelude.{◌≡◌, ◌++◌, [], IfOk, OnOk, Some, length, map, slice_index};
ghost use Rattle.std.specs.List.{sum_by};
ghost use Rattle.std.specs.Vec.{vec_capacity};
ghost use Rattle.std.specs.Ordering.{eq_by_cmp};
ghost use Rattle.std.specs.BTreeMap as tree;
ghost use Rattle.vx_join.specs.Chains.{AreLinked, first_match, keys_match};
ghost use Rattle.vx_join.specs.Pairs.{lefts, pairs, positions_from, rights};

use crate::chains::{Chains, chains_of};
use std::alloc::Global;
use vx_bits::NoMemory;

/// The positions of the pairs, pair by pair.
#[derive(Drop)]
pub(crate) struct Found {
    /// The left row of each pair.
    pub left: Vec<usize>,
    /// The right row of each pair.
    pub right: Vec<usize>,
}

/// No pair yet, and room for as many as there will be: for each left row as many as the counts say
/// of where its rows on the right start, and none past their end.
pub(crate) fn room_for(alloc: Global, starts: &[usize], counts: &[usize]) -> Result<Found, NoMemory>
    ensures left { IfOk result (λ found. found.left.items ≡ []) }
    ensures right { IfOk result (λ found. found.right.items ≡ []) }
    ensures left_room { IfOk result
        (λ found. vec_capacity found.left ≡ sum_by (λ s. slice_index counts.now s) starts.now) }
    ensures right_room { IfOk result
        (λ found. vec_capacity found.right ≡ sum_by (λ s. slice_index counts.now s) starts.now) }
{
    let pairs = pair_count(starts, counts)?;
    Ok(Found {
        left: Vec::with_capacity(alloc, pairs)?,
        right: Vec::with_capacity(alloc, pairs)?,
    })
}

// The sum of the counts at these places, where it is at most `usize::MAX`.
fn pair_count(starts: &[usize], counts: &[usize]) -> Result<usize, NoMemory>
    ensures { IfOk result
        (λ pairs. pairs ≡ sum_by (λ s. slice_index counts.now s) starts.now) }
{
    let mut pairs: usize = 0;
    for start in starts {
        let count = count_at(counts, *start);
        pairs = pairs.checked_add(count).ok_or(NoMemory)?;
    }
    Ok(pairs)
}

// The count at a place, and none past the end.
#[inline(always)]
fn count_at(counts: &[usize], at: usize) -> usize
    ensures { result ≡ slice_index counts.now at }
{
    counts.get(at).copied().unwrap_or(0)
}

// For each row how long its chain is from it on.
fn chain_counts(alloc: Global, next: &[usize]) -> Result<Vec<usize>, NoMemory>
    ensures { IfOk result (λ counts. length counts.items ≡ length next.now) }
{
    let mut counts: Vec<usize> = vec![in alloc; 1; next.len()]?;
    for j in (0..next.len()).rev() {
        let rest = count_at(&counts, next[j]);
        counts[j] = rest.saturating_add(1);
    }
    Ok(counts)
}

// Where the chain of a row's key starts, and the number of rows where there is none.
fn start_of<K: Ord + Copy>(row: Option<K>, rows: &[Option<K>], chains: &Chains<K>) -> usize
    requires { AreLinked (eq_by_cmp K.cmp) rows.now 0 (tree.get K.cmp chains.now.first)
        chains.now.next.items }
    ensures { result ≡ first_match (eq_by_cmp K.cmp) rows.now row 0 }
{
    match row {
        None => rows.len(),
        Some(key) => chains.first.get(&key).copied().unwrap_or(rows.len()),
    }
}

// Where the chain of each key on the left starts.
fn starts_of<K: Ord + Copy>(
    alloc: Global,
    keys: &[Option<K>],
    rows: &[Option<K>],
    chains: &Chains<K>,
) -> Result<Vec<usize>, NoMemory>
    requires { AreLinked (eq_by_cmp K.cmp) rows.now 0 (tree.get K.cmp chains.now.first)
        chains.now.next.items }
    ensures { IfOk result (λ starts. starts.items
        ≡ map (λ row. first_match (eq_by_cmp K.cmp) rows.now row 0) keys.now) }
{
    let mut starts = Vec::with_capacity(alloc, keys.len())?;
    for i in 0..keys.len() {
        starts.push(start_of(keys[i], rows, chains))?;
    }
    Ok(starts)
}

// Appends row `i` with each row of the chain that starts at `first`.
fn push_chain<K: Ord + Copy>(
    found: &mut Found,
    i: usize,
    key: K,
    rows: &[Option<K>],
    first: usize,
    chains: &Chains<K>,
) -> Result<(), NoMemory>
    requires linked { AreLinked (eq_by_cmp K.cmp) rows.now 0 (tree.get K.cmp chains.now.first)
        chains.now.next.items }
    requires starts { first ≡ first_match (eq_by_cmp K.cmp) rows.now (Some key) 0 }
    ensures left { OnOk result (found.new.left.items ≡ found.old.left.items
        ++ map (λ _. i) (positions_from (keys_match (eq_by_cmp K.cmp) (Some key)) 0 rows.now)) }
    ensures right { OnOk result (found.new.right.items ≡ found.old.right.items
        ++ positions_from (keys_match (eq_by_cmp K.cmp) (Some key)) 0 rows.now) }
{
    // Only the contract speaks of it.
    let _ = key;
    let mut j = first;
    while j < rows.len() {
        found.left.push(i)?;
        found.right.push(j)?;
        j = chains.next[j];
    }
    Ok(())
}

/// The pairs of rows whose keys are equal, by the left and then by the right row. A row without a
/// key is in no pair. Each left row is looked up once in an ordered map of the right rows' keys,
/// and the pairs are counted before the first of them is made.
pub(crate) fn join_keys<K: Ord + Copy>(
    alloc: Global,
    left: &[Option<K>],
    right: &[Option<K>],
) -> Result<Found, NoMemory>
    ensures left { IfOk result (λ found. found.left.items
        ≡ lefts (pairs (keys_match (eq_by_cmp K.cmp)) left.now right.now)) }
    ensures right { IfOk result (λ found. found.right.items
        ≡ rights (pairs (keys_match (eq_by_cmp K.cmp)) left.now right.now)) }
{
    let chains = chains_of(alloc, right)?;
    let starts = starts_of(alloc, left, right, &chains)?;
    let mut found = room_for(alloc, &starts, &chain_counts(alloc, &chains.next)?)?;
    for i in 0..left.len() {
        if let Some(key) = left[i] {
            push_chain(&mut found, i, key, right, starts[i], &chains)?;
        }
    }
    Ok(found)
}
