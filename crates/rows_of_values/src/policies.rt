//! Policies, and what is asked of masks under them.

use crate::masks::{at, within};
use crate::text::{kept, shown};
use std::alloc::Global;
use std::test::Fail;
use vx_mask::{Mask, MaskValues, Policy, PolicyFields, filters_law, prepare_mask_for_reuse};

/// A row for the limits, for refusals, or for masks for consumers and of one run.
pub(crate) fn row(alloc: Global, n: usize) -> Result<String, Fail> {
    match n {
        0 => limits(alloc),
        1 => refusals(alloc),
        2 => prepared(alloc, 1, "100 rows, 3 and 50, for 1: "),
        3 => prepared(alloc, 2, "100 rows, 3 and 50, for 2: "),
        _ => one_run(alloc),
    }
}

fn limits(alloc: Global) -> Result<String, Fail> {
    filters_law::<u8>();
    let vortex = Policy::vortex();
    let limits = [
        vortex.sparse_limit(1),
        vortex.sparse_limit(2),
        vortex.sparse_limit(4),
        vortex.sparse_limit(8),
    ];
    shown(alloc, "limits of 1 2 4 8 bytes", &limits)
}

/// Vortex's numbers with the first faults of three.
fn faulty(faults: usize) -> PolicyFields {
    let mut fields = *Policy::vortex().fields();
    if faults > 0 {
        fields.sparse_w1 = 161;
    }
    if faults > 1 {
        fields.rank_lookup_cap = 0;
    }
    if faults > 2 {
        fields.list_indices_below.den = 0;
    }
    fields
}

fn refusals(alloc: Global) -> Result<String, Fail> {
    let names = "Vortex, a limit of 161, no cap too, by 0 too:";
    let mut text = String::from_str(alloc, names)?;
    for faults in 0..4 {
        let refusal = Policy::try_new(faulty(faults)).err();
        write!(text, " {refusal:?}")?;
    }
    Ok(text)
}

/// A row for 100 bits of which bits 3 and 50 are set, for so many consumers.
fn prepared(alloc: Global, consumers: usize, start: &str) -> Result<String, Fail> {
    let made = at(alloc, 100, &[3, 50])?;
    let values = made.values().ok_or("no partial mask")?;
    for_consumers(alloc, &bare(values), consumers, start)
}

/// The mask of its bits, with nothing kept beside them.
fn bare(mask: &MaskValues) -> Mask {
    Mask::from_buffer(mask.bits().share())
}

fn for_consumers(
    alloc: Global,
    mask: &Mask,
    consumers: usize,
    start: &str,
) -> Result<String, Fail> {
    let mask = prepare_mask_for_reuse(alloc, mask, consumers, &Policy::vortex())?;
    kept(alloc, start, &mask)
}

fn one_run(alloc: Global) -> Result<String, Fail> {
    let mask = within(alloc, 5, &[(1, 2), (2, 4)])?;
    run_of(alloc, &mask.share())
}

fn run_of(alloc: Global, mask: &Mask) -> Result<String, Fail> {
    let run = mask.contiguous();
    let more = mask.density_at_least(3, 5);
    let less = mask.density_at_least(61, 100);
    Ok(format!(in alloc; "01110: run {run:?}, 3 of 5 {more}, 61 of 100 {less}")?)
}
