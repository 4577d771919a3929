//! Shared values: many owners, and the traits through a bound.

use crate::text::shown;
use std::alloc::{AllocError, Global};
use std::fmt::Debug;
use std::ops::Deref;
use std::test::Fail;
use vx_shared::Shared;

/// A row for a list of a thousand owners, or for the traits.
pub(crate) fn row(alloc: Global, n: usize) -> Result<String, Fail> {
    match n {
        0 => seen_by(alloc, owners(alloc)?.as_slice()),
        _ => traits(alloc),
    }
}

/// A thousand owners of a list, of which the first is let go.
fn owners(alloc: Global) -> Result<Vec<Shared<Vec<u8>>>, Fail> {
    let first = Shared::new(alloc, [1u8, 2, 3].to_vec(alloc)?)?;
    let mut owners = Vec::new(alloc);
    for _ in 0..1000 {
        owners.push(first.share())?;
    }
    Ok(owners)
}

fn seen_by(alloc: Global, owners: &[Shared<Vec<u8>>]) -> Result<String, Fail> {
    let mut count = 0usize;
    for owner in owners {
        if owner.as_ref().as_slice() == [1, 2, 3].as_slice() {
            count = count.saturating_add(1);
        }
    }
    shown(alloc, "owners that see 1 2 3", &count)
}

fn is_same<T: PartialEq>(a: &T, b: &T) -> bool {
    a == b
}

fn text_of<T: Debug>(alloc: Global, value: &T) -> Result<String, AllocError> {
    format!(in alloc; "{value:?}")
}

fn twin<T: Clone>(value: &T) -> Result<T, AllocError> {
    value.clone()
}

fn behind<D: Deref<Target = u8>>(owner: &D) -> u8 {
    *owner.deref()
}

fn traits(alloc: Global) -> Result<String, Fail> {
    let seven = Shared::new(alloc, 7u8)?;
    let same = is_same(&seven, &Shared::new(alloc, 7u8)?);
    let eight = Shared::new(alloc, 8u8)?;
    of_eight(alloc, same, is_same(&seven, &eight), &eight)
}

fn of_eight(alloc: Global, same: bool, other: bool, eight: &Shared<u8>) -> Result<String, Fail> {
    let twin = behind(&twin(eight)?);
    let text = text_of(alloc, eight)?;
    Ok(format!(in alloc; "7 is 7 {same}, 7 is 8 {other}; 8 is {text}, its twin {twin}")?)
}
