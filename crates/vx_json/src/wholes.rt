//! Whole numbers, pairs of them, and lists of both.
ghost use Rattle.std.specs.Prelude.{◌≡◌, ◌≤◌, IfOk, option_and_then};
ghost use Rattle.serde_json.specs.Find.{get};
ghost use Rattle.serde_json.specs.View.{view, items_view};
ghost use Rattle.vx_json.specs.Meaning.{Gives, OnlyMalformed};
ghost use Rattle.vx_json.specs.Items.{each};
ghost use Rattle.vx_json.specs.Wholes.{whole_of, at_most, pair_in, pair_of};

use crate::error::DocError;
use crate::items::{ReadItem, read_each};
use crate::members::{items_in, member};
use serde_json::Value;
use std::alloc::Global;

/// The greatest length that a document may state.
pub const GREATEST_LEN: usize = 16_777_216;

/// A whole number below 2^64. `Malformed` where the value is none.
#[inline(always)]
#[tactic(auto, unfolding(crate::specs::Wholes::whole_of))]
pub fn whole_of(value: &Value) -> Result<usize, DocError>
    ensures value { Gives (λ n. n) result (whole_of (view value.now)) }
    ensures malformed { OnlyMalformed result }
{
    match value.as_u64() {
        Some(n) => Ok(n as usize),
        None => Err(DocError::Malformed),
    }
}

/// A whole number up to `bound`. `Malformed` where the value is none.
#[tactic(auto, unfolding(crate::specs::Wholes::at_most))]
pub fn at_most(bound: usize, value: &Value) -> Result<usize, DocError>
    ensures value { Gives (λ n. n) result (at_most bound (view value.now)) }
    ensures bound { IfOk result (λ n. n ≤ bound) }
    ensures malformed { OnlyMalformed result }
{
    let n = whole_of(value)?;
    if n <= bound {
        Ok(n)
    } else {
        Err(DocError::Malformed)
    }
}

/// The whole number up to `bound` that the member of this name is. `Malformed` where there is no
/// member, or it is none.
pub fn number_member(bound: usize, value: &Value, name: &str) -> Result<usize, DocError>
    ensures value { Gives (λ n. n) result
        (option_and_then (at_most bound) (get name.now (view value.now))) }
    ensures bound { IfOk result (λ n. n ≤ bound) }
    ensures malformed { OnlyMalformed result }
{
    at_most(bound, member(value, name)?)
}

#[inline(always)]
#[tactic(auto, unfolding(crate::specs::Wholes::pair_in))]
fn pair_in(items: &Vec<Value>) -> Result<(usize, usize), DocError>
    ensures value { Gives (λ p. p) result (pair_in (items_view items.now.items)) }
    ensures malformed { OnlyMalformed result }
{
    match items.as_slice() {
        [a, b] => {
            let first = whole_of(a)?;
            let second = whole_of(b)?;
            Ok((first, second))
        }
        _ => Err(DocError::Malformed),
    }
}

/// The two whole numbers of a list of just two. `Malformed` where the value is no such list.
#[inline(always)]
#[tactic(auto, unfolding(crate::specs::Wholes::pair_of))]
pub fn pair_of(value: &Value) -> Result<(usize, usize), DocError>
    ensures value { Gives (λ p. p) result (pair_of (view value.now)) }
    ensures malformed { OnlyMalformed result }
{
    pair_in(items_in(value)?)
}

#[derive(Clone, Copy)]
struct Wholes;

impl ReadItem for Wholes {
    ghost use Rattle.std.specs.Prelude.{ℕ};

    type Out = usize;

    ghost Seen = { ℕ };

    ghost seen = { λ n. n };

    ghost meaning = { λ _ d. whole_of d };

    #[inline(always)]
    fn read(&self, _alloc: Global, value: &Value) -> Result<usize, DocError> {
        whole_of(value)
    }
}

#[derive(Clone, Copy)]
struct Pairs;

impl ReadItem for Pairs {
    ghost use Rattle.std.specs.Prelude.{ℕ};

    type Out = (usize, usize);

    ghost Seen = { ℕ × ℕ };

    ghost seen = { λ p. p };

    ghost meaning = { λ _ d. pair_of d };

    #[inline(always)]
    fn read(&self, _alloc: Global, value: &Value) -> Result<(usize, usize), DocError> {
        pair_of(value)
    }
}

/// A list of whole numbers. `Malformed` where an item is none.
pub fn wholes_in(alloc: Global, items: &Vec<Value>) -> Result<Vec<usize>, DocError>
    ensures { Gives (λ v. v.items) result (each whole_of (items_view items.now.items)) }
{
    read_each(alloc, &Wholes, items)
}

/// A list of pairs. `Malformed` where an item is none.
pub fn pairs_in(alloc: Global, items: &Vec<Value>) -> Result<Vec<(usize, usize)>, DocError>
    ensures { Gives (λ v. v.items) result (each pair_of (items_view items.now.items)) }
{
    read_each(alloc, &Pairs, items)
}
