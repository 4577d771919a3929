//! Lists of any kind of item.
ghost use Rattle.std.specs.Prelude.{◌≡◌, map};
ghost use Rattle.serde_json.specs.View.{view, items_view};
ghost use Rattle.vx_json.specs.Meaning.{Gives};
ghost use Rattle.vx_json.specs.Items.{each};

use crate::error::DocError;
use serde_json::Value;
use std::alloc::Global;

/// How an item of a list is read.
pub trait ReadItem {
    ghost use Rattle.std.specs.Prelude.{Option};
    ghost use Rattle.serde_json.specs.Data.{Data};

    /// What is read.
    type Out;

    // what clauses see of it, and how
    ghost Seen: { Type 0 };

    ghost seen: { Self.Out → Seen };

    // what an item means, if it means anything
    ghost meaning: { Self → Data → Option Seen };

    /// Reads an item. `Malformed` where it has no meaning.
    fn read(&self, alloc: Global, value: &Value) -> Result<Self::Out, DocError>
        ensures { Gives seen result (meaning self.now (view value.now)) };
}

/// What the items of a list mean, in order. `Malformed` where one has no meaning.
#[inline(always)]
pub fn read_each<R: ReadItem>(
    alloc: Global,
    reader: &R,
    items: &Vec<Value>,
) -> Result<Vec<R::Out>, DocError>
where
    R::Out: Drop,
    ensures { Gives (λ v. map R.seen v.items) result
        (each (R.meaning reader.now) (items_view items.now.items)) }
{
    let mut read = Vec::with_capacity(alloc, items.len())?;
    for item in items {
        read.push_reserved(reader.read(alloc, item)?);
    }
    Ok(read)
}
