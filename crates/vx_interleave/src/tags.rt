//! Ids of rows of unions, and the places of rows among those of their variants.
ghost use Rattle.std.specs.Prelude.{◌≡◌, ◌<◌, ◌++◌, ◌∷◌, [], IfOk, IfSome, OnOk, map, pos, true};
ghost use Rattle.vx_types.specs.RowValue.{bytes};
ghost use Rattle.vx_types.specs.TypeTree.{primitive_kind};
ghost use Rattle.vx_types.specs.declared.ptype.PType.TheVariants.{U8};
ghost use Rattle.vx_model.specs.Numbers.{integers_of};
ghost use Rattle.vx_model.specs.VarBin.{are_integers};
ghost use Rattle.vx_interleave.specs.Rows.{stored_as};
ghost use Rattle.vx_interleave.specs.Tags.{AreCounts, counted, id_row, is_tag, next_place, places_after};

use crate::numbers::push_number;
use std::alloc::Global;
use vx_bits::{Buffer, NoMemory};
use vx_column::{PType, PrimitiveArray};
use vx_text::Offsets;

/// Whether it is this id.
pub(crate) fn is_tag(tag: Option<u8>, id: u8) -> bool
    ensures { result ≡ is_tag id tag }
{
    match tag {
        Some(tag) => tag == id,
        None => false,
    }
}

// The record of an id, and 0 in place of none.
fn id_record(tag: Option<u8>) -> [u8; 1]
    ensures { bytes result ≡ stored_as (primitive_kind U8) (id_row tag) }
{
    match tag {
        Some(id) => [id],
        None => [0],
    }
}

/// The records of the ids.
pub(crate) fn id_records(alloc: Global, tags: &[Option<u8>]) -> Result<Buffer<[u8; 1]>, NoMemory>
    ensures { IfOk result
        (λ b. map bytes b ≡ map (stored_as (primitive_kind U8)) (map id_row tags.now)) }
{
    let mut records = Vec::with_capacity(alloc, tags.len())?;
    for tag in tags {
        records.push_reserved(id_record(*tag));
    }
    Buffer::from_vec(alloc, records)
}

// No row of any id yet.
fn no_counts() -> [usize; 256]
    ensures { AreCounts [] result }
{
    [0; 256]
}

// Appends the place of a row of this id, of which so many are counted; 0 where it has none.
fn push_place(
    places: &mut Offsets,
    counts: &mut [usize; 256],
    tag: Option<u8>,
) -> Result<(), NoMemory>
    ensures place { OnOk result
        (places.new.numbers ≡ places.old.numbers ++ next_place counts.old tag ∷ []) }
    ensures counts { OnOk result (counts.new ≡ counted counts.old tag) }
    ensures small { IfSome tag (λ id. id < 256) }
{
    let Some(id) = tag else {
        return push_number(places, 0);
    };
    let place = counts[id as usize];
    push_number(places, place)?;
    counts[id as usize] = place + 1;
    Ok(())
}

/// For each row its place among those of the same id.
pub(crate) fn gather_places(alloc: Global, tags: &[Option<u8>]) -> Result<PrimitiveArray, NoMemory>
    ensures integers { IfOk result (λ o. are_integers o ≡ true) }
    ensures places { IfOk result (λ o. integers_of o ≡ map pos (places_after [] tags.now)) }
{
    let mut places = Offsets::new(alloc, PType::U64);
    let mut counts = no_counts();
    for tag in tags {
        push_place(&mut places, &mut counts, *tag)?;
    }
    places.into_primitive()
}
