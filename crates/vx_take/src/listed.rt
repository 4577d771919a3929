//! A list of what each place gives.
ghost use Rattle.std.specs.Prelude.{◌≡◌, ℕ, IfOk, Option, map};
ghost use Rattle.std.specs.List.{All};
ghost use Rattle.vx_take.specs.Picks.{pick_of, picks_of};

use std::alloc::Global;
use vx_bits::NoMemory;

/// Gives an item for each place.
pub(crate) trait ItemOf<T: Copy> {
    // the item of a pick
    ghost item: { Self → Option ℕ → T };

    // which places have one
    ghost has: { Self → ℕ → Type 0 };

    fn item_of(&self, place: usize) -> T
        requires { has self.now place }
        ensures { result ≡ item self.now (pick_of place) };
}

/// The items of the places, in order.
pub(crate) fn listed<T: Copy, I: ItemOf<T>>(
    alloc: Global,
    item: &I,
    places: &[usize],
) -> Result<Vec<T>, NoMemory>
    requires { All (I.has item.now) places.now }
    ensures { IfOk result (λ items. items.items ≡ map (I.item item.now) (picks_of places.now)) }
{
    let mut items = Vec::with_capacity(alloc, places.len())?;
    for place in places {
        items.push_reserved(item.item_of(*place));
    }
    Ok(items)
}
