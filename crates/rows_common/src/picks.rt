//! Picks of a few rows.
ghost use Rattle.std.specs.Prelude.{◌≡◌, ◌<◌, ◌++◌, [], ◌∷◌, IfOk, OnOk, Some};

use std::alloc::Global;
use std::test::Fail;
use vx_take::Picks;

/// The picks of a list, each of which is below the bound.
pub fn picks_of(alloc: Global, bound: usize, list: &[Option<usize>]) -> Result<Picks, Fail>
    ensures { IfOk result (λ p. p ≡ record { picks = list.now; bound = bound }) }
{
    let mut picks = Picks::with_capacity(alloc, bound, list.len())?;
    for pick in list {
        match pick {
            None => picks.push(None)?,
            Some(place) => push_place(&mut picks, *place)?,
        }
    }
    Ok(picks)
}

fn push_place(picks: &mut Picks, place: usize) -> Result<(), Fail>
    ensures { OnOk result
        (picks.new ≡ record picks.old { picks = picks.old.picks ++ Some place ∷ [] }) }
{
    if place >= picks.bound() {
        return Err("a pick past the bound".into());
    }
    picks.push(Some(place))?;
    Ok(())
}
