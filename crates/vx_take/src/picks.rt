//! Lists of optional positions.
ghost use Rattle.std.specs.Prelude.{◌≡◌, ◌++◌, ◌-◌, ◌<◌, ◌↔◌, [], ◌∷◌, IfOk, IfSome, IsTrue, None, Some, OnErr, OnOk, length, map, slice_index_or};
ghost use Rattle.std.specs.List.{All};
ghost use Rattle.vx_take.specs.Picks.{ArePlaces, AreBelow, pick_of, picks_of};

use std::alloc::Global;
use std::marker::Model;
use vx_bits::NoMemory;

/// Stands for a null: no position is this number, since each is below a bound.
pub(crate) const NULL_PLACE: usize = usize::MAX;

/// A list of optional positions with a bound that each position is below.
///
/// Clauses see the picks, `None` where there is a null, and the bound. A pick takes 8 bytes.
pub struct Picks {
    places: Vec<usize>,
    bound: usize,
}

impl Model for Picks {
    ghost use Rattle.vx_take.specs.Picks.{ArePlaces, BoundedPicks, picks_of};

    ghost Value = { BoundedPicks };

    ghost view = { λ p. record { picks = picks_of p.places.items; bound = p.bound } };

    ghost invariant = { λ p. ArePlaces p.places.items p.bound };
}

impl Drop for Picks {
    fn drop(self) {
        let Picks { places, bound: _ } = self;
        drop(places)
    }
}

impl Picks {
    /// An empty list of picks. Allocates nothing.
    pub fn new(alloc: Global, bound: usize) -> Picks
        ensures { result ≡ record { picks = []; bound = bound } }
    {
        Picks {
            places: Vec::new(alloc),
            bound,
        }
    }

    /// No pick yet, and room for so many. Fails only with `NoMemory`.
    pub fn with_capacity(alloc: Global, bound: usize, len: usize) -> Result<Picks, NoMemory>
        ensures { IfOk result (λ p. p ≡ record { picks = []; bound = bound }) }
    {
        Ok(Picks {
            places: Vec::with_capacity(alloc, len)?,
            bound,
        })
    }

    /// The picks of a list of positions, none of them a null: a whole list is handed over as it
    /// stands.
    pub fn from_vec(positions: Vec<usize>, bound: usize) -> Picks
        requires { All (λ p. p < bound) positions.items }
        ensures { result ≡ record { picks = map Some positions.items; bound = bound } }
    {
        Picks::from_places(positions, bound)
    }

    /// The picks that these places stand for.
    pub(crate) fn from_places(places: Vec<usize>, bound: usize) -> Picks
        requires { ArePlaces places.items bound }
        ensures { result ≡ record { picks = picks_of places.items; bound = bound } }
    {
        Picks { places, bound }
    }

    /// Appends a position, or a null. Fails only with `NoMemory`, and then the picks are as before.
    pub fn push(&mut self, pick: Option<usize>) -> Result<(), NoMemory>
        requires { IfSome pick (λ p. p < self.old.bound) }
        ensures ok { OnOk result
            (self.new ≡ record self.old { picks = self.old.picks ++ pick ∷ [] }) }
        ensures err { OnErr result (self.new ≡ self.old) }
    {
        self.places.push(pick.unwrap_or(NULL_PLACE))?;
        Ok(())
    }

    /// Another handle to the same picks. Fails only with `NoMemory`.
    pub fn copied(&self, alloc: Global) -> Result<Picks, NoMemory>
        ensures { IfOk result (λ p. p ≡ self.now) }
    {
        Ok(Picks {
            places: self.places.as_slice().to_vec(alloc)?,
            bound: self.bound,
        })
    }

    /// The number of picks.
    pub fn len(&self) -> usize
        ensures { result ≡ length self.now.picks }
    {
        self.places.len()
    }

    /// Whether there is no pick.
    pub fn is_empty(&self) -> bool
        ensures { IsTrue result ↔ (length self.now.picks ≡ 0) }
    {
        self.len() == 0
    }

    /// What each position is below.
    pub fn bound(&self) -> usize
        ensures value { result ≡ self.now.bound }
        ensures below { AreBelow self.now.picks result }
    {
        self.bound
    }

    /// Pick `i`: a position, or `None` at a null.
    pub fn get(&self, i: usize) -> Option<usize>
        requires { i < length self.now.picks }
        ensures value { result ≡ slice_index_or self.now.picks i None }
        ensures below { IfSome result (λ p. p < self.now.bound) }
    {
        pick_at(self.places[i])
    }

    /// The places that stand for the picks.
    pub(crate) fn places(&self) -> &[usize]
        ensures value { picks_of result.now ≡ self.now.picks }
        ensures below { ArePlaces result.now self.now.bound }
    {
        self.places.as_slice()
    }
}

// The pick that a place stands for.
#[inline(always)]
fn pick_at(place: usize) -> Option<usize>
    ensures { result ≡ pick_of place }
{
    if place == NULL_PLACE {
        None
    } else {
        Some(place)
    }
}
