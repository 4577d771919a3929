//! How much room picks need.
ghost use Rattle.std.specs.Prelude.{◌≡◌, ◌*◌, ◌≤◌, ◌&&◌, length, nat_le, true};
ghost use Rattle.vx_arrow.specs.Written.{has_room, need_of};

use std::fmt;
use vx_types::Nullability;

/// How much room picks need.
#[repr(C)]
#[derive(Debug, Clone, Copy, PartialEq, Eq)]
pub struct Need {
    /// How many picks there are, each a place.
    pub places: usize,
    /// How many bytes of validity: a bit for each pick where one may be a null, and none where none
    /// is.
    pub valid: usize,
}

impl Need {
    /// What so many picks need, of which some may be null where `nullability` says so.
    pub(crate) fn of(places: usize, nullability: Nullability) -> Need
        ensures { result ≡ need_of places nullability }
    {
        let valid = match nullability {
            Nullability::NonNullable => 0,
            Nullability::Nullable => places.div_ceil(8),
        };
        Need { places, valid }
    }

    /// Whether so many places and bytes are room enough.
    pub(crate) fn has_room(&self, places: usize, valid: usize) -> bool
        ensures { result ≡ has_room self.now places valid }
    {
        self.places <= places && self.valid <= valid
    }
}

impl fmt::Display for Need {
    ghost use Rattle.std.specs.Prelude.{Some};
    ghost use Rattle.vx_arrow.specs.Messages.{need_text};

    ghost output = { λ e. Some (need_text e) };

    fn fmt<W: fmt::Write>(&self, f: &mut fmt::Formatter<W>) -> fmt::Result {
        write!(
            f,
            "places {}, bytes of validity {}",
            self.places, self.valid
        )
    }
}
