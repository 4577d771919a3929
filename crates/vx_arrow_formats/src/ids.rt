//! The type ids that the format of a union lists.
ghost use Rattle.std.specs.Prelude.{◌≡◌, ◌==◌, ◌∷◌, ◌++◌, ◌≤◌, [], IfSome, None, Some, MatchOption, is_some, option_map, take};
ghost use Rattle.std.specs.List.{list_any};
ghost use Rattle.vx_arrow_formats.specs.Ids.{ids_in, may_follow};

use crate::numbers::{first_field, number};

// Whether an id is among these.
fn has(ids: &[u8], id: u64) -> bool
    ensures { result ≡ list_any (λ x. x == id) ids.now }
{
    ids.iter().any(|x| *x as u64 == id)
}

/// The type ids of a union's children, in order.
#[derive(Clone, Copy)]
pub(crate) struct Ids {
    /// The ids, and zeros after the last one.
    pub(crate) ids: [u8; 128],
    /// How many there are.
    pub(crate) count: usize,
    ghost few: { count ≤ 128 },
}

impl Ids {
    // No ids.
    fn none() -> Ids
        ensures { take result.count result.ids ≡ [] }
    {
        Ids {
            ids: [0; 128],
            count: 0,
        }
    }

    // Whether an id may follow these.
    fn may_follow(&self, id: u64) -> bool
        ensures { result ≡ may_follow (take self.now.count self.now.ids) id }
    {
        if id >= 128 || self.count >= 128 {
            return false;
        }
        !has(&self.ids[..self.count], id)
    }

    // These, and one more.
    fn with(mut self, id: u64) -> Option<Ids>
        ensures more { IfSome result (λ r. take r.count r.ids
            ≡ take self.count self.ids ++ id ∷ []) }
        ensures some { is_some result ≡ may_follow (take self.count self.ids) id }
    {
        if !self.may_follow(id) {
            return None;
        }
        self.ids[self.count] = id as u8;
        self.count += 1;
        Some(self)
    }
}

/// The ids that a text lists.
pub(crate) fn ids_of(text: &[u8]) -> Option<Ids>
    ensures { option_map (λ r. take r.count r.ids) result ≡ ids_in text.now }
{
    let mut ids = Ids::none();
    if text.is_empty() {
        return Some(ids);
    }
    let mut rest = Some(text);
    while let Some(fields) = rest {
        let first = first_field(fields);
        ids = ids.with(number(first.field)?)?;
        rest = first.rest;
    }
    Some(ids)
}
