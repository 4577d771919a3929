//! Tests of places.
ghost use Rattle.std.specs.Prelude.{◌≡◌, ◌≤◌, ℕ, nat_lt};
ghost use Rattle.std.specs.List.{list_all};

/// Returns whether all places are below the length. Each is looked at, so that no branch waits for
/// one.
pub fn are_all_below(places: &[u64], len: u64) -> bool
    ensures { result ≡ list_all (λ p. nat_lt p len) places.now }
{
    let mut are_below = true;
    for place in places {
        are_below = are_below & (*place < len);
    }
    are_below
}

/// Returns the greater of two numbers.
pub fn greater(a: u64, b: u64) -> u64
    ensures first { a ≤ result }
    ensures second { b ≤ result }
    ensures least { (n : ℕ) → a ≤ n → b ≤ n → result ≤ n }
{
    if a < b { b } else { a }
}
