//! What holds of all picks.
ghost use Rattle.std.specs.Prelude.{ℕ, Bool, List, Option};
ghost use Rattle.vx_take.specs.Laws.{AreRankedBack, EachIsOneRank, IsLookedUp, IsTakeAtTheSet, IsTakeOfFilter, JustSetAreSet, SetAscends, TakesJoin};

/// A filter is a take at the set positions, which ascend and have no null.
pub fn filter_take_law<T>()
    ensures ascend { (bits : List Bool) → SetAscends bits }
    ensures items { (bits : List Bool) (items : List T) → IsTakeAtTheSet bits items }
{}

/// A take of a take is one take, at the later picks looked up in the earlier ones.
pub fn takes_law<T>()
    ensures { (items : List T) (picks later : List (Option ℕ)) → TakesJoin items picks later }
{}

/// A take of a filter is a take at the set positions that its ranks name.
pub fn translated_law<T>()
    ensures { (bits : List Bool) (items : List T) (ranks : List (Option ℕ))
        → IsTakeOfFilter bits items ranks }
{}

/// Where the set positions are just the picks, each position among them is that of exactly one
/// rank, and a take at the picks is a take of the filter at these ranks, which name the picks.
pub fn needed_law<T>()
    ensures each { (bits : List Bool) (picks : List (Option ℕ)) → JustSetAreSet bits picks }
    ensures one_rank { (bits : List Bool) (picks : List (Option ℕ)) → EachIsOneRank bits picks }
    ensures looked_up { (bits : List Bool) (items : List T) (picks : List (Option ℕ))
        → IsLookedUp bits items picks }
    ensures ranked_back { (bits : List Bool) (picks : List (Option ℕ)) → AreRankedBack bits picks }
{}
