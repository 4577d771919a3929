//! What the chunks of a plan are beside those that a decoder is asked for.
#![tactic(auto)]

ghost use Rattle.vx_chunk_plan.specs.Picks.{picks_of};
ghost use Rattle.vx_chunk_laws.specs.Told.{AreAsked};

/// Of chunks of 1024 rows those that a plan has read are those that the picks ask a chunk
/// decoder for, in this order (`select_chunked`).
pub fn told_are_asked(places: &[u64], valid: &[u8])
    ensures { AreAsked (picks_of places.now valid.now) }
{
    // Only the contract speaks of them.
    let _ = places;
    let _ = valid;
}
