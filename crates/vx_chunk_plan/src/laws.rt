//! What outputs come to that are filled chunk by chunk: the contract of a function that does
//! nothing.
ghost use Rattle.vx_chunk_plan.specs.Filled.{AllIsAnswer, NoneIsDone};

/// An output in which nulls are filled and chunks are scattered, in any order, and any of them
/// again, is the rows at the picks as soon as all are done.
///
/// At first nothing is done (`none`). Each call of `scatter` and `fill_nulls` adds to what is done
/// (their clauses `done`). Where each chunk in which a pick lies is done, and the nulls are, if
/// there are some, the output is the rows at the picks, and zeros at each null (`all`).
pub fn filled(places: &[u64], valid: &[u8], chunk_len: u64, width: u64, out: &[u8])
    ensures none { NoneIsDone width chunk_len places.now valid.now out.now }
    ensures all { AllIsAnswer width chunk_len places.now valid.now out.now }
{
    // Only the contract speaks of them.
    let _ = places;
    let _ = valid;
    let _ = chunk_len;
    let _ = width;
    let _ = out;
}
