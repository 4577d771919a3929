//! What the calls over lists of the caller's answer.
ghost use Rattle.std.specs.Prelude.{◌≡◌};

use vx_words::Answer;

/// A slice begins past its end, or ends past the rows.
pub const RANGE: u64 = 5;

/// The bounds of parts don't begin at 0 and ascend.
pub const BOUNDS: u64 = 6;

/// The parts have more rows than 64 bits count.
pub const TOO_MANY: u64 = 7;

/// A status that tells no number.
pub(crate) fn untold(status: u64) -> Answer
    ensures status { result.status ≡ status }
    ensures value { result.value ≡ 0 }
{
    Answer { status, value: 0 }
}
