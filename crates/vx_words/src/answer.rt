//! What each call answers.
ghost use Rattle.std.specs.Prelude.{◌≡◌, ◌≢◌};

/// The call was done.
pub const DONE: u64 = 0;

/// Two lengths disagree.
pub const LENGTHS: u64 = 1;

/// A bit past the length is set.
pub const BITS_PAST: u64 = 2;

/// The output is too small.
pub const ROOM: u64 = 3;

/// An index is out of bounds.
pub const INDEX: u64 = 4;

/// A status, which is 0 where the call was done, and a number.
#[repr(C)]
#[derive(Clone, Copy)]
pub struct Answer {
    /// 0 where the call was done, else why not.
    pub status: u64,
    /// The number that goes with the status.
    pub value: u64,
}

impl Answer {
    /// A refusal that tells no number.
    pub(crate) fn refused(status: u64) -> Answer
        ensures status { result.status ≡ status }
        ensures value { result.value ≡ 0 }
    {
        Answer { status, value: 0 }
    }

    /// A refusal that tells what the output has to hold, where it is too small, and else no number.
    pub(crate) fn refused_for(status: u64, wanted: u64) -> Answer
        ensures status { result.status ≡ status }
        ensures room { status ≡ 3 → result.value ≡ wanted }
        ensures untold { status ≢ 3 → result.value ≡ 0 }
    {
        let value = if status == ROOM { wanted } else { 0 };
        Answer { status, value }
    }
}
