//! A status and a number, and the answer to a text that was made.
ghost use Rattle.std.specs.Prelude.{◌≡◌, ◌≢◌, ◌⊎◌, ◌<◌, ◌≤◌, length};
ghost use Rattle.vortex_rows_c.specs.Running.{IsPut, IsTooLong};

/// What a call answers.
#[repr(C)]
#[derive(Clone, Copy, Debug, PartialEq, Eq)]
pub struct Answer {
    /// The program's status, or 16.
    pub status: u64,
    /// How many bytes the text has, at status 0, 1 and 16.
    pub value: u64,
}

/// The status when memory runs out.
const NO_MEMORY: u64 = 6;

/// The status where the words aren't text.
const NO_WORDS: u64 = 9;

/// The status where the output is too small for the text.
const TOO_SMALL: u64 = 16;

impl Answer {
    /// No text, for the words aren't text.
    pub(crate) fn no_words() -> Answer
        ensures { result ≡ record { status = 9; value = 0 } }
    {
        Answer {
            status: NO_WORDS,
            value: 0,
        }
    }

    /// No text, for `NoMemory`.
    pub(crate) fn no_memory() -> Answer
        ensures { result ≡ record { status = 6; value = 0 } }
    {
        Answer {
            status: NO_MEMORY,
            value: 0,
        }
    }
}

// Puts a text to the front of the output, where it has the room, and answers this status.
fn put(status: u64, text: &[u8], dst: &mut [u8]) -> Answer
    ensures fits { length text.now ≤ length dst.old → result.status ≡ status }
    ensures put { length text.now ≤ length dst.old
        → IsPut text.now dst.old dst.new result.value }
    ensures small { length dst.old < length text.now → result.status ≡ 16 }
    ensures wanted { length dst.old < length text.now → IsTooLong text.now dst.old result.value }
    ensures refused { length dst.old < length text.now → dst.new ≡ dst.old }
{
    let len = text.len();
    if len > dst.len() {
        return Answer {
            status: TOO_SMALL,
            value: len as u64,
        };
    }
    dst[..len].copy_from_slice(text);
    Answer {
        status,
        value: len as u64,
    }
}

/// The answer to a run that ended with a status and made a text. The sink fails only when memory
/// runs out, and the source never.
pub(crate) fn answer_to(status: u8, text: &[u8], dst: &mut [u8]) -> Answer
    ensures fits { status ≤ 1 → length text.now ≤ length dst.old → result.status ≡ status }
    ensures put { status ≤ 1 → length text.now ≤ length dst.old
        → IsPut text.now dst.old dst.new result.value }
    ensures small { status ≤ 1 → length dst.old < length text.now → result.status ≡ 16 }
    ensures wanted { status ≤ 1 → length dst.old < length text.now
        → IsTooLong text.now dst.old result.value }
    ensures too_small { status ≤ 1 → length dst.old < length text.now → dst.new ≡ dst.old }
    ensures told { (status ≡ 2) ⊎ (status ≡ 3) ⊎ (status ≡ 7) → result.status ≡ status }
    ensures other { 1 < status → status ≢ 2 → status ≢ 3 → status ≢ 7 → result.status ≡ 6 }
    ensures untold { 1 < status → result.value ≡ 0 }
    ensures refused { 1 < status → dst.new ≡ dst.old }
{
    match status {
        0 | 1 => put(u64::from(status), text, dst),
        2 | 3 | 7 => Answer {
            status: u64::from(status),
            value: 0,
        },
        _ => Answer::no_memory(),
    }
}
