//! What each call returns.
ghost use Rattle.std.specs.Prelude.{◌≡◌};
ghost use Rattle.vortex_chunks_c.specs.Answer.{call_answer, fault_answer, fault_status, unit_answer};

use vx_chunk_plan::Fault;

/// A status, which is 0 where the call was done, and a number: a count, or the entry of a list.
#[repr(C)]
#[derive(Clone, Copy)]
pub struct Answer {
    pub status: u64,
    pub value: u64,
}

// The status of a fault.
fn status_of(fault: Fault) -> u64
    ensures { result ≡ fault_status fault }
{
    match fault {
        Fault::Width => 1,
        Fault::ChunkLen => 2,
        Fault::Starts => 3,
        Fault::Order => 4,
        Fault::Valid => 5,
        Fault::Place(_) => 6,
        Fault::Chunk => 7,
        Fault::Bytes => 8,
        Fault::Output => 9,
        Fault::Stray(_) => 10,
    }
}

impl Answer {
    // Why a call fails.
    fn failed(fault: Fault) -> Answer
        ensures { result ≡ fault_answer fault }
    {
        let value = match fault {
            Fault::Place(j) => j,
            Fault::Stray(i) => i,
            _ => 0,
        };
        Answer {
            status: status_of(fault),
            value,
        }
    }

    /// What a call returns that counts.
    pub(crate) fn of(outcome: Result<u64, Fault>) -> Answer
        ensures { result ≡ call_answer outcome }
    {
        match outcome {
            Ok(value) => Answer { status: 0, value },
            Err(fault) => Answer::failed(fault),
        }
    }

    /// What a call returns that counts nothing.
    pub(crate) fn of_unit(outcome: Result<(), Fault>) -> Answer
        ensures { result ≡ unit_answer outcome }
    {
        match outcome {
            Ok(()) => Answer {
                status: 0,
                value: 0,
            },
            Err(fault) => Answer::failed(fault),
        }
    }
}
