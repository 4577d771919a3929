//! Delivering a reply to a sink.
ghost use Rattle.std.specs.Prelude.{◌≡◌, ◌≢◌, ◌≤◌, ℕ, take, None, IfSome, IsSomeAnd};
ghost use Rattle.vx_io.specs.Bytes.{Rose, with_back};
ghost use Rattle.vx_rows.specs.Reply.{text_of_reply, status_of_reply, traced_by_reply};

use crate::reply::Reply;
use crate::status::{BROKEN, DONE, MALFORMED, NO_MEMORY, SINK_FAULT};
use crate::trace::Trace;
use vx_io::{Sink, deliver};
use vx_steps::{FAULT_ROOM, fault_line};

/// Writes what a reply prints, if it prints anything, and answers the status. What was asked for it
/// is kept before the first write. A reply that prints nothing leaves the sink as it was.
pub(crate) fn deliver_reply<K: Sink>(sink: &mut K, trace: &mut Trace, reply: Reply) -> u8
    ensures status { result ≢ 5 → result ≡ status_of_reply reply }
    ensures traced { trace.new ≡ traced_by_reply reply trace.old }
    ensures written { result ≢ 5 → IfSome (text_of_reply reply)
        (λ text. K.held sink.new ≡ with_back (K.held sink.old) text) }
    ensures finished { result ≢ 5 → IfSome (text_of_reply reply)
        (λ _. IfSome (K.held sink.old) (λ _. K.pending sink.new ≡ 0)) }
    ensures no_fault { result ≢ 5 → K.faults sink.new ≡ K.faults sink.old }
    ensures quiet { text_of_reply reply ≡ None → sink.new ≡ sink.old }

    ensures fault { result ≡ 5 → Rose (K.faults sink.old) (K.faults sink.new) }
    ensures part { result ≡ 5 → IsSomeAnd (text_of_reply reply)
        (λ text. (n : ℕ) × (K.held sink.new ≡ with_back (K.held sink.old) (take n text))) }
    ensures never_falls { K.faults sink.old ≤ K.faults sink.new }
{
    match reply {
        Reply::Done { text, asked } => {
            trace.keep(asked);
            match deliver(sink, &text) {
                Ok(()) => DONE,
                Err(_) => SINK_FAULT,
            }
        }
        Reply::Broken { step, cause } => {
            let mut line = [0; FAULT_ROOM];
            let len = fault_line(step, &cause, &mut line);
            match deliver(sink, &line[..len]) {
                Ok(()) => BROKEN,
                Err(_) => SINK_FAULT,
            }
        }
        Reply::Malformed => MALFORMED,
        Reply::NoMemory => NO_MEMORY,
    }
}
