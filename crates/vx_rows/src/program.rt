//! All that the program does, over any source and sink.
ghost use Rattle.std.specs.Prelude.{◌≡◌, ◌≢◌, ◌↔◌, ◌⊎◌, ◌≤◌, ◌+◌, ℕ, [], take, map, string_bytes};
ghost use Rattle.std.specs.Prelude.{IfSome, Some, None};
ghost use Rattle.vx_io.specs.Bytes.{Rose, Loses, with_back};
ghost use Rattle.vx_rows.specs.Program.{TooLong, Malformed, made, program, IsDone, IsBroken};
ghost use Rattle.vx_rows.specs.Program.{IsPrinted, status_of, IfTold, HasRead, traced_by};
ghost use Rattle.vx_rows.specs.Commands.{command_of, HasRows, IfCommand, LeavesTrace, MayEnd};
ghost use Rattle.vx_rows.specs.Commands.{UnlessRead};
ghost use Rattle.vx_rows.specs.declared.command.Command.TheVariants.{Read};

use crate::command::{Command, Form, command_of};
use crate::delivery::deliver_reply;
use crate::made::reply_to_made;
use crate::reply::reply_to;
use crate::status::{NO_MEMORY, SOURCE_FAULT, TOO_LONG, WRONG_WORDS};
use crate::trace::Trace;
use std::alloc::Global;
use vx_io::{MAX_BYTES, Sink, Source, Stop, read_all};

// Reads a document of this form, and prints the rows that its steps pick, or its fault.
fn run_document<S: Source, K: Sink>(
    alloc: Global,
    form: Form,
    source: &mut S,
    sink: &mut K,
    trace: &mut Trace,
) -> u8
    requires { HasRows form }

    ensures known { result ≤ 7 }
    ensures other_words { result ≢ 3 }

    ensures done { result ≡ 0 → IfSome (S.rest source.old) (λ b. IsDone (program form b)
        (λ text. K.held sink.new ≡ with_back (K.held sink.old) text)) }
    ensures broken { result ≡ 1 → IfSome (S.rest source.old) (λ b. IsBroken (program form b)
        (λ line. K.held sink.new ≡ with_back (K.held sink.old) line)) }
    ensures finished { result ≤ 1 → IfSome (K.held sink.old) (λ _. K.pending sink.new ≡ 0) }
    ensures read { result ≤ 1 → IfSome (S.rest source.new) (λ left. left ≡ []) }

    ensures malformed { result ≡ 2 → IfSome (S.rest source.old) (λ b. program form b ≡ Malformed) }
    ensures source_fault { result ≡ 4 → Rose (S.faults source.old) (S.faults source.new) }
    ensures sink_fault { result ≡ 5 → Rose (K.faults sink.old) (K.faults sink.new) }
    ensures part { result ≡ 5 → IfSome (S.rest source.old) (λ b. IsPrinted (program form b)
        (λ text. (n : ℕ) × (K.held sink.new ≡ with_back (K.held sink.old) (take n text)))) }
    ensures too_long { result ≡ 7 → IfSome (S.rest source.old) (λ b. program form b ≡ TooLong) }
    ensures past { result ≡ 7 → Loses (S.rest source.old) (S.rest source.new) (MAX_BYTES + 1) }

    ensures source_fault_told { result ≢ 4 → S.faults source.new ≡ S.faults source.old }
    ensures sink_fault_told { result ≢ 5 → K.faults sink.new ≡ K.faults sink.old }

    ensures quiet { result ≢ 0 → result ≢ 1 → result ≢ 5 → sink.new ≡ sink.old }
    ensures traced { (result ≡ 0) ⊎ (result ≡ 5) → IfSome (S.rest source.old)
        (λ b. trace.new ≡ traced_by (program form b) trace.old) }
    ensures untraced { result ≢ 0 → result ≢ 5 → trace.new ≡ trace.old }
    ensures leaves { LeavesTrace (Some (Read form)) trace.old trace.new }
    ensures complete { ¬ Rose (S.faults source.old) (S.faults source.new)
        → ¬ Rose (K.faults sink.old) (K.faults sink.new)
        → (result ≡ 6) ⊎ IfSome (S.rest source.old) (λ b. result ≡ status_of (program form b)) }
{
    let bytes = match read_all(alloc, source) {
        Ok(bytes) => bytes,
        Err(Stop::Fault) => return SOURCE_FAULT,
        Err(Stop::TooLong) => return TOO_LONG,
        Err(Stop::NoMemory) => return NO_MEMORY,
    };
    deliver_reply(sink, trace, reply_to(alloc, form, bytes))
}

// Prints the line of the rows that a number makes.
fn run_made<K: Sink>(alloc: Global, seed: u32, sink: &mut K, trace: &mut Trace) -> u8
    ensures known { (result ≡ 0) ⊎ (result ≡ 5) ⊎ (result ≡ 6) }
    ensures done { result ≡ 0 → IsDone (made seed)
        (λ text. K.held sink.new ≡ with_back (K.held sink.old) text) }
    ensures finished { result ≡ 0 → IfSome (K.held sink.old) (λ _. K.pending sink.new ≡ 0) }
    ensures sink_fault { result ≡ 5 → Rose (K.faults sink.old) (K.faults sink.new) }
    ensures part { result ≡ 5 → IsPrinted (made seed)
        (λ text. (n : ℕ) × (K.held sink.new ≡ with_back (K.held sink.old) (take n text))) }
    ensures sink_fault_told { result ≢ 5 → K.faults sink.new ≡ K.faults sink.old }
    ensures quiet { result ≢ 0 → result ≢ 5 → sink.new ≡ sink.old }
    ensures traced { (result ≡ 0) ⊎ (result ≡ 5) → trace.new ≡ traced_by (made seed) trace.old }
    ensures untraced { result ≢ 0 → result ≢ 5 → trace.new ≡ trace.old }
    ensures leaves { trace.new ≡ trace.old }
    ensures complete { ¬ Rose (K.faults sink.old) (K.faults sink.new)
        → (result ≡ 6) ⊎ (result ≡ status_of (made seed)) }
{
    deliver_reply(sink, trace, reply_to_made(alloc, seed))
}

/// Does what the words ask, and answers the program's status. The words leave out the program's
/// own name.
///
/// | status | stands for |
/// |---|---|
/// | 0 | no step is broken; the whole text was written and finished |
/// | 1 | a step is broken; the fault's line was written and finished |
/// | 2 | the bytes spell no JSON value, or it has no meaning as a document |
/// | 3 | the words are others; nothing was read or written |
/// | 4 | the source failed; nothing was written |
/// | 5 | the sink failed; what was written is a prefix of the text |
/// | 6 | memory runs out, or the text would be too long; nothing was written |
/// | 7 | 16,777,217 bytes were taken; nothing was written |
///
/// The text would be too long where the rows of a column of text, of lists, of structs or of unions
/// would be printed as more than 2 GiB.
///
/// The whole text is made before the first write. Where the rows are behind a decoder, its calls
/// are the text's last line, and are left in `trace`, also where the sink fails. So are the blocks
/// that were read of a file; in `trace` the header's is the first. At every other status than 0 and
/// 5, and for every other document, `trace` is as it was.
pub fn run<S: Source, K: Sink>(
    alloc: Global,
    words: &[String],
    source: &mut S,
    sink: &mut K,
    trace: &mut Trace,
) -> u8
    ensures known { MayEnd (command_of (map string_bytes words.now)) result }
    ensures words { (result ≡ 3) ↔ (command_of (map string_bytes words.now) ≡ None) }
    ensures untouched { UnlessRead (command_of (map string_bytes words.now))
        (source.new ≡ source.old) }

    ensures done { result ≡ 0 → IfTold (map string_bytes words.now) (S.rest source.old)
        (λ o. IsDone o (λ text. K.held sink.new ≡ with_back (K.held sink.old) text)) }
    ensures broken { result ≡ 1 → IfTold (map string_bytes words.now) (S.rest source.old)
        (λ o. IsBroken o (λ line. K.held sink.new ≡ with_back (K.held sink.old) line)) }
    ensures finished { result ≤ 1 → IfSome (K.held sink.old) (λ _. K.pending sink.new ≡ 0) }
    ensures read { result ≤ 1 → IfCommand (command_of (map string_bytes words.now))
        (λ command. HasRead command (S.rest source.old) (S.rest source.new)) }

    ensures malformed { result ≡ 2 →
        IfTold (map string_bytes words.now) (S.rest source.old) (λ o. o ≡ Malformed) }
    ensures source_fault { result ≡ 4 → Rose (S.faults source.old) (S.faults source.new) }
    ensures sink_fault { result ≡ 5 → Rose (K.faults sink.old) (K.faults sink.new) }
    ensures part { result ≡ 5 → IfTold (map string_bytes words.now) (S.rest source.old)
        (λ o. IsPrinted o (λ text.
        (n : ℕ) × (K.held sink.new ≡ with_back (K.held sink.old) (take n text)))) }
    ensures too_long { result ≡ 7 →
        IfTold (map string_bytes words.now) (S.rest source.old) (λ o. o ≡ TooLong) }
    ensures past { result ≡ 7 → Loses (S.rest source.old) (S.rest source.new) (MAX_BYTES + 1) }

    // A fault is not forgotten.
    ensures source_fault_told { result ≢ 4 → S.faults source.new ≡ S.faults source.old }
    ensures sink_fault_told { result ≢ 5 → K.faults sink.new ≡ K.faults sink.old }

    // Nothing is written at any other status.
    ensures quiet { result ≢ 0 → result ≢ 1 → result ≢ 5 → sink.new ≡ sink.old }
    // The trace has the calls of a decoder where the rows are behind one, and the reads of a file
    // where they stand in one; else it is as it was.
    ensures traced { (result ≡ 0) ⊎ (result ≡ 5) →
        IfTold (map string_bytes words.now) (S.rest source.old)
        (λ o. trace.new ≡ traced_by o trace.old) }
    ensures untraced { result ≢ 0 → result ≢ 5 → trace.new ≡ trace.old }
    ensures leaves { LeavesTrace (command_of (map string_bytes words.now)) trace.old trace.new }
    // Where neither count of faults rose, the status is that of the bytes, or memory runs out.
    ensures complete { ¬ Rose (S.faults source.old) (S.faults source.new)
        → ¬ Rose (K.faults sink.old) (K.faults sink.new)
        → (result ≡ 3) ⊎ (result ≡ 6)
        ⊎ IfTold (map string_bytes words.now) (S.rest source.old) (λ o. result ≡ status_of o) }
{
    match command_of(words) {
        None => WRONG_WORDS,
        Some(Command::Read(form)) => run_document(alloc, form, source, sink, trace),
        Some(Command::Made(seed)) => run_made(alloc, seed, sink, trace),
    }
}
