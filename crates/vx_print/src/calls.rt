//! The line of the calls of a decoder.
ghost use Rattle.std.specs.Prelude.{◌≡◌, ◌++◌, IfOk, IsOk};
ghost use Rattle.vx_print.specs.Calls.{call_text, calls_text};

use crate::text::push_number;
use std::alloc::Global;
use vx_bits::NoMemory;
use vx_decoder::Call;

// Appends a blank and a call.
fn push_call(text: &mut Vec<u8>, call: Call) -> Result<(), NoMemory>
    ensures { IsOk result → text.new.items ≡ text.old.items ++ call_text call }
{
    match call {
        Call::Whole { chunk } => push_number(text, b" Whole(", chunk)?,
        Call::Only { chunk, count } => {
            push_number(text, b" Only(", chunk)?;
            push_number(text, b",", count)?;
        }
    }
    text.push(b')')?;
    Ok(())
}

// Appends the line of these calls.
fn push_calls(text: &mut Vec<u8>, calls: &[Call]) -> Result<(), NoMemory>
    ensures { IsOk result → text.new.items ≡ text.old.items ++ calls_text calls.now }
{
    text.extend_from_slice(b"calls:")?;
    for call in calls {
        push_call(text, *call)?;
    }
    text.push(b'\n')?;
    Ok(())
}

/// The line of a decoder's calls, in order: for each a blank, and its chunk and, where it asked for
/// some values alone, how many.
pub fn calls_line(alloc: Global, calls: &[Call]) -> Result<Vec<u8>, NoMemory>
    ensures { IfOk result (λ line. line.items ≡ calls_text calls.now) }
{
    let mut line = Vec::new(alloc);
    push_calls(&mut line, calls)?;
    Ok(line)
}
