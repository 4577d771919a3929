//! Calls of a decoder and bits, in the rest of a line.
ghost use Rattle.std.specs.Prelude.{◌≡◌, if◌then◌else◌, IfOk, map, string_bytes};

use std::alloc::Global;
use std::test::Fail;
use vx_bits::{BitBuffer, NoMemory};
use vx_decoder::Call;

/// Prints the calls, and the end of the line.
pub fn print_calls(rt: &impl Print, calls: &[Call]) -> Result<(), Fail> {
    rt.print(", calls:")?;
    for call in calls {
        match call {
            Call::Whole { chunk } => print!(rt; " Whole({chunk})")?,
            Call::Only { chunk, count } => print!(rt; " Only({chunk},{count})")?,
        }
    }
    rt.println("")?;
    Ok(())
}

/// The bits, as a text of `0` and `1`.
pub fn text_of(alloc: Global, bits: &BitBuffer) -> Result<String, NoMemory>
    ensures { IfOk result (λ t. string_bytes t ≡ map (λ b. if b then 49 else 48) bits.now.bits) }
{
    let mut text = String::new(alloc);
    for i in 0..bits.len() {
        text.push(if bits.value(i) { '1' } else { '0' })?;
    }
    Ok(text)
}
