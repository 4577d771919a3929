//! Zeros for the rows of nulls.
ghost use Rattle.std.specs.Prelude.{◌≡◌, ◌*◌, ◌<◌, ◌≤◌, IfErr, IfOk, None, Some, length};
ghost use Rattle.vx_chunk_plan.specs.Faults.{nulls_fault};
ghost use Rattle.vx_chunk_plan.specs.Filled.{NullsAreDone};
ghost use Rattle.vx_chunk_plan.specs.Scattered.{AreNulled};

use crate::chunk::{has_rows, is_width};
use crate::copies::clear_row;
use crate::fault::Fault;
use crate::picks::has_valid;
use vx_arrow_image::is_there;

// Which rule is broken first.
fn nulls_fault(valid: &[u8], count: usize, width: u64, out: usize) -> Option<Fault>
    ensures { result ≡ nulls_fault valid.now count width out }
{
    if !is_width(width) {
        return Some(Fault::Width);
    }
    if !has_valid(valid, count) {
        return Some(Fault::Valid);
    }
    if !has_rows(out, width, count) {
        return Some(Fault::Output);
    }
    None
}

// Writes zeros over each null's row.
fn clear(valid: &[u8], count: usize, width: usize, out: &mut [u8])
    requires some { 0 < width }
    requires room { count * width ≤ length out.old }
    ensures { AreNulled width valid.now count out.old out.new }
{
    // Without bits none is null.
    if valid.is_empty() {
        return;
    }
    for j in 0..count {
        if !is_there(valid, j) {
            clear_row(out, j, width);
        }
    }
}

/// Writes zeros to the row of each null among `count` picks. All other bytes of `out` stay as they
/// are.
///
/// Fails with `Width`, `Valid` or `Output`, the first that applies, and then writes nothing.
pub fn fill_nulls(valid: &[u8], count: usize, width: u64, out: &mut [u8]) -> Result<(), Fault>
    ensures nulled { IfOk result (λ _. AreNulled width valid.now count out.old out.new) }
    ensures done { IfOk result (λ _. NullsAreDone width valid.now count out.old out.new) }
    ensures sound { IfOk result (λ _. nulls_fault valid.now count width (length out.old)
        ≡ None) }
    ensures refused { IfErr result (λ fault. nulls_fault valid.now count width (length out.old)
        ≡ Some fault) }
    ensures kept { IfErr result (λ _. out.new ≡ out.old) }
{
    if let Some(fault) = nulls_fault(valid, count, width, out.len()) {
        return Err(fault);
    }
    clear(valid, count, width as usize, out);
    Ok(())
}
