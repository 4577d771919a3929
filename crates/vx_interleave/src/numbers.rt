//! Offsets, sizes and places, one more at a time.
ghost use Rattle.std.specs.Prelude.{◌≡◌, ◌<◌, ◌^◌, OnOk};
ghost use Rattle.vx_text.specs.OffsetList.{with_offset};

use vx_bits::NoMemory;
use vx_text::Offsets;

/// Appends a number. `NoMemory` too where it passes `isize::MAX`.
pub(crate) fn push_number(numbers: &mut Offsets, number: usize) -> Result<(), NoMemory>
    ensures small { OnOk result (number < 2 ^ 63) }
    ensures numbers { OnOk result (numbers.new ≡ with_offset numbers.old number) }
{
    if number > isize::MAX as usize {
        return Err(NoMemory);
    }
    numbers.push(number)
}
