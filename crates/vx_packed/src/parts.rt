//! Bytes of chunks that follow each other.
ghost use Rattle.std.specs.Prelude.{◌≡◌, ◌+◌, ◌*◌, ◌<◌, ◌≤◌, None, Some, true, length, take, IfErr, IfOk, IsOk, MatchResult, OnOk};
ghost use Rattle.vx_packed.specs.Chunk.{ArePacked, IsPacked};
ghost use Rattle.vx_packed.specs.Faults.{is_width};
ghost use Rattle.vx_packed.specs.Parts.{all_numbers, first_bad, front_len, parts_of};

use crate::fault::PackedError;
use crate::reading::offsets_of;

/// The bytes up to where the first one says that the chunk ends, or all.
pub(crate) fn front_of(bytes: &[u8]) -> &[u8]
    requires { 0 < length bytes.now }
    ensures { result.now ≡ take (front_len bytes.now) bytes.now }
{
    let len = 9 + 128 * bytes[0] as usize;
    if bytes.len() < len {
        return bytes;
    }
    &bytes[..len]
}

/// How many chunks the bytes have, or the first part that is none.
pub(crate) fn count_chunks(bytes: &[u8], width: usize) -> Result<usize, PackedError>
    requires { is_width width ≡ true }
    ensures count { IfOk result (λ n. n ≡ length (parts_of bytes.now)) }
    ensures bad { MatchResult result (λ _. first_bad width 0 (parts_of bytes.now) ≡ None)
        (λ e. first_bad width 0 (parts_of bytes.now) ≡ Some e) }
    ensures each { IsPacked width bytes.now → IsOk result }
    ensures packed { OnOk result (ArePacked width (all_numbers (parts_of bytes.now)) bytes.now) }
{
    let mut offsets = [0; 1024];
    let mut start = 0;
    let mut count = 0;
    while start < bytes.len() {
        let part = front_of(&bytes[start..]);
        if let Err(fault) = offsets_of(part, width, &mut offsets) {
            let chunk = count;
            return Err(PackedError::Bad { chunk, fault });
        }
        start += part.len();
        count += 1;
    }
    Ok(count)
}
