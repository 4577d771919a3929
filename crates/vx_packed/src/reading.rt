//! Reading a chunk.
ghost use Rattle.std.specs.Prelude.{◌≡◌, ◌+◌, ◌*◌, ◌<◌, ◌≤◌, ◌^◌, None, Some, true, length, drop, slice_index, IsOk, MatchResult, OnErr, OnOk, IfOk};
ghost use Rattle.vx_packed.specs.Chunk.{IsChunk, IsSpelling, spell};
ghost use Rattle.vx_packed.specs.Faults.{base_in, chunk_fault, digits_in, field, is_width, numbers_in, offsets_in};

use crate::extremes::{digits_of, greatest_of, least_of, put_added};
use crate::fault::PackedFault;
use crate::words::{field_from, unpack};
use vx_bits::eight_bytes;

// The bytes before the offsets: how many digits, and the base.
const HEAD: usize = 9;

/// Writes the numbers of which the bytes are the spelling to `dst`.
///
/// `width` is how many bytes a number has. An error is the first rule that the bytes break, and
/// leaves `dst` as it was.
pub fn read_chunk(bytes: &[u8], width: usize, dst: &mut [u64; 1024]) -> Result<(), PackedFault>
    requires { is_width width ≡ true }
    ensures spelled { OnOk result (bytes.now ≡ spell dst.new) }
    ensures chunk { OnOk result (IsChunk width dst.new) }
    ensures numbers { OnOk result (dst.new ≡ numbers_in bytes.now) }
    ensures fault { MatchResult result (λ _. chunk_fault width bytes.now ≡ None)
        (λ e. chunk_fault width bytes.now ≡ Some e) }
    ensures same { OnErr result (dst.new ≡ dst.old) }
    ensures each { IsSpelling width bytes.now → IsOk result }
{
    let mut offsets = [0; 1024];
    let base = offsets_of(bytes, width, &mut offsets)?;
    put_added(&offsets, base, dst);
    Ok(())
}

/// Writes the offsets, and gives the base, or the first rule that the bytes break.
pub(crate) fn offsets_of(
    bytes: &[u8],
    width: usize,
    offsets: &mut [u64; 1024],
) -> Result<u64, PackedFault>
    requires { is_width width ≡ true }
    ensures fault { MatchResult result (λ _. chunk_fault width bytes.now ≡ None)
        (λ e. chunk_fault width bytes.now ≡ Some e) }
    ensures base { IfOk result (λ base. base ≡ base_in bytes.now) }
    ensures offsets { OnOk result (offsets.new ≡ offsets_in bytes.now) }
{
    if bytes.len() < HEAD {
        return Err(PackedFault::Short);
    }
    let digits = bytes[0];
    if digits as usize > 8 * width {
        return Err(PackedFault::Width);
    }
    let len = HEAD + 128 * digits as usize;
    if bytes.len() < len {
        return Err(PackedFault::Short);
    }
    if bytes.len() > len {
        return Err(PackedFault::Long);
    }
    let base = base_of(bytes);
    unpack(&bytes[HEAD..], digits as u32, offsets);
    if least_of(offsets) != 0 {
        return Err(PackedFault::Base);
    }
    let high = greatest_of(offsets);
    if digits_of(high) != digits as u32 {
        return Err(PackedFault::Slack);
    }
    let most = u64::MAX >> (64 - 8 * width);
    if base > most || high > most - base {
        return Err(PackedFault::TooBig);
    }
    Ok(base)
}

// The base that the bytes state.
fn base_of(bytes: &[u8]) -> u64
    requires { 9 ≤ length bytes.now }
    ensures { result ≡ base_in bytes.now }
{
    eight_bytes(bytes, 1)
}

// The base, and offset `j` added to it.
fn number_at(bytes: &[u8], j: usize) -> u64
    requires within { j < 1024 }
    requires whole { length bytes.now ≡ 9 + 128 * digits_in bytes.now }
    requires most { digits_in bytes.now ≤ 64 }
    requires fits { base_in bytes.now + field (drop 9 bytes.now) (digits_in bytes.now) j < 2 ^ 64 }
    ensures { result ≡ base_in bytes.now + field (drop 9 bytes.now) (digits_in bytes.now) j }
{
    let digits = bytes[0];
    base_of(bytes) + field_from(&bytes[HEAD..], j * digits as usize, digits as u32)
}

/// Number `j` of the chunk, read alone.
#[inline(always)]
pub(crate) fn read_one(bytes: &[u8], j: usize) -> u64
    requires within { j < 1024 }
    requires spelled { IsSpelling 8 bytes.now }
    ensures { result ≡ slice_index (numbers_in bytes.now) j }
{
    number_at(bytes, j)
}
