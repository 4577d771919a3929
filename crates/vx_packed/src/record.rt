//! Numbers as records.
ghost use Rattle.std.specs.Prelude.{◌≡◌, ◌≤◌};
ghost use Rattle.vx_packed.specs.Parts.{record_of};

/// A number as a little-endian record: its lowest `W` bytes.
#[inline(always)]
pub fn record_from<const W: usize>(n: u64) -> [u8; W]
    requires { W ≤ 8 }
    ensures { result ≡ record_of W n }
{
    let mut record = [0; W];
    record.copy_from_slice(&n.to_le_bytes()[..W]);
    record
}
