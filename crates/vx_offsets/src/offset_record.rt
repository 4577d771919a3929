//! Records that an offset is written in.
ghost use Rattle.std.specs.Prelude.{◌≡◌, ◌<◌};

/// A record of some width that an offset is written in.
pub trait OffsetRecord: Copy {
    ghost use Rattle.std.specs.Prelude.{ℕ};

    // the record of an offset
    ghost spelled: { ℕ → Self };

    // the offset of a record
    ghost read: { Self → ℕ };

    // what each offset is below
    ghost limit: { ℕ };

    /// The record of an offset that fits.
    fn written(offset: u64) -> Self
        requires { offset < limit }
        ensures record { result ≡ spelled offset }
        ensures back { read result ≡ offset };
}

impl OffsetRecord for [u8; 8] {
    ghost use Rattle.std.specs.Int.{from_le_bytes, to_le_bytes, w64};
    ghost use Rattle.std.specs.Prelude.{◌^◌};

    ghost spelled = { to_le_bytes w64 };

    ghost read = { from_le_bytes w64 };

    ghost limit = { 2 ^ 64 };

    #[inline(always)]
    fn written(offset: u64) -> [u8; 8] {
        offset.to_le_bytes()
    }
}

impl OffsetRecord for [u8; 4] {
    ghost use Rattle.std.specs.Int.{from_le_bytes, to_le_bytes, w32};
    ghost use Rattle.std.specs.Prelude.{◌^◌};

    ghost spelled = { to_le_bytes w32 };

    ghost read = { from_le_bytes w32 };

    ghost limit = { 2 ^ 32 };

    #[inline(always)]
    fn written(offset: u64) -> [u8; 4] {
        (offset as u32).to_le_bytes()
    }
}

impl OffsetRecord for [u8; 2] {
    ghost use Rattle.std.specs.Int.{from_le_bytes, to_le_bytes, w16};
    ghost use Rattle.std.specs.Prelude.{◌^◌};

    ghost spelled = { to_le_bytes w16 };

    ghost read = { from_le_bytes w16 };

    ghost limit = { 2 ^ 16 };

    #[inline(always)]
    fn written(offset: u64) -> [u8; 2] {
        (offset as u16).to_le_bytes()
    }
}

impl OffsetRecord for [u8; 1] {
    ghost use Rattle.std.specs.Int.{from_le_bytes, to_le_bytes, w8};
    ghost use Rattle.std.specs.Prelude.{◌^◌};

    ghost spelled = { to_le_bytes w8 };

    ghost read = { from_le_bytes w8 };

    ghost limit = { 2 ^ 8 };

    #[inline(always)]
    fn written(offset: u64) -> [u8; 1] {
        (offset as u8).to_le_bytes()
    }
}
