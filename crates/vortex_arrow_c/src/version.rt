//! Which version of the library this is.
ghost use Rattle.std.specs.Prelude.{◌≡◌};

/// Returns the version of the library: a million times the major number, a thousand times the
/// minor one, and the patch number. It is 0.1.0.
#[unsafe(no_mangle)]
pub extern "C" fn vortex_arrow_library_version() -> u32
    ensures { result ≡ 1000 }
{
    1_000
}
