//! Calls of C: the version.
ghost use Rattle.std.specs.Prelude.{◌≡◌};

/// The version of the library: its first number times 10,000, its second times 100, and its third.
#[unsafe(no_mangle)]
pub extern "C" fn gwb_version() -> u32
    ensures { result ≡ 30000 }
{
    30000
}
