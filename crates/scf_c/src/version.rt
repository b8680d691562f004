//! The version of the library.

ghost use Rattle.std.specs.Prelude.{◌≡◌};

/// The version: 0x010203 is 1.2.3.
#[unsafe(no_mangle)]
pub extern "C" fn scf_version() -> u32
    ensures { result ≡ 0x000100 }
{
    0x000100
}
