//! The version of the library.
ghost use Rattle.std.specs.Prelude.{◌≡◌};

/// The version that runs: 65,536 times its first number, 256 times its second, and its third. A program compares it with that of the header that it was made
/// with.
#[unsafe(no_mangle)]
pub extern "C" fn jatshegi_version() -> u32
    ensures { result ≡ 512 }
{
    0x0000_0200
}
