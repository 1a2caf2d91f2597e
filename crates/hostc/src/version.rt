//! Which version of the library this is.

ghost use Rattle.std.specs.Prelude.{◌≡◌};
ghost use Rattle.hostc.specs.declared.version.TheConstants.{VERSION};

/// The version of the library, as the file `VERSION` has it: 65,536 for the first part of it, 256 for the second and 1 for the third.
pub const VERSION: u32 = 0x00_03_00;

/// The version of the library, for a program that was made with another header.
#[unsafe(no_mangle)]
pub extern "C" fn host_version() -> u32
    ensures { result ≡ VERSION }
{
    VERSION
}
