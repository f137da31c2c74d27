//! The version of the library.

ghost use Rattle.std.specs.Prelude.{◌≡◌};

/// Returns the version of the library as a number: 10,000 times the major number, plus 100 times the minor number, plus
/// the patch number. For 0.3.0 it is 300.
#[unsafe(no_mangle)]
pub extern "C" fn bactool_version() -> u32
    ensures { result ≡ 300 }
{
    300
}
