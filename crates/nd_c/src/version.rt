//! The version of the library.

ghost use Rattle.std.specs.Prelude.{◌≡◌};

use nd_node::VERSION_NUMBER;

/// Returns the version of the library, in the form of ND_VERSION.
#[unsafe(no_mangle)]
pub extern "C" fn nd_version() -> u32
    ensures { result ≡ 256 }
{
    VERSION_NUMBER
}
