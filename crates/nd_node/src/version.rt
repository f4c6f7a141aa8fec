//! The version of the library and of the tool.

/// The version as a text: the major number, the minor number and the patch. `ndpctl --version` prints it.
pub const VERSION: &str = "0.1.0";

/// The same as a number: the major number, the minor number in eight bits, and the patch in eight bits. `nd_version` returns it.
pub const VERSION_NUMBER: u32 = 1 << 8;
