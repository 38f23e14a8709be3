//! The versions of the format.

/// The first version. It has what the second one has, but no tag for `disable` and `enable`.
pub const FIRST_VERSION: u16 = 1;

/// The second version. It has no tag for `pressure` and `relief`, and no bit for `mem_reclaim`.
pub const SECOND_VERSION: u16 = 2;

/// The third version. It has no tag for `until`, `wait` and `quiet`, nor for bodies that delay, mod or cancel works.
pub const THIRD_VERSION: u16 = 3;

/// The version that is written. It has a tag for each operation and instruction and a bit for each flag.
pub const VERSION: u16 = 4;
