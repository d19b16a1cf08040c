//! The limits of what is accepted.

/// The most bytes that a script may have.
pub const MAX_SCRIPT: usize = 1_048_576;

/// How deep things may nest.
pub const MAX_NESTING: u32 = 64;

/// The most commands that a script may have.
pub const MAX_COMMANDS: u32 = 65_535;

/// The most names, with those of the policy and of the start.
pub const MAX_NAMES: usize = 4_096;
