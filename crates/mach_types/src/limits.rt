//! Limits of the kernel.

/// The most tasks that a kernel ever makes: 65,536.
pub const MOST_TASKS: usize = 65_536;

/// The most names that one task has in use: 65,535.
pub const MOST_NAMES: usize = 65_535;

/// The most user references under one name: 65,535 (Port Manipulation Interface,
/// `mach_port_mod_refs`).
pub const MOST_REFERENCES: u32 = 65_535;

/// The most rights that a kernel has in all, each user reference of a send right counted: 4,294,967,295.
pub const MOST_RIGHTS: u32 = 4_294_967_295;

/// The greatest queue limit of a port: 16 messages (Port Manipulation Interface,
/// `mach_port_set_qlimit`).
pub const GREATEST_LIMIT: u32 = 16;

/// The queue limit of a port that was just made: 5 messages.
pub const FIRST_LIMIT: u32 = 5;

/// The most bytes of one message, header and body: 65,536.
pub const MOST_BYTES: usize = 65_536;
