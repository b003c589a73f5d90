//! Numbers that these calls answer by themselves.

/// The call did what it is for.
pub const DONE: u32 = 0;

/// The channel was destroyed.
pub const CLOSED: u32 = 1;

/// Want of memory.
pub const NO_MEMORY: u32 = 2;

/// There was nothing to do.
pub const NOTHING: u32 = 3;

/// The text of resolv.conf is above its limit.
pub const LARGE_RESOLV: u32 = 7;

/// The text of the hosts file is above its limit.
pub const LARGE_HOSTS: u32 = 8;

/// There is no channel in the word.
pub const NO_CHANNEL: u32 = 10;

/// There is a channel in the word already.
pub const HAS_CHANNEL: u32 = 11;

/// A pointer is null.
pub const NULL: u32 = 12;
