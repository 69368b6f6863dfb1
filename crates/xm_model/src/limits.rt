//! The limits of a net. The definitions have the same numbers as words, in `specs/Sizes.antt`.

/// The most primitives of a net.
pub const MOST_PRIMITIVES: u32 = 4096;

/// The most channels of a net.
pub const MOST_CHANNELS: u32 = 8192;

/// The most colours of a net.
pub const MOST_COLOURS: u32 = 64;

/// The most colours that a source may offer.
pub const MOST_SOURCE_COLOURS: u32 = 36;

/// The greatest capacity of a queue.
pub const MOST_CAPACITY: u32 = 4096;

/// The greatest sum of the capacities of all queues.
pub const MOST_CAPACITIES: u32 = 1_000_000;
