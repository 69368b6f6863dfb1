//! The limits of a tape. The definitions have the same numbers as words, in `specs/Sizes.antt`.

/// The most cycles of a run.
pub const MOST_CYCLES: u32 = 10_000_000;

/// The greatest product of cycles and channels.
pub const MOST_CYCLES_BY_CHANNELS: u32 = 64_000_000;
