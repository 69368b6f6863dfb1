//! The versions of documents, and what has come with each. The definitions have the same numbers as words,
//! in `specs/Versions.antt`.

/// The first version.
pub const FIRST_VERSION: u64 = 1;

/// The first version in which a queue may begin with packets.
pub const INITIAL_VERSION: u64 = 2;

/// The first version in which a source may be fair.
pub const FAIR_VERSION: u64 = 3;

/// The newest version.
pub const NEWEST_VERSION: u64 = 3;
