//! Suites for turns, snapshots and workers, and the ring that workers work on.

mod ring;
mod snapshots;
mod turns;
mod workers;
