//! What the board answers.

/// What there is to do.
pub enum Take<J> {
    Job(J),
    /// Nothing before this part comes in, the least of those that are out.
    NotYet(u32),
    /// Every part is at the target.
    Finished,
    /// A caller met want of memory.
    Stopped,
}

/// Whether a job that comes in counted.
#[derive(Clone, Copy, PartialEq, Eq, Debug)]
pub enum Posted {
    Taken,
    /// The job was recalled, and nothing changed.
    Stale,
}
