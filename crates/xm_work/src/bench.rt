//! What workers ask of the value of a turn.
ghost use Rattle.std.specs.Prelude.{◌≡◌, ℕ, ◌≤◌, IfOk};
ghost use Rattle.xm_work.specs.Taking.{IfJob, IfFinished};

use xm_board::{Posted, Take};
use xm_model::OutOfMemory;
use xm_turn::Named;

/// A bench of jobs over a run: each takes one part one cycle on. A job and what it made name the run of their bench.
pub trait Bench: Named {
    type Job;

    type Done;

    type Snapshot: Send + Drop;

    /// The last cycle of a run.
    ghost target: { Self.Run → ℕ };

    ghost job_run: { Self.Job → Self.Run };

    ghost done_run: { Self.Done → Self.Run };

    ghost cycle_of: { Self.Snapshot → ℕ };

    /// The snapshot is that of the run at its cycle.
    ghost is_of: { Self.Run → Self.Snapshot → Type 0 };

    /// The part of a job.
    fn part(job: &Self::Job) -> u32;

    /// The cycle that a job leaves.
    fn cycle(job: &Self::Job) -> u32;

    /// Does the job. It takes no memory, and needs no turn.
    fn step(job: Self::Job) -> Self::Done
        ensures { done_run result ≡ job_run job };

    /// Gives a job out. All memory of the job is taken here.
    fn take(&mut self) -> Result<Take<Self::Job>, OutOfMemory>
        ensures run { Self.run self.new ≡ Self.run self.old }
        ensures floor { Self.floor_of self.new ≡ Self.floor_of self.old }
        ensures job { IfJob result (λ job. job_run job ≡ Self.run self.old) }
        ensures finished { IfFinished result (Self.floor_of self.old ≡ target (Self.run self.old)) };

    /// Takes in what a job made.
    fn post(&mut self, done: Self::Done) -> Posted
        requires names { done_run done ≡ Self.run self.old }
        ensures run { Self.run self.new ≡ Self.run self.old }
        ensures floor { Self.floor_of self.old ≤ Self.floor_of self.new };

    /// Takes in every part that is out. A job of before is stale then, unless its part is out again at its cycle.
    fn recall(&mut self)
        ensures run { Self.run self.new ≡ Self.run self.old }
        ensures floor { Self.floor_of self.new ≡ Self.floor_of self.old };

    /// Ends the work of all callers, by a refusal that one of them met.
    fn stop(&mut self, refusal: OutOfMemory)
        ensures run { Self.run self.new ≡ Self.run self.old }
        ensures floor { Self.floor_of self.new ≡ Self.floor_of self.old };

    /// The snapshot at the floor.
    fn snapshot(&self) -> Result<Self::Snapshot, OutOfMemory>
        ensures cycle { IfOk result (λ s. cycle_of s ≡ Self.floor_of self.now) }
        ensures is { IfOk result (λ s. is_of (Self.run self.now) s) };

    /// The cycle of a snapshot.
    fn snapshot_cycle(snapshot: &Self::Snapshot) -> u32
        ensures { result ≡ cycle_of snapshot.now };
}
