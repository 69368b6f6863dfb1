//! Snapshots with one try for the turn.

ghost use Rattle.std.specs.Prelude.{◌≡◌};

use super::ring::{Ring, Sums};
use xm_model::OutOfMemory;
use xm_turn::{Opened, Turn};
use xm_work::{TrySnapshot, try_snapshot};

const MARKS: [u64; 4] = [3, 5, 7, 100];

fn is_busy(taken: Result<TrySnapshot<Sums>, OutOfMemory>) -> bool {
    match taken {
        Ok(TrySnapshot::Busy) => true,
        _ => false,
    }
}

fn is_at_cycle_0(taken: Result<TrySnapshot<Sums>, OutOfMemory>) -> bool {
    match taken {
        Ok(TrySnapshot::Taken(sums)) => sums.cycle == 0,
        _ => false,
    }
}

#[test]
fn one_try_finds_the_turn_taken_or_gives_a_snapshot(rt: HostRuntime) {
    let Ok(ring) = Ring::new(rt.alloc(), &MARKS, 4, 3) else {
        panic!(rt; "memory")
    };
    let Ok(Opened { turn, mut pass }) = Turn::open(rt.alloc(), ring, 2) else {
        panic!(rt; "memory")
    };
    let other = turn.split(&mut pass);
    let held = turn.take(&rt, pass);
    let (other, taken) = try_snapshot(&turn, other);
    assert!(rt; is_busy(taken));
    let pass = turn.give_quietly(held);
    let (mut other, taken) = try_snapshot(&turn, other);
    assert!(rt; is_at_cycle_0(taken));
    turn.join(&mut other, pass);
    let ring = turn.close(other);
    assert!(rt; ring.sums.len() == 4);
}
