//! One turn of two passes, step by step.

ghost use Rattle.std.specs.Prelude.{◌≡◌, ◌≤◌, ℕ};
ghost use Rattle.xm_turn.specs.Passes.{IsPassOf, IsFree, Names, knows};
ghost use Rattle.xm_turn.specs.Views.{IsLater};

use std::sync::Wait;
use xm_turn::{Named, Opened, Pass, TryTake, Turn};

/// A value of a run that a number names.
#[derive(Drop)]
struct Count {
    run: u64,
    floor: u64,
}

impl Named for Count {
    type Run = u64;

    ghost run = { λ c. c.run };

    ghost floor_of = { λ c. c.floor };

    fn floor(&self) -> u64 {
        self.floor
    }
}

impl Count {
    fn rise(&mut self, by: u64)
        ensures run { self.new.run ≡ self.old.run }
        ensures floor { self.old.floor ≤ self.new.floor }
    {
        self.floor = self.floor.saturating_add(by);
    }
}

/// A turn in which the count rises, and the floor of the turn with it where `raises` is.
fn risen<R: Wait>(
    rt: &R,
    turn: &Turn<Count>,
    pass: Pass<Count>,
    by: u64,
    raises: bool,
) -> Pass<Count>
    requires { IsPassOf turn.now pass × IsFree pass }
    ensures { IsPassOf turn.now result × IsFree result × IsLater (knows pass) (knows result) }
{
    let mut held = turn.take(rt, pass);
    held.value().rise(by);
    if raises {
        turn.raise(&mut held);
    }
    turn.give(held)
}

#[test]
fn the_floor_rises_by_raises_alone(rt: HostRuntime) {
    let count = Count { run: 7, floor: 0 };
    let Ok(Opened { turn, mut pass }) = Turn::open(rt.alloc(), count, 2) else {
        panic!(rt; "memory")
    };
    let mut other = turn.split(&mut pass);
    assert!(rt; turn.look(&mut other) == 0);
    let pass = risen(&rt, &turn, pass, 1, true);
    assert!(rt; turn.look(&mut other) == 1);
    let pass = risen(&rt, &turn, pass, 2, false);
    assert!(rt; turn.look(&mut other) == 1);
    let mut pass = risen(&rt, &turn, pass, 0, true);
    assert!(rt; turn.look(&mut other) == 3);
    turn.join(&mut pass, other);
    let count = turn.close(pass);
    assert!(rt; count.floor == 3 && count.run == 7);
}

#[test]
fn one_pass_at_a_time_has_the_turn(rt: HostRuntime) {
    let count = Count { run: 7, floor: 0 };
    let Ok(Opened { turn, mut pass }) = Turn::open(rt.alloc(), count, 2) else {
        panic!(rt; "memory")
    };
    let other = turn.split(&mut pass);
    let held = turn.take(&rt, pass);
    let mut other = match turn.try_take(other) {
        TryTake::Held(held) => {
            turn.give(held);
            panic!(rt; "the turn is taken")
        }
        TryTake::Busy(other) => other,
    };
    let pass = turn.give_quietly(held);
    turn.join(&mut other, pass);
    match turn.try_take(other) {
        TryTake::Held(held) => {
            let pass = turn.give(held);
            let count = turn.close(pass);
            assert!(rt; count.floor == 0 && count.run == 7);
        }
        TryTake::Busy(_) => panic!(rt; "a whole pass has the turn"),
    }
}
