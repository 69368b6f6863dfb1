//! Taking the turn, and giving it back.
ghost use Rattle.std.specs.Prelude.{◌≡◌, ◌<◌, ◌≤◌};
ghost use Rattle.std.specs.Borrow.{sem};
ghost use Rattle.xm_turn.specs.Inner.Steps.{Takes};
ghost use Rattle.xm_turn.specs.Passes.{IsPassOf, IsFree, IsStill, IsSame, IsHolder, HasTurn, IsGiven, IsValueOf, knows};
ghost use Rattle.xm_turn.specs.Tries.{IfHeld, IfBusy, LendsValue};

use crate::rule::Named;
use crate::turn::{Held, Pass, TryTake, Turn};
use crossbeam_utils::sync::Key;
use std::sync::Wait;

impl<V: Named> Turn<V> {
    /// Tries once to take the turn. A whole pass has it.
    pub fn try_take(&self, pass: Pass<V>) -> TryTake<V>
        requires pass { IsPassOf self.now pass × IsFree pass }
        ensures held { IfHeld result (λ h. IsHolder pass h.pass) }
        ensures value { IfHeld result (λ h. IsValueOf V.run V.floor_of h.pass h.value) }
        ensures busy { IfBusy result (λ p. IsSame pass p × ((knows p).shares < (knows p).all)) }
    {
        let mut pass = pass;
        if self.acquire(&mut pass) != 0 {
            return TryTake::Busy(pass);
        }
        self.load_floor(&mut pass);
        let value = self.take_out(&mut pass);
        TryTake::Held(Held { pass, value })
    }

    /// Takes the turn, and waits while another pass has it.
    pub fn take<R: Wait>(&self, rt: &R, pass: Pass<V>) -> Held<V>
        requires pass { IsPassOf self.now pass × IsFree pass }
        ensures held { IsHolder pass result.pass }
        ensures value { IsValueOf V.run V.floor_of result.pass result.value }
    {
        let mut pass = pass;
        self.wait_for(rt, &mut pass);
        self.load_floor(&mut pass);
        let value = self.take_out(&mut pass);
        Held { pass, value }
    }

    /// Tries until it has the turn, and sleeps while the word is 1.
    fn wait_for<R: Wait>(&self, rt: &R, pass: &mut Pass<V>)
        requires pass { IsPassOf self.now pass.old × IsFree pass.old }
        ensures pass { IsStill pass.old pass.new }
        ensures takes { Takes V.run V.floor_of pass.old.seat.me 0 pass.new.seat.me }
    {
        for _ in rt.forever() {
            if self.acquire(pass) == 0 {
                break;
            }
            self.table.shared.park(rt, 0, 1);
        }
    }

    /// Raises the floor of the turn to that of the value.
    pub fn raise(&self, held: &mut Held<V>)
        requires turn { IsPassOf self.now held.old.pass × HasTurn held.old.pass }
        requires floor { (knows held.old.pass).seen ≤ V.floor_of held.old.value }
        ensures value { held.new.value ≡ held.old.value }
        ensures turn { IsPassOf self.now held.new.pass × HasTurn held.new.pass }
        ensures knows { knows held.new.pass ≡ record (knows held.old.pass) { seen = V.floor_of held.old.value } }
    {
        let floor = held.value.floor();
        self.raise_floor(&mut held.pass, floor);
    }

    /// Gives the turn back, and wakes the passes that wait for a change.
    pub fn give(&self, held: Held<V>) -> Pass<V>
        requires turn { IsPassOf self.now held.pass × HasTurn held.pass }
        requires value { IsValueOf V.run V.floor_of held.pass held.value }
        ensures { IsGiven held.pass result }
    {
        let pass = self.give_quietly(held);
        self.changes.notify_all();
        pass
    }

    /// Gives the turn back, where the holder did nothing that another pass may wait for.
    pub fn give_quietly(&self, held: Held<V>) -> Pass<V>
        requires turn { IsPassOf self.now held.pass × HasTurn held.pass }
        requires value { IsValueOf V.run V.floor_of held.pass held.value }
        ensures { IsGiven held.pass result }
    {
        let Held { mut pass, value } = held;
        self.put_in(&mut pass, value);
        self.release(&mut pass);
        pass
    }

    /// Gives the turn back, and sleeps until `give` or `wake_all` was called since this call began.
    pub fn give_and_wait<R: Wait>(&self, rt: &R, held: Held<V>) -> Pass<V>
        requires turn { IsPassOf self.now held.pass × HasTurn held.pass }
        requires value { IsValueOf V.run V.floor_of held.pass held.value }
        ensures { IsGiven held.pass result }
    {
        let change = self.changes.prepare_wait();
        let pass = self.give_quietly(held);
        change.wait(rt);
        pass
    }

    /// Announces a wait for a change. Test what you wait for after this call, and then wait.
    pub fn next_change(&self) -> Key<'_> {
        self.changes.prepare_wait()
    }

    /// Wakes the passes that wait for a change.
    pub fn wake_all(&self) {
        self.changes.notify_all();
    }
}

impl<V: Named> Held<V> {
    /// The value as it now is.
    pub fn value(&mut self) -> &mut V
        ensures* writes_back { sem 𝓛 (LendsValue V.row V.Run.row self.entry result) }
        ensures value { result.now ≡ self.old.value }
    {
        &mut self.value
    }
}
