//! The single steps of a pass: on the words of its turn, and on the slot with the value.
ghost use Rattle.std.specs.Prelude.{◌≡◌, ◌≤◌, max, [], ◌∷◌, Some, None};
ghost use Rattle.xm_turn.specs.Views.{giving};
ghost use Rattle.xm_turn.specs.Inner.Steps.{seeing, Takes, Within};
ghost use Rattle.xm_turn.specs.declared.rule.Phase.TheVariants.{Looked};
ghost use Rattle.xm_turn.specs.Passes.{IsPassOf, IsStill, Becomes, knows, IsFree, IsValueOf};

use crate::rule::{Give, Look, Named, Raise, Take};
use crate::turn::{Pass, Turn};

impl<V: Named> Turn<V> {
    /// Tries to take the turn, and answers what the word was: 0 where the pass now has it, 1 where another pass has it.
    pub(crate) fn acquire(&self, pass: &mut Pass<V>) -> u64
        requires pass { IsPassOf self.now pass.old × IsFree pass.old }
        ensures pass { IsStill pass.old pass.new }
        ensures takes { Takes V.run V.floor_of pass.old.seat.me result pass.new.seat.me }
    {
        self.table
            .shared
            .compare_exchange::<Take<V>>(&mut pass.seat, 0, 0, 1)
    }

    /// Takes the value out of the slot, which the pass has.
    pub(crate) fn take_out(&self, pass: &mut Pass<V>) -> V
        requires pass { IsPassOf self.now pass.old }
        requires slot { (x : V) × (pass.old.seat.me.1 ≡ (0, Some x) ∷ []) }
        ensures value { pass.old.seat.me.1 ≡ (0, Some result) ∷ [] }
        ensures pass { Becomes pass.old pass.new (knows pass.old, (0, None) ∷ []) }
    {
        self.table.shared.exchange(&mut pass.seat, 0, None).unwrap()
    }

    /// Puts the value into the slot, which the pass has.
    pub(crate) fn put_in(&self, pass: &mut Pass<V>, value: V)
        requires pass { IsPassOf self.now pass.old }
        requires slot { pass.old.seat.me.1 ≡ (0, None) ∷ [] }
        ensures pass { Becomes pass.old pass.new (knows pass.old, (0, Some value) ∷ []) }
    {
        let empty = self.table.shared.exchange(&mut pass.seat, 0, Some(value));
        let None = empty else { unreachable!() };
    }

    /// Reads the floor.
    pub(crate) fn load_floor(&self, pass: &mut Pass<V>) -> u64
        requires pass { IsPassOf self.now pass.old }
        ensures pass { Becomes pass.old pass.new (seeing result (knows pass.old), pass.old.seat.me.1) }
        ensures later { (knows pass.old).seen ≤ result }
        ensures within { Within (knows pass.old).phase result }
    {
        self.table.shared.load::<Look>(&mut pass.seat, 1)
    }

    /// Raises the floor.
    pub(crate) fn raise_floor(&self, pass: &mut Pass<V>, floor: u64)
        requires pass { IsPassOf self.now pass.old }
        requires looked { (knows pass.old).phase ≡ Looked }
        ensures pass { Becomes pass.old pass.new
            (seeing (max (knows pass.old).seen floor) (knows pass.old), pass.old.seat.me.1) }
    {
        self.table
            .shared
            .fetch_max::<Raise>(&mut pass.seat, 1, floor);
    }

    /// Gives the turn back, and wakes one pass that waits for it.
    pub(crate) fn release(&self, pass: &mut Pass<V>)
        requires pass { IsPassOf self.now pass.old }
        requires looked { (knows pass.old).phase ≡ Looked }
        requires slot { (x : V) × (pass.old.seat.me.1 ≡ (0, Some x) ∷ []) × IsValueOf V.run V.floor_of pass.old x }
        ensures pass { Becomes pass.old pass.new (giving (knows pass.old), []) }
    {
        self.table.shared.swap::<Give>(&mut pass.seat, 0, 0);
        self.table.shared.wake_one(0);
    }
}
