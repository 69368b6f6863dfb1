//! Opening and closing a turn, and its passes: each looks at the floor, is split, and is joined.
ghost use Rattle.std.specs.Prelude.{◌≡◌, ◌<◌, ◌≤◌, IfOk, IfErr};
ghost use Rattle.xm_turn.specs.Views.{opened, one_less, one_share, together};
ghost use Rattle.xm_turn.specs.Passes.{IsPassOf, IsFree, IsWhole, IsValueOf, knows};

use crate::rule::{About, Named, Shares};
use crate::turn::{Opened, Pass, Refused, Turn};
use atomic_table::Table;
use crossbeam_utils::sync::EventCount;
use std::alloc::{AllocFailed, Global};
use std::snapshot::Snapshot;

impl<V: Named> Turn<V> {
    /// A turn for the value, of this many shares, all of which the first pass has.
    pub fn open(alloc: Global, value: V, passes: u32) -> Result<Opened<V>, Refused<V>>
        requires { 0 < passes }
        ensures pass { IfOk result (λ o. IsPassOf o.turn o.pass × IsFree o.pass) }
        ensures knows { IfOk result (λ o. knows o.pass ≡ opened (V.run value) passes (V.floor_of value)) }
        ensures refused { IfErr result (λ r. r.value ≡ value) }
    {
        let about = About {
            value: Snapshot::of(&value),
            all: passes,
        };
        let floor = value.floor();
        let mut slots = Vec::new(alloc);
        if let Err(AllocFailed { value }) = slots.push(Some(value)) {
            return Err(Refused {
                value: value.unwrap(),
            });
        }
        match Table::new(alloc, &[0, floor], slots, &about) {
            Ok((table, seat)) => Ok(Opened {
                turn: Turn {
                    table,
                    changes: EventCount::new(),
                },
                pass: Pass { seat },
            }),
            Err(refused) => {
                let atomic_table::Refused { mut slots } = refused;
                let value = slots.pop().unwrap().unwrap();
                Err(Refused { value })
            }
        }
    }

    /// The floor, which the pass has then seen.
    pub fn look(&self, pass: &mut Pass<V>) -> u64
        requires pass { IsPassOf self.now pass.old × IsFree pass.old }
        ensures pass { IsPassOf self.now pass.new × IsFree pass.new }
        ensures knows { knows pass.new ≡ record (knows pass.old) { seen = result } }
        ensures later { (knows pass.old).seen ≤ result }
    {
        self.load_floor(pass)
    }

    /// Splits a free pass: one of its shares goes to the new one.
    pub fn split(&self, pass: &mut Pass<V>) -> Pass<V>
        requires pass { IsPassOf self.now pass.old × IsFree pass.old }
        requires shares { 1 < (knows pass.old).shares }
        ensures pass { IsPassOf self.now pass.new × IsFree pass.new × (knows pass.new ≡ one_less (knows pass.old)) }
        ensures new { IsPassOf self.now result × IsFree result × (knows result ≡ one_share (knows pass.old)) }
    {
        let seat = self.table.shared.split_seat::<Shares>(&mut pass.seat);
        Pass { seat }
    }

    /// Joins two free passes: the first gets the shares of the other, and has then seen what either has.
    pub fn join(&self, pass: &mut Pass<V>, other: Pass<V>)
        requires pass { IsPassOf self.now pass.old × IsFree pass.old }
        requires other { IsPassOf self.now other × IsFree other }
        ensures pass { IsPassOf self.now pass.new × IsFree pass.new }
        ensures knows { knows pass.new ≡ together (knows pass.old) (knows other) }
    {
        let Pass { seat } = other;
        self.table.shared.join_seat::<Shares>(&mut pass.seat, seat);
    }

    /// Ends the turn, and hands out the value.
    pub fn close(self, pass: Pass<V>) -> V
        requires pass { IsPassOf self pass × IsFree pass }
        requires whole { IsWhole pass }
        ensures { IsValueOf V.run V.floor_of pass result }
    {
        let Turn { table, changes: _ } = self;
        let Pass { seat } = pass;
        let mut closed = table.close_with(seat);
        let value = closed.take(0).unwrap();
        closed.free();
        value
    }
}
