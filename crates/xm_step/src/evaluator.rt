//! A design with a plan of its cycles.

ghost use Rattle.std.specs.Prelude.{◌≡◌};

use crate::kinds::{Kinds, kinds_of};
use std::alloc::Global;
use std::marker::Model;
use xm_design::Design;
use xm_model::OutOfMemory;
use xm_plan::Plan;

/// Evaluates the cycles of a design. It is made once, and lent to each cycle. A contract sees the design.
#[derive(Drop)]
pub struct Evaluator<'a> {
    design: &'a Design,
    plan: Plan,
    kinds: Kinds,
}

impl<'a> Model for Evaluator<'a> {
    ghost use Rattle.xm_design.specs.Designed.{Designed};

    ghost Value = { Designed };

    ghost use Rattle.xm_step.specs.Inner.Planning.{IsEvaluatorOf};

    ghost view = { λ e. e.design.now };

    ghost invariant = { λ e. IsEvaluatorOf e.design.now e.plan e.kinds.queues.items e.kinds.others.items };
}

impl<'a> Evaluator<'a> {
    ghost use Rattle.std.specs.Prelude.{◌≡◌, length, IfOk};
    ghost use Rattle.xm_design.specs.Designed.{IsDesigned};
    ghost use Rattle.xm_step.specs.Inner.Kinds.{AreKindsTo};
    ghost use Rattle.xm_step.specs.Inner.Planning.{IsPlanFor};

    /// The evaluator of a design. Its plan takes time that is linear in the primitives and the channels.
    pub fn new(alloc: Global, design: &'a Design) -> Result<Evaluator<'a>, OutOfMemory>
        ensures { IfOk result (λ evaluator. evaluator ≡ design.now) }
    {
        design.is_designed();
        let net = design.net();
        let plan = Plan::new(
            alloc,
            net.prims(),
            net.channels(),
            design.oracles(),
            design.tasks(),
        )?;
        let kinds = kinds_of(alloc, net.prims().as_slice())?;
        Ok(Evaluator {
            design,
            plan,
            kinds,
        })
    }

    /// Lends the design.
    pub fn design(&self) -> &Design
        ensures value { result.now ≡ self.now }
        ensures designed { IsDesigned self.now }
    {
        self.design.is_designed();
        self.design
    }

    /// Lends the queues and the other primitives.
    pub(crate) fn kinds(&self) -> &Kinds
        ensures { AreKindsTo self.now.net.prims (length self.now.net.prims) result.now.queues.items
            result.now.others.items }
    {
        &self.kinds
    }

    /// Lends the plan.
    pub(crate) fn plan(&self) -> &Plan
        ensures { IsPlanFor self.now result.now }
    {
        &self.plan
    }
}
