//! Steps of a proof.

ghost use Rattle.std.specs.Prelude.{◌≡◌, ◌<◌, ◌≤◌, ◌&&◌, [], map, length, nat_eq, slice_get, IfNone, IfOk, IfSome};
ghost use Rattle.xm_check.specs.Break as broken;
ghost use Rattle.xm_check.specs.Inner.Gives.{Gives};
ghost use Rattle.xm_lits.specs.Inference.{alternatives_of, inference_of, rules_of};
ghost use Rattle.xm_model.specs.Steps as steps;
ghost use Rattle.xm_flow.specs.ValidLemma as lemmas;
ghost use Rattle.xm_proof.specs.Argument as argument;
ghost use Rattle.xm_proof.specs.Sums.{no_sums};
ghost use Rattle.xm_proof.specs.Tests as tests;
ghost use Rattle.xm_proof.specs.Tests.{queue_columns};
ghost use Rattle.xm_check.specs.Inner.Queues.{AreOver};

use crate::items::check_sum;
use crate::stop::{Stop, demand};
use crate::sums::Sums;
use std::alloc::Global;
use xm_design::Design;
use xm_flow::Invariant;
use xm_lits::{
    Lit, Rule, RuleName, are_on_path, are_opposed, idle_lits, is_offered, is_on_path, is_outside,
    rules,
};
use xm_model::List;
use xm_proof::{Goal, Node, Reason};

/// What the steps of a goal refer to: the design, the lemmas, and the goals before.
#[derive(Clone, Copy)]
pub struct Given<'a> {
    pub design: &'a Design,
    pub lemmas: &'a [Invariant],
    pub before: &'a [Goal],
}

/// The place of a rule's name among all.
fn number_of(name: RuleName) -> u8
    ensures { result ≡ tests.name_number name }
{
    match name {
        RuleName::P0 => 0,
        RuleName::S1 => 1,
        RuleName::S2 => 2,
        RuleName::S3 => 3,
        RuleName::S4 => 4,
        RuleName::S5 => 5,
        RuleName::S6 => 6,
        RuleName::P1 => 7,
        RuleName::P2 => 8,
        RuleName::P3 => 9,
        RuleName::P4 => 10,
        RuleName::O1 => 11,
        RuleName::O2 => 12,
        RuleName::O3 => 13,
        RuleName::O4 => 14,
        RuleName::O5 => 15,
        RuleName::O6 => 16,
        RuleName::I2 => 17,
        RuleName::I3 => 18,
        RuleName::I4 => 19,
        RuleName::I5 => 20,
        RuleName::I6 => 21,
        RuleName::I7 => 22,
    }
}

fn same_colour(one: Option<u8>, other: Option<u8>) -> bool
    ensures { result ≡ tests.same_colour one other }
{
    match (one, other) {
        (None, None) => true,
        (Some(d), Some(e)) => d == e,
        _ => false,
    }
}

/// Whether the rule has this name and this colour.
fn is_named(rule: &Rule, name: RuleName, via: Option<u8>) -> bool
    ensures { result ≡ (nat_eq (tests.name_number rule.now.name) (tests.name_number name) && tests.same_colour
        rule.now.via via) }
{
    number_of(rule.name) == number_of(name) && same_colour(rule.via, via)
}

/// The place of the rule with this name and this colour.
fn place_of(rules: &[Rule], name: RuleName, via: Option<u8>) -> Option<u32>
    requires { length rules.now < 4294967296 }
    ensures none { IfNone result (tests.find_rule (map inference_of rules.now) name via ≡ None) }
    ensures some { IfSome result (λ i. tests.find_rule (map inference_of rules.now) name via ≡ slice_get (map
        inference_of rules.now) i) }
    ensures within { IfSome result (λ i. i < length rules.now) }
{
    for i in 0..rules.len() {
        if is_named(&rules[i], name, via) {
            return Some(i as u32);
        }
    }
    None
}

/// The rule of a literal with this name and this colour.
fn find(
    alloc: Global,
    design: &Design,
    name: RuleName,
    on: &Lit,
    via: Option<u8>,
) -> Result<Rule, Stop>
    ensures { Gives inference_of result
        (steps.demand (tests.find_rule (rules_of design.now on.now) name via) Reason.Rule) }
{
    let mut rules = rules(alloc, design, on)?;
    if rules.len() > u32::MAX as usize {
        return Err(Stop::OutOfMemory);
    }
    match place_of(rules.as_slice(), name, via) {
        Some(i) => Ok(rules.remove(i)),
        None => Err(Stop::Break(Reason::Rule)),
    }
}

/// Tests a split, and hands out the alternatives of its rule.
fn check_split(
    alloc: Global,
    design: &Design,
    path: &[Lit],
    name: RuleName,
    on: &Lit,
    via: Option<u8>,
    kids: u32,
) -> Result<List<List<Lit>>, Stop>
    ensures { Gives (λ alternatives. tests.longer path.now (alternatives_of alternatives.items)) result
        (broken.step_test design.now [] [] path.now (argument.Split name on.now via kids)) }
{
    demand(is_on_path(path, on), Reason::Absent)?;
    let rule = find(alloc, design, name, on, via)?;
    let whole = rule.alternatives.len() == kids as usize;
    demand(whole, Reason::Alternatives)?;
    Ok(rule.alternatives)
}

/// Tests a clash of one literal or two.
fn check_clash(design: &Design, path: &[Lit], one: &Lit, other: Option<Lit>) -> Result<(), Stop>
    ensures { Gives (λ x. x) result (broken.clash_test design.now path.now one.now other) }
{
    match other {
        None => {
            demand(is_on_path(path, one), Reason::Absent)?;
            demand(is_outside(design, one), Reason::Clash)
        }
        Some(other) => {
            demand(
                is_on_path(path, one) && is_on_path(path, &other),
                Reason::Absent,
            )?;
            demand(are_opposed(one, &other), Reason::Clash)
        }
    }
}

/// Tests that all colours are idle where an eager or fair source offers.
fn check_eager(alloc: Global, design: &Design, path: &[Lit], c: u32) -> Result<(), Stop>
    ensures { Gives (λ _. []) result (broken.step_test design.now [] [] path.now (argument.Eager c)) }
{
    let idle = idle_lits(alloc, design, c)?;
    demand(are_on_path(path, idle.as_slice()), Reason::Absent)?;
    demand(is_offered(design, c), Reason::Clash)
}

/// Whether the goal at this place stands on the path.
fn cited(before: &[Goal], path: &[Lit], place: u32) -> bool
    ensures { result ≡ broken.some_on_path path.now (slice_get (map (λ goal. goal.lit) before.now) place) }
{
    match before.get(place as usize) {
        Some(goal) => is_on_path(path, &goal.lit),
        None => false,
    }
}

/// The alternatives that a step leaves to refute, and the sums.
#[derive(Drop)]
pub struct Step {
    pub alternatives: List<List<Lit>>,
    pub sums: Sums,
}

/// Tests a step on a path, by sums that are nothing, and hands them back so.
pub fn check_step(
    alloc: Global,
    given: &Given,
    path: &[Lit],
    node: &Node,
    sums: Sums,
) -> Result<Step, Stop>
    requires lemmas { AreOver (length (queue_columns given.now.design.now)) given.now.lemmas.now }
    requires sums { sums ≡ no_sums (length (queue_columns given.now.design.now)) }
    ensures verdict { Gives (λ step. tests.longer path.now (alternatives_of step.alternatives.items)) result
        (broken.step_test given.now.design.now (map lemmas.lemma_of given.now.lemmas.now)
        (map (λ goal. goal.lit) given.now.before.now) path.now (argument.step_of node.now)) }
    ensures sums { IfOk result (λ step. step.sums ≡ no_sums (length (queue_columns given.now.design.now))) }
{
    match node {
        Node::Split {
            rule,
            on,
            via,
            kids,
        } => {
            let alternatives = check_split(alloc, given.design, path, *rule, on, *via, *kids)?;
            Ok(Step { alternatives, sums })
        }
        Node::Clash(one, other) => {
            check_clash(given.design, path, one, *other)?;
            Ok(closed(alloc, sums))
        }
        Node::Eager(c) => {
            check_eager(alloc, given.design, path, *c)?;
            Ok(closed(alloc, sums))
        }
        Node::Sum(items) => {
            let (design, lemmas) = (given.design, given.lemmas);
            let sums = check_sum(alloc, design, lemmas, path, items.as_slice(), sums)?;
            Ok(closed(alloc, sums))
        }
        Node::Cite(place) => {
            demand(cited(given.before, path, *place), Reason::Cite)?;
            Ok(closed(alloc, sums))
        }
        Node::Open => Err(Stop::Break(Reason::Open)),
    }
}

/// A step that leaves nothing.
fn closed(alloc: Global, sums: Sums) -> Step
    ensures alternatives { result.alternatives.items ≡ [] }
    ensures sums { result.sums ≡ sums }
{
    Step {
        alternatives: List::new(alloc),
        sums,
    }
}
