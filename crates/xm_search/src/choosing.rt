//! The rule by which a path is split.

ghost use Rattle.std.specs.Prelude.{◌≡◌, ◌<◌, ◌⊎◌, [], false, true, IfOk, IfNone, IfSome, None, Some};
ghost use Rattle.std.specs.Prelude.{length, map, slice_get};
ghost use Rattle.xm_lits.specs.Inference.{alternatives_of, inference_of, rules_of};
ghost use Rattle.xm_search.specs.Inner.Choosing.{AllAnswered, AllGoOn, IsChoice, IsFresh, IsLast, IsLastChoice};
ghost use Rattle.xm_search.specs.Inner.Choosing.{IsPick, all_answered, all_have, any_last, some_last};
ghost use Rattle.xm_search.specs.Trees as trees;

use std::alloc::Global;
use xm_design::Design;
use xm_lits::{Lit, Rule, are_on_path, are_opposed, is_outside, rules};
use xm_model::{List, OutOfMemory};

/// A rule of a literal.
#[derive(Drop)]
pub struct Chosen {
    pub on: Lit,
    pub rule: Rule,
}

/// A rule by its place among those of a literal, and how many of its alternatives are live.
#[derive(Clone, Copy)]
pub struct Pick {
    pub on: Lit,
    pub place: u32,
    pub live: u32,
}

/// Whether some alternative is wholly on the path.
fn has_alternative(path: &[Lit], alternatives: &[List<Lit>]) -> bool
    ensures { result ≡ trees.has_alternative path.now (alternatives_of alternatives.now) }
{
    for alternative in alternatives {
        if are_on_path(path, alternative.as_slice()) {
            return true;
        }
    }
    false
}

/// Whether the literal is opposed to none of the path and not outside its set.
fn fits_path(design: &Design, path: &[Lit], lit: &Lit) -> bool {
    for other in path {
        if are_opposed(lit, other) {
            return false;
        }
    }
    !is_outside(design, lit)
}

/// Whether each literal of the alternative fits the path.
fn is_live(design: &Design, path: &[Lit], alternative: &[Lit]) -> bool {
    for lit in alternative {
        if !fits_path(design, path, lit) {
            return false;
        }
    }
    true
}

/// How many of the alternatives are live.
fn live_count(design: &Design, path: &[Lit], alternatives: &[List<Lit>]) -> u32 {
    let mut count: u32 = 0;
    for alternative in alternatives {
        if is_live(design, path, alternative.as_slice()) {
            count = count.saturating_add(1);
        }
    }
    count
}

/// The one with fewer live alternatives.
fn better(best: Option<Pick>, other: Option<Pick>) -> Option<Pick>
    ensures none { IfNone result ((best ≡ None) × (other ≡ None)) }
    ensures some { IfSome result (λ p. (best ≡ Some p) ⊎ (other ≡ Some p)) }
{
    match (best, other) {
        (Some(p), Some(q)) => { if q.live < p.live { Some(q) } else { Some(p) } }
        (Some(p), None) => Some(p),
        (None, found) => found,
    }
}

/// The rule, where it has no alternative wholly on the path.
fn pick_rule(design: &Design, path: &[Lit], on: &Lit, rule: &Rule, place: u32) -> Option<Pick>
    ensures none { IfNone result (trees.has_alternative path.now (inference_of rule.now).alternatives ≡ true) }
    ensures some { IfSome result (λ p. (p.on ≡ on.now) × (p.place ≡ place)
        × (trees.has_alternative path.now (inference_of rule.now).alternatives ≡ false)) }
{
    let alternatives = rule.alternatives.as_slice();
    if has_alternative(path, alternatives) {
        return None;
    }
    let live = live_count(design, path, alternatives);
    Some(Pick {
        on: *on,
        place,
        live,
    })
}

/// The best of the rules of the literal that have no alternative wholly on the path.
fn pick_of(design: &Design, path: &[Lit], on: &Lit, rules: &[Rule]) -> Option<Pick>
    requires { length rules.now < 4294967296 }
    ensures none { IfNone result (all_have path.now (map inference_of rules.now) ≡ true) }
    ensures some { IfSome result (λ p. (p.on ≡ on.now) × IsFresh path.now (map inference_of rules.now) p.place) }
{
    let mut best = None;
    for k in 0..rules.len() {
        best = better(best, pick_rule(design, path, on, &rules[k], k as u32));
    }
    best
}

/// The best of the rules of one literal.
fn pick_at(
    alloc: Global,
    design: &Design,
    path: &[Lit],
    on: &Lit,
) -> Result<Option<Pick>, OutOfMemory>
    ensures none { IfOk result (λ found. IfNone found (all_have path.now (rules_of design.now on.now) ≡ true)) }
    ensures some { IfOk result (λ found. IfSome found (λ p. (p.on ≡ on.now)
        × IsFresh path.now (rules_of design.now on.now) p.place)) }
{
    let rules = rules(alloc, design, on)?;
    if rules.len() > u32::MAX as usize {
        return Err(OutOfMemory);
    }
    Ok(pick_of(design, path, on, rules.as_slice()))
}

/// Whether at most one alternative is live.
fn is_forced(found: &Option<Pick>) -> bool
    ensures { found.now ≡ None → result ≡ false }
{
    match found {
        Some(pick) => pick.live <= 1,
        None => false,
    }
}

/// The best of the rules of all literals of the path; the first that leaves at most one alternative is good enough.
fn best_pick(alloc: Global, design: &Design, path: &[Lit]) -> Result<Option<Pick>, OutOfMemory>
    ensures none { IfOk result (λ found. IfNone found (all_answered design.now path.now path.now ≡ true)) }
    ensures some { IfOk result (λ found. IfSome found (IsPick design.now path.now)) }
{
    let mut best = None;
    for on in path {
        let found = pick_at(alloc, design, path, on)?;
        if is_forced(&found) {
            return Ok(found);
        }
        best = better(best, found);
    }
    Ok(best)
}

/// The rule that is picked.
fn take_rule(alloc: Global, design: &Design, pick: Pick) -> Result<Chosen, OutOfMemory>
    requires { pick.place < length (rules_of design.now pick.on) }
    ensures on { IfOk result (λ c. c.on ≡ pick.on) }
    ensures at { IfOk result (λ c. slice_get (rules_of design.now pick.on) pick.place ≡ Some (inference_of c.rule)) }
{
    let mut rules = rules(alloc, design, &pick.on)?;
    let rule = rules.remove(pick.place);
    Ok(Chosen { on: pick.on, rule })
}

/// The best rule of a literal of the path, where one has no alternative wholly on the path.
pub fn best_rule(
    alloc: Global,
    design: &Design,
    path: &[Lit],
) -> Result<Option<Chosen>, OutOfMemory>
    ensures none { IfOk result (λ found. IfNone found (AllAnswered design.now path.now)) }
    ensures some { IfOk result (λ found. IfSome found (IsChoice design.now path.now)) }
{
    match best_pick(alloc, design, path)? {
        Some(pick) => Ok(Some(take_rule(alloc, design, pick)?)),
        None => Ok(None),
    }
}

/// The place of a rule without alternatives.
fn end_place(rules: &[Rule]) -> Option<u32>
    requires { length rules.now < 4294967296 }
    ensures none { IfNone result (some_last (map inference_of rules.now) ≡ false) }
    ensures some { IfSome result (IsLast (map inference_of rules.now)) }
{
    for k in 0..rules.len() {
        if rules[k].alternatives.is_empty() {
            return Some(k as u32);
        }
    }
    None
}

/// The place of a rule of the literal without alternatives.
fn end_at(alloc: Global, design: &Design, on: &Lit) -> Result<Option<u32>, OutOfMemory>
    ensures none { IfOk result (λ found. IfNone found (some_last (rules_of design.now on.now) ≡ false)) }
    ensures some { IfOk result (λ found. IfSome found (IsLast (rules_of design.now on.now))) }
{
    let rules = rules(alloc, design, on)?;
    if rules.len() > u32::MAX as usize {
        return Err(OutOfMemory);
    }
    Ok(end_place(rules.as_slice()))
}

/// A rule without alternatives of a literal of the path.
fn end_pick(alloc: Global, design: &Design, path: &[Lit]) -> Result<Option<Pick>, OutOfMemory>
    ensures none { IfOk result (λ found. IfNone found (any_last design.now path.now ≡ false)) }
    ensures some { IfOk result (λ found. IfSome found (λ p. IsPick design.now path.now p
        × IsLast (rules_of design.now p.on) p.place)) }
{
    for on in path {
        if let Some(place) = end_at(alloc, design, on)? {
            return Ok(Some(Pick {
                on: *on,
                place,
                live: 0,
            }));
        }
    }
    Ok(None)
}

/// A rule of a literal of the path that has no alternatives.
pub fn end_rule(alloc: Global, design: &Design, path: &[Lit]) -> Result<Option<Chosen>, OutOfMemory>
    ensures none { IfOk result (λ found. IfNone found (AllGoOn design.now path.now)) }
    ensures some { IfOk result (λ found. IfSome found (IsLastChoice design.now path.now)) }
{
    match end_pick(alloc, design, path)? {
        Some(pick) => Ok(Some(take_rule(alloc, design, pick)?)),
        None => Ok(None),
    }
}
