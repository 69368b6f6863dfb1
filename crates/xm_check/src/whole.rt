//! A whole proof.

ghost use Rattle.std.specs.Prelude.{◌≡◌, ◌<◌, [], All, IfOk, length, map};
ghost use Rattle.xm_check.specs.Break as broken;
ghost use Rattle.xm_check.specs.Inner.Gives.{GivesAt};
ghost use Rattle.xm_check.specs.Inner.Queues.{AreOver};
ghost use Rattle.xm_check.specs.Laws.{NothingJams};
ghost use Rattle.xm_flow.specs.Holding.{IsFlowOf};
ghost use Rattle.xm_flow.specs.ValidLemma.{lemma_of};
ghost use Rattle.xm_proof.specs.Argument.{argument_of, refutation_of};
ghost use Rattle.xm_proof.specs.Form.{IsFormed};
ghost use Rattle.xm_proof.specs.Tests.{queue_columns};
ghost use Rattle.xm_proof.specs.declared.verdict.Verdict.TheVariants as verdict;

use crate::goals::{all_marked, mark_goals, no_marks};
use crate::laws::proofs_hold;
use crate::lemmas::check_lemmas;
use crate::steps::Given;
use crate::stop::Halt;
use crate::sums::Sums;
use crate::trees::check_tree;
use std::alloc::Global;
use xm_design::Design;
use xm_flow::{FlowRows, Invariant};
use xm_model::OutOfMemory;
use xm_proof::{Goal, Proof, ProofPath, Reason, Verdict};

/// Tests the trees of the goals, in order; the first step that breaks, and why.
fn check_trees(
    alloc: Global,
    design: &Design,
    columns: u32,
    lemmas: &[Invariant],
    goals: &[Goal],
) -> Result<(), Halt>
    requires columns { columns ≡ length (queue_columns design.now) }
    requires lemmas { AreOver (length (queue_columns design.now)) lemmas.now }
    requires goals { length goals.now < 4294967296 }
    requires few { All (λ goal. length goal.tree.items < 4294967296) goals.now }
    ensures { GivesAt result (broken.trees_test design.now (map lemma_of lemmas.now) [] 0
        (map refutation_of goals.now)) }
{
    let Ok(mut sums) = Sums::none(alloc, columns) else {
        return Err(Halt::OutOfMemory);
    };
    for k in 0..goals.len() {
        let given = Given {
            design,
            lemmas,
            before: &goals[..k],
        };
        match check_tree(
            alloc,
            &given,
            k as u32,
            goals[k].lit,
            goals[k].tree.as_slice(),
            sums,
        ) {
            Ok(next) => sums = next,
            Err(halt) => return Err(halt),
        }
    }
    Ok(())
}

/// Tests that each pair is a goal, and none is one twice; the first break, and why.
fn check_pairs(alloc: Global, design: &Design, goals: &[Goal]) -> Result<(), Halt>
    requires { length goals.now < 4294967296 }
    ensures { GivesAt result (broken.pairs_test design.now (map refutation_of goals.now)) }
{
    let Ok(mut marks) = no_marks(alloc, design) else {
        return Err(Halt::OutOfMemory);
    };
    if let Some(k) = mark_goals(design, marks.as_mut_slice(), goals) {
        return Err(Halt::At(ProofPath::Goal(k), Reason::Goal));
    }
    match all_marked(alloc, design, marks.as_slice()) {
        Ok(true) => Ok(()),
        Ok(false) => Err(Halt::At(ProofPath::Goals, Reason::Missing)),
        Err(OutOfMemory) => Err(Halt::OutOfMemory),
    }
}

/// Tests the goals and their trees; the first break, and why.
fn check_goals(alloc: Global, design: &Design, columns: u32, proof: &Proof) -> Result<(), Halt>
    requires columns { columns ≡ length (queue_columns design.now) }
    requires lemmas { AreOver (length (queue_columns design.now)) proof.now.lemmas.items }
    requires formed { IsFormed (argument_of proof.now) }
    ensures { GivesAt result (broken.goals_and_trees_test design.now (argument_of proof.now)) }
{
    let goals = proof.goals.as_slice();
    if let Err(halt) = check_pairs(alloc, design, goals) {
        return Err(halt);
    }
    check_trees(alloc, design, columns, proof.lemmas.as_slice(), goals)
}

/// Checks a proof over the flow rows of the design: that it is valid, or its first break and why. Where it is valid, no
/// channel jams on a fair repeating run.
pub fn check(
    alloc: Global,
    design: &Design,
    flow: &FlowRows,
    proof: &Proof,
) -> Result<Verdict, OutOfMemory>
    requires flow { IsFlowOf design.now flow.now }
    requires formed { IsFormed (argument_of proof.now) }
    ensures exact { IfOk result (broken.IsVerdict design.now flow.now.rows (argument_of proof.now)) }
    ensures sound { IfOk result (λ v. v ≡ verdict.Yes → NothingJams design.now) }
{
    proofs_hold();
    if let Some((k, why)) = check_lemmas(alloc, flow, proof.lemmas.as_slice())? {
        return Ok(Verdict::No(ProofPath::Lemma(k), why));
    }
    match check_goals(alloc, design, flow.counts(), proof) {
        Ok(()) => Ok(Verdict::Yes),
        Err(Halt::At(place, why)) => Ok(Verdict::No(place, why)),
        Err(Halt::OutOfMemory) => Err(OutOfMemory),
    }
}
