//! Proofs.

use xm_flow::Invariant;
use xm_lits::{Lit, RuleName};
use xm_model::List;

/// What a sum adds up, with its multiplier: a lemma, by its place; that a queue has no more packets than its
/// capacity; that a count of packets is at least 0; a literal of the path.
#[derive(Clone, Copy, PartialEq, Eq, Debug)]
pub enum Item {
    Lemma(u32, i128),
    Cap(u32, i128),
    Low(u32, u8, i128),
    Path(Lit, i128),
}

/// A node of a tree. `Split` goes on with each alternative of a rule of a literal of the path. The others end
/// a path: `Clash` by literals that never hold together, `Eager` by all colours being idle on a channel whose
/// source offers again and again, `Sum` by items that add up to 0 at least 1, `Cite` by an earlier goal.
/// `Open` ends none: it stands in a proof that is not finished.
#[derive(Drop)]
pub enum Node {
    Split {
        rule: RuleName,
        on: Lit,
        via: Option<u8>,
        kids: u32,
    },
    Clash(Lit, Option<Lit>),
    Eager(u32),
    Sum(List<Item>),
    Cite(u32),
    Open,
}

/// A literal and the tree that refutes it: its nodes in preorder.
#[derive(Drop)]
pub struct Goal {
    pub lit: Lit,
    pub tree: List<Node>,
}

/// Lemmas and goals.
#[derive(Drop)]
pub struct Proof {
    pub lemmas: List<Invariant>,
    pub goals: List<Goal>,
}
