//! Goals of a proof: that each pair of a channel and a colour is one, and none is one twice.

ghost use Rattle.std.specs.Prelude.{◌≡◌, ◌+◌, ◌*◌, ◌<◌, ◌&&◌, ◌++◌, ◌∷◌, [], All, Err, IfNone, IfOk, IfSome, IsTrue};
ghost use Rattle.std.specs.Prelude.{List as Items, Ok, false, length, map, nat_lt, not, slice_index_or, slice_set, true};
ghost use Rattle.xm_check.specs.Break as broken;
ghost use Rattle.xm_check.specs.Inner.Marked.{AreMarks, are_marked_at};
ghost use Rattle.xm_colours.specs.Family.{colours_at};
ghost use Rattle.xm_lits.specs.Inference as inference;
ghost use Rattle.xm_lits.specs.Paths as paths;
ghost use Rattle.xm_lits.specs.declared.literal.Lit.{Lit as Literal};
ghost use Rattle.xm_lits.specs.declared.literal.Lit.TheVariants as lit;
ghost use Rattle.xm_proof.specs.Tests.{move_columns};
ghost use Rattle.xm_proof.specs.Valid as spec;
ghost use Rattle.xm_proof.specs.declared.verdict.ProofPath.TheVariants as place;
ghost use Rattle.xm_proof.specs.declared.verdict.Reason.TheVariants as reason;

use std::alloc::Global;
use xm_design::Design;
use xm_flow::set_of;
use xm_lits::{Lit, has_colour};
use xm_model::{List, OutOfMemory};
use xm_proof::Goal;

/// Marks of pairs, none of which is marked.
pub fn no_marks(alloc: Global, design: &Design) -> Result<List<bool>, OutOfMemory>
    ensures { IfOk result (λ marks. AreMarks design.now.net.channels [] marks.items) }
{
    let net = design.net();
    net.is_net();
    List::filled(alloc, false, net.channels() * 64)
}

/// Marks the pair, and tells whether it was unmarked.
fn mark(marks: &mut [bool], channel: u32, colour: u8) -> bool
    requires { 64 * channel + colour < length marks.old }
    ensures unmarked { result ≡ not (slice_index_or marks.old (64 * channel + colour) false) }
    ensures marked { marks.new ≡ slice_set marks.old (64 * channel + colour) true }
{
    let place = 64 * channel as usize + usize::from(colour);
    let was_marked = marks[place];
    marks[place] = true;
    !was_marked
}

/// Whether the colour is one of the channel's.
fn is_pair(design: &Design, channel: u32, colour: u8) -> bool
    ensures pair { result ≡ (nat_lt channel design.now.net.channels
        && inference.has_colour (colours_at design.now.colours channel) colour) }
    ensures channel { IsTrue result → channel < design.now.net.channels }
    ensures colour { IsTrue result → colour < 64 }
{
    let net = design.net();
    net.is_net();
    let _known = design.colours();
    if channel >= net.channels() {
        return false;
    }
    has_colour(design, channel, colour)
}

/// Marks the goal, and tells whether it says that a pair is dead and was unmarked.
fn mark_goal(design: &Design, marks: &mut [bool], goal: &Lit) -> bool
    requires { length marks.old ≡ 64 * design.now.net.channels }
    ensures fresh { (before : Items Literal) → AreMarks design.now.net.channels before marks.old
        → result ≡ (spec.is_dead_pair design.now goal.now && not (paths.is_on_path before goal.now)) }
    ensures marked { (before : Items Literal) → AreMarks design.now.net.channels before marks.old
        → IsTrue result → AreMarks design.now.net.channels (before ++ goal.now ∷ []) marks.new }
    ensures whole { length marks.new ≡ length marks.old }
{
    match *goal {
        Lit::Dead(channel, colour) => {
            if !is_pair(design, channel, colour) {
                return false;
            }
            mark(marks, channel, colour)
        }
        _ => false,
    }
}

/// Marks the goals in order. It gives the first that says of no pair that it is dead, or of one that was marked.
pub fn mark_goals(design: &Design, marks: &mut [bool], goals: &[Goal]) -> Option<u32>
    requires marks { AreMarks design.now.net.channels [] marks.old }
    requires few { length goals.now < 4294967296 }
    ensures none { IfNone result (broken.goals_test design.now [] 0 (map (λ goal. goal.lit) goals.now) ≡ Ok tt) }
    ensures marked { IfNone result (AreMarks design.now.net.channels (map (λ goal. goal.lit) goals.now) marks.new) }
    ensures some { IfSome result (λ k. broken.goals_test design.now [] 0 (map (λ goal. goal.lit) goals.now)
        ≡ Err (place.Goal k, reason.Goal)) }
{
    for k in 0..goals.len() {
        if !mark_goal(design, marks, &goals[k].lit) {
            return Some(k as u32);
        }
    }
    None
}

/// Whether each of the colours of the channel has its mark.
fn are_marked(marks: &[bool], channel: u32, colours: &[u8]) -> bool
    requires { All (λ d. 64 * channel + d < length marks.now) colours.now }
    ensures { result ≡ are_marked_at marks.now channel colours.now }
{
    for k in 0..colours.len() {
        if !marks[64 * channel as usize + usize::from(colours[k])] {
            return false;
        }
    }
    true
}

/// Whether each pair of the channel is marked.
fn is_channel_marked(
    alloc: Global,
    design: &Design,
    marks: &[bool],
    channel: u32,
) -> Result<bool, OutOfMemory>
    requires whole { length marks.now ≡ 64 * design.now.net.channels }
    requires channel { channel < design.now.net.channels }
    ensures { (before : Items Literal) → AreMarks design.now.net.channels before marks.now
        → IfOk result (λ all. all
        ≡ spec.all_goals before (map (λ d. (channel, d)) (colours_at design.now.colours channel))) }
{
    let net = design.net();
    net.is_net();
    let set = set_of(alloc, design, channel)?;
    Ok(are_marked(marks, channel, set.as_slice()))
}

/// Whether every pair is marked.
pub fn all_marked(alloc: Global, design: &Design, marks: &[bool]) -> Result<bool, OutOfMemory>
    requires { length marks.now ≡ 64 * design.now.net.channels }
    ensures { (before : Items Literal) → AreMarks design.now.net.channels before marks.now
        → IfOk result (λ all. all ≡ spec.all_goals before (move_columns design.now)) }
{
    let channels = design.net().channels();
    for channel in (0..channels).rev() {
        if !is_channel_marked(alloc, design, marks, channel)? {
            return Ok(false);
        }
    }
    Ok(true)
}
