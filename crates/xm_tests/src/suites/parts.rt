//! Islands, balanced parts, labels that are given, and parts that make the whole.

ghost use Rattle.std.specs.Prelude.{◌≡◌, length};
ghost use Rattle.xm_model.specs.Next.{IsFittingState};
ghost use Rattle.xm_model.specs.Views.{content_at};

use super::nets::{MOVES_X, ONE_WAY_SWITCH, Piece, QUEUES, ROW, WAITS, X, design_of};
use std::alloc::Global;
use std::test::Fail;
use xm_design::Design;
use xm_model::{Choice, Frame, OutOfMemory, Side, SinkMode, SourceMode, State};
use xm_parts::{Glue, PartFault, Parts, Snapshot, fit_law, islands, project};
use xm_step::{Evaluator, blank, frame, reset};

/// A queue beside a function, whose two channels are linked by it: a net of 4 channels and 1 colour.
const BYPASSED: [Piece; 5] = [
    Piece::Source(0, &[X], SourceMode::Keep),
    Piece::Fork(0, 1, 2, &[X], &[X]),
    Piece::Queue(1, 3, 1, &[]),
    Piece::Join(2, 3, 4, Side::A),
    Piece::Sink(4, SinkMode::Keep),
];

fn has_islands(alloc: Global, design: &Design, wanted: &[u32]) -> bool {
    islands(alloc, design).is_ok_and(|found| found.as_slice() == wanted)
}

/// Whether the channels are in these parts.
fn are_in(design: &Design, parts: &Parts, wanted: &[u32]) -> bool
    requires { parts.now.design ≡ design.now }
{
    let count = design.net().channels();
    if wanted.len() != count as usize {
        return false;
    }
    for c in 0..count {
        if parts.of(c) != wanted[c as usize] {
            return false;
        }
    }
    true
}

/// Whether `balanced` puts the channels into these parts, of which there are so many.
fn balances(alloc: Global, design: &Design, most: u32, count: u32, wanted: &[u32]) -> bool {
    if most == 0 || most > 64 {
        return false;
    }
    match Parts::balanced(alloc, design, most) {
        Ok(parts) => parts.count() == count && are_in(design, &parts, wanted),
        Err(_) => false,
    }
}

fn faults(alloc: Global, design: &Design, labels: &[u8], wanted: PartFault) -> bool {
    match Parts::given(alloc, design, labels) {
        Ok(_) => false,
        Err(fault) => fault == wanted,
    }
}

/// Whether these labels of a net of one colour have this fault.
fn refuses(
    alloc: Global,
    pieces: &[Piece],
    channels: u32,
    labels: &[u8],
    wanted: PartFault,
) -> bool {
    let design = design_of(alloc, pieces, channels, 1);
    design.is_some_and(|design| faults(alloc, &design, labels, wanted))
}

#[test]
fn queues_cut_a_net_into_islands_but_where_other_paths_go_round_them(
    rt: HostRuntime,
) -> Result<(), Fail> {
    let alloc = rt.alloc();
    let row = design_of(alloc, &QUEUES, 5, 1).ok_or("no design")?;
    assert!(rt; has_islands(alloc, &row, &[0, 1, 2, 3, 4]));
    assert!(rt; balances(alloc, &row, 4, 4, &[0, 0, 1, 2, 3]));
    assert!(rt; balances(alloc, &row, 64, 5, &[0, 1, 2, 3, 4]));
    let bypassed = design_of(alloc, &BYPASSED, 5, 1).ok_or("no design")?;
    assert!(rt; has_islands(alloc, &bypassed, &[0, 0, 0, 0, 0]));
    assert!(rt; balances(alloc, &bypassed, 2, 1, &[0, 0, 0, 0, 0]));
    Ok(())
}

#[test]
fn labels_that_are_given_have_a_first_fault(rt: HostRuntime) {
    let alloc = rt.alloc();
    assert!(rt; refuses(alloc, &QUEUES, 5, &[0, 0, 1, 2], PartFault::Length(4)));
    assert!(rt;
        refuses(
            alloc,
            &QUEUES,
            5,
            &[0, 0, 64, 65, 3],
            PartFault::TooLarge(2)
        )
    );
    assert!(rt; refuses(alloc, &ONE_WAY_SWITCH, 3, &[0, 1, 0], PartFault::Split(1)));
}

/// The state and the frame, put together from the rows of two parts, of which one is a copy.
fn glued(
    alloc: Global,
    design: &Design,
    parts: &Parts,
    state: &State,
    frame: &Frame,
) -> Result<Snapshot, OutOfMemory>
    requires design { parts.now.design ≡ design.now }
    requires two { parts.now.count ≡ 2 }
    requires cells { length state.now.cells.items ≡ length design.now.net.prims }
    requires fitting { IsFittingState design.now.net (content_at state.now.cells.items) }
    requires wires { length frame.now.wires.items ≡ design.now.net.channels }
{
    fit_law();
    let left = project(alloc, design, parts, 0, state, frame)?;
    let right = project(alloc, design, parts, 1, state, frame)?;
    let again = right.copy(alloc, design)?;
    let mut glue = Glue::new(alloc, design)?;
    glue.at(7);
    glue.add(parts, 0, &left);
    glue.add(parts, 1, &again);
    Ok(glue.finish())
}

fn are_glued(alloc: Global, design: &Design, parts: &Parts) -> Result<bool, OutOfMemory>
    requires design { parts.now.design ≡ design.now }
    requires two { parts.now.count ≡ 2 }
{
    let evaluator = Evaluator::new(alloc, design)?;
    let state = reset(alloc, design)?;
    let mut wires = blank(alloc, design)?;
    let choices = [Choice::Offer(Some(X)), Choice::Ready(true)];
    frame(&evaluator, &state, &choices, &mut wires);
    let whole = glued(alloc, design, parts, &state, &wires)?;
    Ok(whole.cycle == 7 && whole.frame.wires.as_slice() == [MOVES_X, WAITS].as_slice())
}

fn glues(alloc: Global, design: &Design) -> Result<bool, OutOfMemory> {
    let parts = Parts::balanced(alloc, design, 2)?;
    if parts.count() != 2 {
        return Ok(false);
    }
    are_glued(alloc, design, &parts)
}

#[test]
fn two_parts_make_the_whole(rt: HostRuntime) {
    let design = design_of(rt.alloc(), &ROW, 2, 1);
    assert!(rt; design.is_some_and(|design| glues(rt.alloc(), &design).is_ok_and(|whole| whole)));
}
