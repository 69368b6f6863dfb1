//! The boards of the tests.

ghost use Rattle.std.specs.Prelude.{◌≡◌, ◌<◌, ◌≤◌, IfSome};
ghost use Rattle.xm_tape.specs.Taped.{Fits};

use super::orders::orders_that_agree;
use super::rounds::are_rounds;
use super::takes::{go_and_stop, goes_out_again, run_ahead};
use std::alloc::Global;
use xm_board::Board;
use xm_design::Design;
use xm_model::{OutOfMemory, SinkMode, SourceMode};
use xm_parts::Parts;
use xm_step::Evaluator;
use xm_tape::Tape;
use xm_tests_nets::{Piece, QUEUES, ROW, X, design_of};
use xm_trace::{Move, Trace, run_all};

/// Two queues in a row: a net of 3 channels and 1 colour.
const PAIR: [Piece; 4] = [
    Piece::Source(0, &[X], SourceMode::Keep),
    Piece::Queue(0, 1, 1, &[]),
    Piece::Queue(1, 2, 1, &[]),
    Piece::Sink(2, SinkMode::Keep),
];

/// What is done with a board.
#[derive(Clone, Copy)]
enum Case {
    GoAndStop,
    GoOutAgain,
    RunAhead,
    Rounds,
    Orders,
}

/// How many orders three parts in a row have for two cycles, counted by a program of its own over the parts' cycles.
const ORDERS: u32 = 9270;

fn goes_and_stops(alloc: Global, design: &Design, tape: &Tape, parts: &Parts) -> bool
    requires design { parts.now.design ≡ design.now }
    requires fits { Fits design.now.net tape.now }
{
    if tape.cycles() < 2 {
        return false;
    }
    match Board::new(alloc, design, tape, parts, 1) {
        Ok(mut board) => go_and_stop(alloc, &mut board),
        Err(OutOfMemory) => false,
    }
}

fn goes_again(alloc: Global, design: &Design, tape: &Tape, parts: &Parts) -> bool
    requires design { parts.now.design ≡ design.now }
    requires fits { Fits design.now.net tape.now }
{
    if tape.cycles() < 2 {
        return false;
    }
    match Board::new(alloc, design, tape, parts, 1) {
        Ok(mut board) => goes_out_again(alloc, &mut board),
        Err(OutOfMemory) => false,
    }
}

fn runs_ahead(alloc: Global, design: &Design, tape: &Tape, parts: &Parts) -> bool
    requires design { parts.now.design ≡ design.now }
    requires fits { Fits design.now.net tape.now }
{
    if tape.cycles() < 10 || parts.count() != 5 {
        return false;
    }
    match Board::new(alloc, design, tape, parts, 9) {
        Ok(mut board) => run_ahead(alloc, &mut board),
        Err(OutOfMemory) => false,
    }
}

fn goes_in_rounds(
    alloc: Global,
    design: &Design,
    tape: &Tape,
    parts: &Parts,
    whole: &[Move],
) -> bool
    requires design { parts.now.design ≡ design.now }
    requires fits { Fits design.now.net tape.now }
{
    if tape.cycles() < 2500 {
        return false;
    }
    match Board::new(alloc, design, tape, parts, 1023) {
        Ok(mut board) => are_rounds(alloc, &mut board, whole),
        Err(OutOfMemory) => false,
    }
}

fn goes_in_all_orders(
    alloc: Global,
    design: &Design,
    tape: &Tape,
    parts: &Parts,
    whole: &[Move],
) -> bool
    requires design { parts.now.design ≡ design.now }
    requires fits { Fits design.now.net tape.now }
{
    if tape.cycles() < 3 {
        return false;
    }
    orders_that_agree(alloc, design, tape, parts, whole) == Some(ORDERS)
}

/// The moves of the tape's run, which is short.
fn whole_of(alloc: Global, design: &Design, tape: &Tape) -> Option<Trace> {
    let net = design.net();
    net.is_net();
    if tape.cycles() > 10_000 {
        return None;
    }
    match Evaluator::new(alloc, design) {
        Ok(evaluator) => run_all(alloc, &evaluator, tape).ok(),
        Err(OutOfMemory) => None,
    }
}

/// Whether the case holds of these parts, under the tape whose run has these moves.
fn agrees(
    alloc: Global,
    design: &Design,
    tape: &Tape,
    parts: &Parts,
    whole: &[Move],
    case: Case,
) -> bool
    requires design { parts.now.design ≡ design.now }
    requires fits { Fits design.now.net tape.now }
{
    match case {
        Case::GoAndStop => goes_and_stops(alloc, design, tape, parts),
        Case::GoOutAgain => goes_again(alloc, design, tape, parts),
        Case::RunAhead => runs_ahead(alloc, design, tape, parts),
        Case::Rounds => goes_in_rounds(alloc, design, tape, parts, whole),
        Case::Orders => goes_in_all_orders(alloc, design, tape, parts, whole),
    }
}

/// A tape of the case. In a written one the source offers in each cycle, and the sink is ready.
fn tape_of(alloc: Global, design: &Design, case: Case) -> Option<Tape>
    ensures { IfSome result (Fits design.now.net) }
{
    let net = design.net();
    net.is_net();
    match case {
        Case::GoAndStop => Tape::written(alloc, design, &["01", ".."], &[], 0).ok(),
        Case::GoOutAgain => Tape::written(alloc, design, &["01", ".."], &[], 0).ok(),
        Case::RunAhead => Tape::seeded(alloc, design, 10, 1).ok(),
        Case::Rounds => Tape::seeded(alloc, design, 2500, 1).ok(),
        Case::Orders => Tape::written(alloc, design, &["01"], &["01"], 2).ok(),
    }
}

fn tape_holds(alloc: Global, design: &Design, tape: &Tape, parts: &Parts, case: Case) -> bool
    requires design { parts.now.design ≡ design.now }
    requires fits { Fits design.now.net tape.now }
{
    match whole_of(alloc, design, tape) {
        Some(whole) => agrees(alloc, design, tape, parts, whole.moves.as_slice(), case),
        None => false,
    }
}

fn parts_hold(alloc: Global, design: &Design, parts: &Parts, case: Case) -> bool
    requires { parts.now.design ≡ design.now }
{
    match tape_of(alloc, design, case) {
        Some(tape) => tape_holds(alloc, design, &tape, parts, case),
        None => false,
    }
}

fn design_holds(alloc: Global, design: &Design, count: u32, case: Case) -> bool
    requires some { 0 < count }
    requires few { count ≤ 64 }
{
    match Parts::balanced(alloc, design, count) {
        Ok(parts) => parts.count() == count && parts_hold(alloc, design, &parts, case),
        Err(OutOfMemory) => false,
    }
}

/// Whether the case holds of a net of one colour in so many parts.
fn holds(alloc: Global, pieces: &[Piece], channels: u32, count: u32, case: Case) -> bool
    requires some { 0 < count }
    requires few { count ≤ 64 }
{
    match design_of(alloc, pieces, channels, 1) {
        Some(design) => design_holds(alloc, &design, count, case),
        None => false,
    }
}

#[test]
fn two_parts_go_in_turn_and_show_the_packet_between_them(rt: HostRuntime) {
    assert!(rt; holds(rt.alloc(), &ROW, 2, 2, Case::GoAndStop));
}

#[test]
fn of_two_jobs_at_one_cycle_the_first_that_is_posted_counts(rt: HostRuntime) {
    assert!(rt; holds(rt.alloc(), &ROW, 2, 2, Case::GoOutAgain));
}

#[test]
fn parts_run_ahead_of_one_that_is_held_by_a_cycle_each(rt: HostRuntime) {
    assert!(rt; holds(rt.alloc(), &QUEUES, 5, 5, Case::RunAhead));
}

#[test]
fn the_moves_of_a_run_come_round_by_round(rt: HostRuntime) {
    assert!(rt; holds(rt.alloc(), &QUEUES, 5, 5, Case::Rounds));
}

#[test]
fn every_order_of_takes_and_posts_gives_one_trace(rt: HostRuntime) {
    assert!(rt; holds(rt.alloc(), &PAIR, 3, 3, Case::Orders));
}
