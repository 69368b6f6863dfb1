//! Words that the grammar of options takes, with their values, and words that it refuses.

use super::helpers::words_in;
use std::alloc::Global;
use xm_model::{List, OutOfMemory, Text};
use xm_options::{LongOption, OptionName, no_options, read_options};

fn option(name: OptionName, low: u64, high: u64, wanted: bool) -> LongOption {
    LongOption {
        name,
        low,
        high,
        wanted,
    }
}

fn budget() -> [LongOption; 1] {
    [option(OptionName::Budget, 1, 10_000_000, false)]
}

fn parts() -> [LongOption; 3] {
    [
        option(OptionName::Parts, 1, 64, true),
        option(OptionName::Workers, 1, 64, true),
        option(OptionName::Watch, 0, 10_000, false),
    ]
}

/// The options that there are.
#[derive(Clone, Copy)]
enum Grammar {
    Budget,
    Parts,
    Nothing,
}

fn read(
    alloc: Global,
    grammar: Grammar,
    words: &[Text],
) -> Result<Option<List<Option<u64>>>, OutOfMemory> {
    match grammar {
        Grammar::Budget => read_options(alloc, &budget(), words),
        Grammar::Parts => read_options(alloc, &parts(), words),
        Grammar::Nothing => read_options(alloc, &[], words),
    }
}

/// Whether the words have just these values, or are refused where none are wanted.
fn have(alloc: Global, grammar: Grammar, words: &[Text], wanted: Option<&[Option<u64>]>) -> bool {
    match (read(alloc, grammar, words), wanted) {
        (Ok(Some(values)), Some(wanted)) => values.as_slice() == wanted,
        (Ok(None), None) => true,
        _ => false,
    }
}

fn is_taken(alloc: Global, grammar: Grammar, line: &str, wanted: &[Option<u64>]) -> bool {
    let words = words_in(alloc, line);
    words.is_ok_and(|words| have(alloc, grammar, words.as_slice(), Some(wanted)))
}

fn is_refused(alloc: Global, grammar: Grammar, line: &str) -> bool {
    words_in(alloc, line).is_ok_and(|words| have(alloc, grammar, words.as_slice(), None))
}

fn are_refused(alloc: Global, grammar: Grammar, lines: &[&str]) -> bool {
    lines.iter().all(|line| is_refused(alloc, grammar, line))
}

/// Words, and the value of the budget that they give.
const TAKEN: [(&str, Option<u64>); 5] = [
    ("", None),
    ("--budget 5", Some(5)),
    ("--budget=5", Some(5)),
    ("--budget 1", Some(1)),
    ("--budget 10000000", Some(10_000_000)),
];

fn all_are_taken(alloc: Global) -> bool {
    TAKEN
        .iter()
        .all(|case| is_taken(alloc, Grammar::Budget, case.0, &[case.1]))
}

#[test]
fn one_option_is_taken_in_two_forms(rt: HostRuntime) {
    assert!(rt; all_are_taken(rt.alloc()));
}

const REFUSED: [&str; 27] = [
    "--budget 07",
    "--budget 5 --budget 5",
    "--budget=5 --budget 6",
    "--budget",
    "--budget=",
    "--budget -",
    "--budget -5",
    "--budget +5",
    "--budget 5a",
    "--budget 0",
    "--budget 10000001",
    "--budget 18446744073709551617",
    "--",
    "--budget --",
    "--budget 5 --",
    "-- --budget 5",
    "-h",
    "--help",
    "help",
    "-budget 5",
    "--bud 5",
    "--budget5",
    "--=5",
    "x",
    "--budget 5 x",
    "x --budget 5",
    "--budget --budget 5",
];

#[test]
fn other_words_are_refused(rt: HostRuntime) {
    assert!(rt; are_refused(rt.alloc(), Grammar::Budget, &REFUSED));
}

/// Words, and the values of the three options that they give.
const TAKEN_BY_THREE: [(&str, [Option<u64>; 3]); 4] = [
    ("--parts 2 --workers=3", [Some(2), Some(3), None]),
    ("--workers=3 --parts 2", [Some(2), Some(3), None]),
    (
        "--watch 0 --parts 1 --workers 64",
        [Some(1), Some(64), Some(0)],
    ),
    (
        "--watch=10000 --parts=64 --workers 1",
        [Some(64), Some(1), Some(10_000)],
    ),
];

/// Words that the three options refuse, of which the first two are wanted.
const REFUSED_BY_THREE: [&str; 4] = [
    "",
    "--parts 2",
    "--watch 1 --workers 2",
    "--parts 0 --workers 1",
];

fn all_three_are_taken(alloc: Global) -> bool {
    TAKEN_BY_THREE
        .iter()
        .all(|case| is_taken(alloc, Grammar::Parts, case.0, &case.1))
}

#[test]
fn options_come_in_any_order(rt: HostRuntime) {
    assert!(rt; all_three_are_taken(rt.alloc()));
    assert!(rt; are_refused(rt.alloc(), Grammar::Parts, &REFUSED_BY_THREE));
}

const NO_OPTIONS: [&str; 6] = ["x", "--", "help", "--help", "-h", "--budget 5"];

fn none_are_taken(alloc: Global) -> bool {
    no_options();
    is_taken(alloc, Grammar::Nothing, "", &[]) && are_refused(alloc, Grammar::Nothing, &NO_OPTIONS)
}

#[test]
fn without_options_no_words_are_taken(rt: HostRuntime) {
    assert!(rt; none_are_taken(rt.alloc()));
}

/// The one word `--budget=`, with a byte behind it that is no UTF-8.
fn no_text(alloc: Global) -> Result<List<Text>, OutOfMemory> {
    let mut words = List::new(alloc);
    words.push(Text::from_bytes(alloc, b"--budget=\xff".as_slice())?)?;
    Ok(words)
}

fn no_text_is_refused(alloc: Global) -> bool {
    no_text(alloc).is_ok_and(|words| have(alloc, Grammar::Budget, words.as_slice(), None))
}

#[test]
fn a_word_that_is_no_text_is_refused(rt: HostRuntime) {
    assert!(rt; no_text_is_refused(rt.alloc()));
}
