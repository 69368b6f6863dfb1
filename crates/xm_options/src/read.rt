//! The values of the options that words give.

ghost use Rattle.std.specs.Prelude.{◌≡◌, true, false, map, IfOk, IfSome, length, MatchOption, option_map};
ghost use Rattle.std.specs.List.{list_all, list_any};
ghost use Rattle.clap.specs.Matches.{found_of, first_value};
ghost use Rattle.xm_model.specs.Naming.{texts_of};
ghost use Rattle.xm_options.specs.Grammar.{AreWithin, NoOptions, options_in, values_of as values_by};
ghost use Rattle.xm_options.specs.Inner.Words.{is_plain, is_dashes};

use crate::command::command_of;
use crate::number::number_in;
use crate::option::LongOption;
use clap::ArgMatches;
use clap::error::ErrorKind;
use std::alloc::Global;
use xm_model::{List, OutOfMemory, Text};

/// The word as a text that clap may be given: it is UTF-8, and not two dashes alone.
fn plain_word(word: &Text) -> Option<&str>
    ensures { MatchOption result (is_plain word.now.items ≡ false)
        (λ text. (is_plain word.now.items ≡ true) × (text.now ≡ word.now.items)) }
{
    match str::from_utf8(word.as_bytes()) {
        Ok(text) => if text == "--" { None } else { Some(text) },
        Err(_) => None,
    }
}

/// All words as texts that clap may be given.
fn plain_words<'a>(alloc: Global, words: &'a [Text]) -> Result<Option<Vec<&'a str>>, OutOfMemory>
    ensures { IfOk result (λ plain. MatchOption plain
        (list_all (λ word. is_plain word.items) words.now ≡ false)
        (λ texts. (list_all (λ word. is_plain word.items) words.now ≡ true)
        × (map (λ text. text.now) texts.items ≡ texts_of words.now))) }
{
    let mut texts = Vec::new(alloc);
    for word in words {
        match plain_word(word) {
            Some(text) => texts.push(text)?,
            None => return Ok(None),
        }
    }
    Ok(Some(texts))
}

/// The values by the texts that clap has found.
fn values_of(
    alloc: Global,
    options: &[LongOption],
    matches: &ArgMatches,
) -> Result<Option<List<Option<u64>>>, OutOfMemory>
    ensures { IfOk result (λ values. option_map (λ list. list.items) values
        ≡ values_by (first_value (found_of matches.now)) options.now) }
{
    let mut values = List::new(alloc);
    for option in options {
        let value = match matches.get_str(option.name.text()) {
            Some(text) => match number_in(option, text) {
                Some(number) => Some(number),
                None => return Ok(None),
            },
            None if option.wanted => return Ok(None),
            None => None,
        };
        values.push(value)?;
    }
    Ok(Some(values))
}

/// The values that the words give.
fn read_plain(
    alloc: Global,
    options: &[LongOption],
    words: &[&str],
) -> Result<Option<List<Option<u64>>>, OutOfMemory>
    requires { list_any is_dashes (map (λ word. word.now) words.now) ≡ false }
    ensures { IfOk result (λ answer. option_map (λ values. values.items) answer
        ≡ options_in options.now (map (λ word. word.now) words.now)) }
{
    let command = command_of(alloc, options)?;
    match command.try_get_matches_from(words) {
        Ok(matches) => values_of(alloc, options, &matches),
        Err(error) => match error.kind() {
            ErrorKind::OutOfMemory => Err(OutOfMemory),
            _ => Ok(None),
        },
    }
}

/// The value of each option, in the order of `options`, where the words are of the grammar, and `None` where they
/// are not. With no options the words are of the grammar exactly where there are none. A word that is no UTF-8 is
/// not of the grammar. The time grows with the words times the options.
pub fn read_options(
    alloc: Global,
    options: &[LongOption],
    words: &[Text],
) -> Result<Option<List<Option<u64>>>, OutOfMemory>
    ensures exact { IfOk result (λ answer. option_map (λ values. values.items) answer
        ≡ options_in options.now (texts_of words.now)) }
    ensures each { IfOk result (λ answer. IfSome answer (λ values.
        length values.items ≡ length options.now)) }
    ensures within { IfOk result (λ answer. IfSome answer (λ values.
        AreWithin options.now values.items)) }
{
    match plain_words(alloc, words)? {
        Some(plain) => read_plain(alloc, options, &plain),
        None => Ok(None),
    }
}

/// The law of a command without options: its words are of the grammar exactly where there are none.
pub fn no_options()
    ensures { NoOptions }
{}
