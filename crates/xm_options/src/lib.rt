//! The options behind a command, `--name value` or `--name=value`, read by clap.
//!
//! What is promised is a grammar of our own (`specs/Grammar.antt`), and clap reads by another and larger one, with
//! flags, positional words, subcommands and `--` alone. So there is much proof for little code: it shows that for the
//! command which is built here, and the words which are let through to it, clap finds what our grammar says.
#![tactic(auto)]

mod command;
mod number;
mod option;
mod read;

pub use option::{LongOption, OptionName};
pub use read::{no_options, read_options};
