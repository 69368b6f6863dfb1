//! The command that clap reads the words by.

ghost use Rattle.std.specs.Prelude.{◌≡◌, [], take, IfOk};
ghost use Rattle.clap.specs.Simple.{app_of, with_rule};
ghost use Rattle.xm_options.specs.Inner.Command.{command_with, rule_for};
ghost use Rattle.xm_options.specs.Names.{name_of};

use crate::option::LongOption;
use clap::{Arg, ArgAction, Command};
use std::alloc::{AllocError, Global};

fn command_without_options<'a>(alloc: Global) -> Command<'a>
    ensures { app_of result ≡ command_with [] }
{
    Command::new(alloc, "options")
        .no_binary_name(true)
        .disable_help_flag(true)
        .disable_version_flag(true)
}

fn with_option<'a>(
    alloc: Global,
    command: Command<'a>,
    option: &LongOption,
) -> Result<Command<'a>, AllocError>
    ensures { IfOk result (λ more. app_of more
        ≡ with_rule (app_of command.entry) (rule_for (name_of option.now.name))) }
{
    let option = Arg::new(alloc, option.name.text())
        .long(option.name.text())
        .action(ArgAction::Set);
    command.arg(option)
}

/// The command with these options, and no flags of clap's own.
pub(crate) fn command_of<'a>(
    alloc: Global,
    options: &[LongOption],
) -> Result<Command<'a>, AllocError>
    ensures { IfOk result (λ command. app_of command ≡ command_with options.now) }
{
    let mut command = command_without_options(alloc);
    for option in options {
        command = with_option(alloc, command, option)?;
    }
    Ok(command)
}
