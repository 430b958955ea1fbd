//! The arguments of a command, and how `clap` is told of them.

ghost use Rattle.std.specs.Prelude.{IfOk, map};
ghost use Rattle.clap.specs.Words.{App, new_app};
ghost use Rattle.settings_core.specs.Program.{IsCommand, IsWord, number, valued, with_rules};
ghost use Rattle.settings_core.specs.Rules.{rule};

use clap::builder::ValueParser;
use clap::{Arg, ArgAction};
use std::alloc::{AllocError, Global};

/// An argument of a command. `value` says how help shows its value, `default` what stands for it if it is not given.
#[derive(Clone, Copy)]
pub(crate) enum Argument<'a> {
    /// A value without a name, and whether it must be given.
    Placed {
        id: &'a str,
        must: bool,
        help: &'a str,
    },
    /// A name without a value.
    Flag {
        name: &'a str,
        help: &'a str,
    },
    /// A name with a value.
    Valued {
        name: &'a str,
        value: &'a str,
        help: &'a str,
    },
    /// A name with a value that has a default.
    ValuedOr {
        name: &'a str,
        value: &'a str,
        default: &'a str,
        help: &'a str,
    },
    /// A name with a number of this span.
    Number {
        name: &'a str,
        value: &'a str,
        least: u32,
        most: u32,
        help: &'a str,
    },
    /// A name with such a number that has a default.
    NumberOr {
        name: &'a str,
        value: &'a str,
        least: u32,
        most: u32,
        default: &'a str,
        help: &'a str,
    },
}

/// What `clap` is told of a name with a value.
fn valued<'a>(alloc: Global, name: &'a str, value: &'a str, help: &'a str) -> Arg<'a>
    ensures { IsWord (valued name.entry.now) result }
{
    Arg::new(alloc, name)
        .long(name)
        .value_name(value)
        .help(help)
}

/// What `clap` is told of a name with a number.
fn numbered<'a>(
    alloc: Global,
    name: &'a str,
    value: &'a str,
    least: u32,
    most: u32,
    help: &'a str,
) -> Arg<'a>
    ensures { IsWord (number name.entry.now least most) result }
{
    valued(alloc, name, value, help).value_parser(ValueParser::signed(
        i64::from(least),
        i64::from(most),
    ))
}

/// What `clap` is told of an argument.
fn arg_of<'a>(alloc: Global, argument: &Argument<'a>) -> Arg<'a>
    ensures { IsWord (rule argument.now) result }
{
    match *argument {
        Argument::Placed { id, must, help } => Arg::new(alloc, id).help(help).required(must),
        Argument::Flag { name, help } => Arg::new(alloc, name)
            .long(name)
            .help(help)
            .action(ArgAction::SetTrue),
        Argument::Valued { name, value, help } => valued(alloc, name, value, help),
        Argument::ValuedOr {
            name,
            value,
            default,
            help,
        } => { valued(alloc, name, value, help).default_value(default) }
        Argument::Number {
            name,
            value,
            least,
            most,
            help,
        } => { numbered(alloc, name, value, least, most, help) }
        Argument::NumberOr {
            name,
            value,
            least,
            most,
            default,
            help,
        } => { numbered(alloc, name, value, least, most, help).default_value(default) }
    }
}

/// The command with these arguments too, in this order.
pub(crate) fn with_arguments<'a>(
    alloc: Global,
    command: clap::Command<'a>,
    arguments: &[Argument<'a>],
) -> Result<clap::Command<'a>, AllocError>
    ensures { (before : App) → IsCommand before command.entry
        → IfOk result (IsCommand (with_rules before (map rule arguments.now))) }
{
    let mut command = command;
    for argument in arguments {
        command = command.arg(arg_of(alloc, argument))?;
    }
    Ok(command)
}

/// The command of this name with these arguments alone.
pub(crate) fn command_of<'a>(
    alloc: Global,
    name: &'a str,
    about: &'a str,
    arguments: &[Argument<'a>],
) -> Result<clap::Command<'a>, AllocError>
    ensures { IfOk result (IsCommand (with_rules (new_app name.entry.now) (map rule arguments.now))) }
{
    with_arguments(
        alloc,
        clap::Command::new(alloc, name).about(about),
        arguments,
    )
}
