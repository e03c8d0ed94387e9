// The command line, made of the forms of the subcommands.
use crate::accuracies::{AccuracyOption, HowMany};
use crate::forms::{ABOUT, Argument, EXAMPLE, FORMS, Operand, SubcommandForm};
use clap::{Arg, ArgAction, ArgMatches, Command, Error, value_parser};
use std::alloc::{AllocError, Global};

/// What the words of a command line give, of which the first names the program, with the options that
/// name a bound. The error is what help or a misuse prints.
pub(crate) fn matches<'a>(
    alloc: Global,
    accuracies: &'a [AccuracyOption],
    words: &'a [String],
) -> Result<ArgMatches<'a>, Error> {
    match command(alloc, accuracies) {
        Ok(command) => command.try_get_matches_from(words),
        Err(error) => Err(Error::from(error)),
    }
}

// The whole command.
fn command<'a>(alloc: Global, accuracies: &'a [AccuracyOption]) -> Result<Command<'a>, AllocError> {
    let mut command = top(alloc);
    for form in FORMS {
        command = command.subcommand(subcommand(alloc, accuracies, form)?)?;
    }
    Ok(command)
}

// The command without its subcommands.
fn top<'a>(alloc: Global) -> Command<'a> {
    described(alloc, "yabreznul", ABOUT, EXAMPLE).subcommand_required(true)
}

// A command without arguments.
fn described<'a>(alloc: Global, name: &'a str, about: &'a str, example: &'a str) -> Command<'a> {
    Command::new(alloc, name).about(about).after_help(example)
}

// The subcommand of a form.
fn subcommand<'a>(
    alloc: Global,
    accuracies: &'a [AccuracyOption],
    form: &SubcommandForm,
) -> Result<Command<'a>, AllocError> {
    let mut command = described(alloc, form.name, form.about, form.example);
    for argument in form.arguments {
        command = match argument.takes {
            Operand::Accuracies(value) => {
                with_accuracies(alloc, command, accuracies, value, HowMany::AtLeastOne)?
            }
            Operand::Accuracy(value) => {
                with_accuracies(alloc, command, accuracies, value, HowMany::AtMostOne)?
            }
            _ => command.arg(arg(alloc, argument)?)?,
        };
    }
    Ok(command)
}

// A command with the options that name bounds by their accuracies.
fn with_accuracies<'a>(
    alloc: Global,
    command: Command<'a>,
    accuracies: &'a [AccuracyOption],
    value: &'static str,
    how_many: HowMany,
) -> Result<Command<'a>, AllocError> {
    let mut command = command;
    for option in accuracies {
        command = command.arg(option.arg(alloc, value, how_many, accuracies)?)?;
    }
    Ok(command)
}

// An argument of a subcommand.
fn arg<'a>(alloc: Global, argument: &Argument) -> Result<Arg<'a>, AllocError> {
    let arg = named(alloc, argument);
    match argument.takes {
        Operand::Word(_) => Ok(arg),
        Operand::Words(_) => Ok(words(arg)),
        Operand::Text(_) => Ok(arg.long(argument.name)),
        Operand::Lettered(letter, _) => Ok(arg.long(argument.name).short(letter)),
        Operand::Number(_) | Operand::Accuracies(_) | Operand::Accuracy(_) => {
            Ok(number(arg, argument.name))
        }
        Operand::Nothing => Ok(flag(arg, argument.name)),
        Operand::NothingBeside(other) => flag(arg, argument.name).conflicts_with(other),
    }
}

// An argument with its name and what help says of it.
fn named<'a>(alloc: Global, argument: &Argument) -> Arg<'a> {
    let arg = Arg::new(alloc, argument.name)
        .help(argument.help)
        .required(argument.required);
    match value_name(argument.takes) {
        Some(name) => arg.value_name(name),
        None => arg,
    }
}

// What help calls a value.
fn value_name(takes: Operand) -> Option<&'static str> {
    match takes {
        Operand::Word(name)
        | Operand::Words(name)
        | Operand::Text(name)
        | Operand::Lettered(_, name)
        | Operand::Number(name)
        | Operand::Accuracies(name)
        | Operand::Accuracy(name) => Some(name),
        Operand::Nothing | Operand::NothingBeside(_) => None,
    }
}

fn words<'a>(arg: Arg<'a>) -> Arg<'a> {
    arg.action(ArgAction::Append).num_args(0..)
}

fn number<'a>(arg: Arg<'a>, name: &'a str) -> Arg<'a> {
    arg.long(name).value_parser(value_parser!(u32))
}

fn flag<'a>(arg: Arg<'a>, name: &'a str) -> Arg<'a> {
    arg.long(name).action(ArgAction::SetTrue)
}
