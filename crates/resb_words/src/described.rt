//! How a command and its arguments are described, and what the library `clap` makes of that.
//! Which commands there are is in `command`.
use clap::{Arg, ArgAction, Command};
use std::alloc::{AllocError, Global};

/// A command, by what is said of it and by its arguments.
#[derive(Clone, Copy)]
pub(crate) struct Described<'w> {
    /// The command's name.
    pub name: &'w str,
    /// Its version, where that may be asked for.
    pub version: Option<&'w str>,
    /// The line that says what it does.
    pub about: &'w str,
    /// The line behind all others.
    pub example: &'w str,
    /// The arguments, in the order in which they are shown.
    pub arguments: &'w [Argument<'w>],
}

/// What words an argument takes.
#[derive(Clone, Copy)]
pub(crate) enum Takes {
    /// One word, which has to be there, without an option before it.
    Word,
    /// One or more words, which have to be there, without an option before them.
    Words,
    /// None: the option is there or not.
    Nothing,
    /// The word behind the option.
    Value,
    /// The word behind the option, which may be left out, and the option may come again.
    AtMostOne,
    /// The word behind the option, which may be left out. The option may come again, and isn't
    /// shown.
    Hidden,
    /// None: the option asks for help, and isn't shown.
    Help,
}

/// An argument of a command.
#[derive(Clone, Copy)]
pub(crate) struct Argument<'w> {
    /// What it takes.
    pub takes: Takes,
    /// The name by which it is asked for, and that of its value where no other is said.
    pub id: &'w str,
    /// The letter of the option, if it has one.
    pub letter: Option<char>,
    /// The word of the option, if it is one.
    pub option: Option<&'w str>,
    /// The name of its value, if that isn't the argument's own.
    pub value: Option<&'w str>,
    /// What is said of it.
    pub help: &'w str,
    /// The argument with which it doesn't go, if there is one.
    pub against: Option<&'w str>,
}

/// An argument of one word.
pub(crate) const WORD: Argument<'static> = Argument {
    takes: Takes::Word,
    id: "",
    letter: None,
    option: None,
    value: None,
    help: "",
    against: None,
};

/// An argument of one or more words.
pub(crate) const WORDS: Argument<'static> = Argument {
    takes: Takes::Words,
    ..WORD
};

/// An option without a value.
pub(crate) const FLAG: Argument<'static> = Argument {
    takes: Takes::Nothing,
    ..WORD
};

/// An option with a value.
pub(crate) const VALUE: Argument<'static> = Argument {
    takes: Takes::Value,
    ..WORD
};

/// The command that is described.
pub(crate) fn command_of<'a>(
    alloc: Global,
    described: &Described<'a>,
) -> Result<Command<'a>, AllocError> {
    let mut command = Command::new(alloc, described.name)
        .about(described.about)
        .after_help(described.example);
    if let Some(version) = described.version {
        // a tool of ICU's, for which the last of an option's values counts
        command = command.version(version).args_override_self(true);
    }
    for argument in described.arguments {
        command = with_argument(alloc, command, argument)?;
    }
    Ok(command)
}

/// The command with one argument more.
fn with_argument<'a>(
    alloc: Global,
    command: Command<'a>,
    argument: &Argument<'a>,
) -> Result<Command<'a>, AllocError> {
    match argument.against {
        Some(other) => command.arg(made(alloc, argument).conflicts_with(other)?),
        None => command.arg(made(alloc, argument)),
    }
}

/// The argument that is described, whatever it goes with.
fn made<'a>(alloc: Global, argument: &Argument<'a>) -> Arg<'a> {
    let arg = Arg::new(alloc, argument.id).help(argument.help);
    taking(spelled(arg, argument), argument.takes)
}

/// The argument with its letter, its word and the name of its value.
fn spelled<'a>(mut arg: Arg<'a>, argument: &Argument<'a>) -> Arg<'a> {
    if let Some(letter) = argument.letter {
        arg = arg.short(letter);
    }
    if let Some(option) = argument.option {
        arg = arg.long(option);
    }
    if let Some(value) = argument.value {
        arg = arg.value_name(value);
    }
    arg
}

/// The argument with the words that it takes.
fn taking(arg: Arg<'_>, takes: Takes) -> Arg<'_> {
    match takes {
        Takes::Word => arg.required(true),
        Takes::Words => arg.required(true).action(ArgAction::Append).num_args(1..),
        Takes::Nothing => arg.action(ArgAction::SetTrue),
        Takes::Value => arg,
        Takes::AtMostOne => arg.num_args(0..=1).action(ArgAction::Append),
        Takes::Hidden => arg.num_args(0..=1).action(ArgAction::Append).hide(true),
        Takes::Help => arg.action(ArgAction::Help).hide(true),
    }
}
