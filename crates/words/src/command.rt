//! The grammar of a program, as a command of `clap`.

ghost use Rattle.std.specs.Prelude.{◌≡◌, IfOk, false, map};
ghost use Rattle.std.specs.List.{fold};
ghost use Rattle.clap.specs.Words.{app_of, rule_of, with_rule};
ghost use Rattle.words.specs.Commands.{app_for, argument_of, grammar_of};
ghost use Rattle.words.specs.Texts.{texts};

use clap::{Arg, ArgAction, Command};
use std::alloc::{AllocError, Global};

/// The names that a program takes among its words.
#[derive(Clone, Copy)]
pub struct Names<'b, 'a> {
    /// The options that take a value.
    pub options: &'b [&'a str],
    /// The options that take none.
    pub flags: &'b [&'a str],
    /// The positional words, in their order.
    pub places: &'b [&'a str],
}

/// How a name stands among the words.
#[derive(Clone, Copy)]
pub enum Form {
    /// `--name` with a value.
    Option,
    /// `--name` without one.
    Flag,
    /// A positional word.
    Place,
}

/// The command of a program: an argument for each of its names, and no help of `clap`'s own.
pub fn command_for<'a>(
    alloc: Global,
    program: &'a str,
    names: Names<'_, 'a>,
) -> Result<Command<'a>, AllocError>
    ensures { IfOk result (λ r. app_of r ≡ app_for program.entry.now (grammar_of names.entry)) }
{
    let command = Command::new(alloc, program).disable_help_flag(true);
    let command = with_arguments(alloc, command, Form::Option, names.options)?;
    let command = with_arguments(alloc, command, Form::Flag, names.flags)?;
    with_arguments(alloc, command, Form::Place, names.places)
}

// The command with an argument of this form for each name, behind its own.
fn with_arguments<'a>(
    alloc: Global,
    mut command: Command<'a>,
    form: Form,
    names: &[&'a str],
) -> Result<Command<'a>, AllocError>
    ensures { IfOk result (λ r. app_of r
        ≡ fold with_rule (app_of command.entry) (map (argument_of form) (texts names.now))) }
{
    for name in names {
        command = command.arg(argument(alloc, form, name))?;
    }
    Ok(command)
}

// The argument of a name; `clap` knows it by that name too.
fn argument<'a>(alloc: Global, form: Form, name: &'a str) -> Arg<'a>
    ensures rule { rule_of result ≡ argument_of form name.entry.now }
    ensures local { result.global ≡ false }
{
    let argument = Arg::new(alloc, name);
    match form {
        Form::Option => argument.long(name).action(ArgAction::Set),
        Form::Flag => argument.long(name).action(ArgAction::SetTrue),
        Form::Place => argument,
    }
}
