//! Commands by their words.

use clap::error::ErrorKind;
use clap::{Arg, ArgAction, ArgMatches, Command};
use std::alloc::{AllocError, Global};
use std::convert::AsStr;

/// Why the words are no request.
#[derive(Clone, Copy)]
pub enum WordsFault {
    /// They are not as the usage says, or ask for help.
    Usage,
    /// Memory was refused.
    OutOfMemory,
}

/// A command of a program.
pub struct Form<'a> {
    /// The word that asks for it.
    pub name: &'a str,
    /// What follows that word: names of files, and words with two hyphens, which may be left out.
    pub words: &'a [&'a str],
}

/// What the words after a program's name say, if it has these commands.
///
/// # Errors
///
/// The words are no request, or memory is refused.
pub fn matches<'a, S: AsStr>(
    alloc: Global,
    name: &'a str,
    forms: &'a [Form<'a>],
    words: &'a [S],
) -> Result<ArgMatches<'a>, WordsFault> {
    let program = match program(alloc, name, forms) {
        Ok(program) => program,
        Err(_) => return Err(WordsFault::OutOfMemory),
    };
    match program.try_get_matches_from(words) {
        Ok(matches) => Ok(matches),
        Err(error) if error.kind() == ErrorKind::OutOfMemory => Err(WordsFault::OutOfMemory),
        Err(_) => Err(WordsFault::Usage),
    }
}

/// A program of these commands.
fn program<'a>(
    alloc: Global,
    name: &'a str,
    forms: &'a [Form<'a>],
) -> Result<Command<'a>, AllocError> {
    let mut program = Command::new(alloc, name)
        .no_binary_name(true)
        .subcommand_required(true);
    for form in forms {
        let command = command(alloc, form)?;
        program = program.subcommand(command)?;
    }
    Ok(program)
}

/// A command of this form.
fn command<'a>(alloc: Global, form: &Form<'a>) -> Result<Command<'a>, AllocError> {
    let mut command = Command::new(alloc, form.name);
    for word in form.words {
        command = command.arg(argument(alloc, word))?;
    }
    Ok(command)
}

/// The name of a file, which has to be there, or after two hyphens a word that may be there once.
fn argument<'a>(alloc: Global, name: &'a str) -> Arg<'a> {
    match name.strip_prefix("--") {
        Some(flag) => Arg::new(alloc, flag).long(flag).action(ArgAction::SetTrue),
        None => Arg::new(alloc, name).required(true),
    }
}
