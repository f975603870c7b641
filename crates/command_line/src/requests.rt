//! What the program is asked to do.

use crate::commands::{Form, WordsFault, matches};
use clap::ArgMatches;
use std::alloc::Global;
use std::convert::AsStr;

/// The commands of the program.
const COMMANDS: [Form<'_>; 3] = [
    Form {
        name: "verify",
        words: &["image"],
    },
    Form {
        name: "run",
        words: &["image", "events", "--unverified"],
    },
    Form {
        name: "build",
        words: &["source", "image"],
    },
];

/// What the program is asked to do, with the names of its files.
#[derive(Clone, Copy)]
pub enum Request<'a> {
    /// To say whether an image is accepted.
    Verify {
        image: &'a str,
    },
    /// To run an image over a list of events.
    Run {
        image: &'a str,
        events: &'a str,
        /// Whether the image runs without being verified.
        unverified: bool,
    },
    /// To build an image from its text.
    Build {
        source: &'a str,
        /// The file that gets the image.
        image: &'a str,
    },
}

/// The request that the words after the program's name make.
///
/// # Errors
///
/// The words are no request, or memory is refused.
pub fn parse<'a, S: AsStr>(alloc: Global, words: &'a [S]) -> Result<Request<'a>, WordsFault> {
    let matches = matches(alloc, "microsys", &COMMANDS, words)?;
    requested(&matches).ok_or(WordsFault::Usage)
}

/// The request of words that were taken. Each command has an image.
fn requested<'a>(matches: &ArgMatches<'a>) -> Option<Request<'a>> {
    let (name, matches) = matches.subcommand()?;
    let image = matches.get_str("image")?;
    match name {
        "verify" => Some(Request::Verify { image }),
        "run" => run(matches, image),
        "build" => build(matches, image),
        _ => None,
    }
}

/// The request to run an image.
fn run<'a>(matches: &ArgMatches<'a>, image: &'a str) -> Option<Request<'a>> {
    let events = matches.get_str("events")?;
    let unverified = matches.get_flag("unverified");
    Some(Request::Run {
        image,
        events,
        unverified,
    })
}

/// The request to build an image.
fn build<'a>(matches: &ArgMatches<'a>, image: &'a str) -> Option<Request<'a>> {
    let source = matches.get_str("source")?;
    Some(Request::Build { source, image })
}
