//! What the program for makers is asked to do.

use crate::words::program;
use clap::error::ErrorKind;
use clap::{ArgMatches, Error};
use std::alloc::{AllocError, AllocFailed, Global};
use std::convert::AsStr;

/// What is put of a run.
#[derive(Clone, Copy, Debug, PartialEq, Eq)]
pub enum Shown<'a> {
    /// All lines, with the names of the system.
    Named,
    /// All lines as `microsys` puts them.
    Plain,
    /// The bytes that threads print, alone.
    Bytes,
    /// The bytes that the thread of this name prints, alone.
    BytesOf(&'a str),
    /// The bytes that threads print, by lines that begin with the name of their thread.
    BytesByPart,
}

/// What the program is asked to do, with the names of its files.
#[derive(Clone, Copy)]
pub enum ToolRequest<'a> {
    /// To say whether an image is accepted.
    Verify {
        image: &'a str,
    },
    /// To run a system over events.
    Run {
        system: &'a str,
        /// The file of a list of events, or `-` for lines of standard input as they come.
        events: &'a str,
        /// Whether the image runs without being verified.
        unverified: bool,
        shown: Shown<'a>,
    },
    /// To debug a system, by gdb's remote serial protocol.
    Debug {
        system: &'a str,
        /// The file of a list of events.
        events: Option<&'a str>,
        /// The part whose breakpoints are set.
        part: Option<&'a str>,
        /// Whether the image is debugged without being verified.
        unverified: bool,
    },
    /// To build an image from its text.
    Build {
        source: &'a str,
        /// The file that gets the image.
        image: &'a str,
    },
    /// To make an accepted image of a system.
    Make {
        system: &'a str,
        /// The file that gets the image.
        image: &'a str,
    },
    /// To write the text of a description.
    Expand {
        description: &'a str,
        /// The file that gets the text.
        text: &'a str,
    },
    /// To write the certificates of a text.
    Certify {
        source: &'a str,
        /// The file that gets the text with its certificates.
        certified: &'a str,
    },
    /// To compare the trace of a system with what is expected.
    Test {
        system: &'a str,
        events: &'a str,
        expected: &'a str,
    },
    /// To say why a system is refused.
    Explain {
        system: &'a str,
    },
    /// To draw a system.
    Draw {
        system: &'a str,
        /// Whether as SVG, and not for Graphviz.
        is_svg: bool,
    },
    /// To write a report on a system.
    Report {
        system: &'a str,
        /// The file that gets the report.
        out: &'a str,
        /// Whether as data, and not as a page.
        is_json: bool,
    },
    /// To say which parts of a system may change what others take.
    Parts {
        system: &'a str,
    },
    /// To write some parts of a system as a system of its own.
    Alone {
        system: &'a str,
    },
    /// To say how soon a system deals with interrupts.
    Response {
        system: &'a str,
    },
    /// To draw who ran when, by a trace.
    Chart {
        trace: &'a str,
        /// The system that ran.
        system: Option<&'a str>,
        /// The first event that is drawn.
        from: Option<u64>,
        /// The last event that is drawn.
        to: Option<u64>,
    },
    /// To write the text of an image.
    List {
        image: &'a str,
    },
    /// To say what a system may do that another may not.
    Diff {
        before: &'a str,
        after: &'a str,
    },
}

/// What the program is asked to do, and how.
#[derive(Drop)]
pub struct Request<'a> {
    pub asked: ToolRequest<'a>,
    /// Numbers for names of a description, each as `NAME=NUMBER`.
    pub given: Vec<&'a str>,
    /// The names of parts, and last the file that gets them; or rates of interrupts, each as `LINE`, `BURST` and `PERIOD`; or lists of events.
    pub words: Vec<&'a str>,
    /// How often interrupts come, each as `LINE:BURST:PERIOD`.
    pub rates: Vec<&'a str>,
    /// Whether notes are refusals.
    pub is_strict: bool,
}

/// Why the words are no request.
#[derive(Drop)]
pub enum NoRequest {
    /// They ask for this text: help, or the version.
    Shown(String),
    /// They are wrong, as this text says.
    Wrong(String),
    /// Memory was refused.
    OutOfMemory,
}

impl From<AllocError> for NoRequest {
    fn from(_refused: AllocError) -> NoRequest {
        NoRequest::OutOfMemory
    }
}

impl<T: Drop> From<AllocFailed<T>> for NoRequest {
    fn from(_refused: AllocFailed<T>) -> NoRequest {
        NoRequest::OutOfMemory
    }
}

/// What is said where there are no matches.
fn said(alloc: Global, error: &Error) -> NoRequest {
    let Ok(text) = format!(in alloc; "{error}") else {
        return NoRequest::OutOfMemory;
    };
    match error.kind() {
        ErrorKind::OutOfMemory => NoRequest::OutOfMemory,
        ErrorKind::DisplayHelp | ErrorKind::DisplayVersion => NoRequest::Shown(text),
        _ => NoRequest::Wrong(text),
    }
}

/// The request that the words after the program's name make.
///
/// # Errors
///
/// The words ask for help or are wrong, with what is to be said of them, or memory is refused.
pub fn parse_words<'a, S: AsStr>(alloc: Global, words: &'a [S]) -> Result<Request<'a>, NoRequest> {
    let program = program(alloc)?;
    match program.try_get_matches_from(words) {
        Ok(matches) => match requested(&matches) {
            Some(asked) => request_of(alloc, asked, &matches),
            None => Err(NoRequest::Wrong(String::from_str(alloc, "error: no such word\n")?)),
        },
        Err(error) => Err(said(alloc, &error)),
    }
}

/// The request with what is said of how it is to be done.
fn request_of<'a>(
    alloc: Global,
    asked: ToolRequest<'a>,
    matches: &ArgMatches<'a>,
) -> Result<Request<'a>, NoRequest> {
    let mut request = Request {
        asked,
        given: Vec::new(alloc),
        words: Vec::new(alloc),
        rates: Vec::new(alloc),
        is_strict: false,
    };
    if let Some((name, matches)) = matches.subcommand() {
        request.is_strict = matches!(name, "make" | "expand") && matches.get_flag("strict");
        if let Some(form) = words_form(name) {
            push_words(&mut request.words, matches, form)?;
        }
        if name == "report" {
            push_words(&mut request.rates, matches, "rate")?;
        }
        if takes_numbers(name) {
            for word in matches.get_strs("D").unwrap_or(&[]) {
                request.given.push(number_word(alloc, *word)?)?;
            }
        }
    }
    Ok(request)
}

/// The form of the words that may follow a system, as many as there are.
fn words_form(name: &str) -> Option<&'static str> {
    match name {
        "alone" => Some("PART .. OUT"),
        "report" => Some("EVENTS .."),
        "response" => Some("LINE BURST PERIOD .."),
        _ => None,
    }
}

/// Puts the words of an argument.
fn push_words<'a>(
    to: &mut Vec<&'a str>,
    matches: &ArgMatches<'a>,
    argument: &str,
) -> Result<(), AllocError> {
    for word in matches.get_strs(argument).unwrap_or(&[]) {
        to.push(*word)?;
    }
    Ok(())
}

/// Whether numbers for names may follow a word.
fn takes_numbers(name: &str) -> bool {
    matches!(name, "make" | "expand" | "explain" | "draw" | "report")
}

/// A word of the form `NAME=NUMBER`.
fn number_word<'a>(alloc: Global, word: &'a str) -> Result<&'a str, NoRequest> {
    if word.split_once('=').is_some() {
        Ok(word)
    } else {
        let said = format!(in alloc; "error: `-D {word}` is not of the form `-D NAME=NUMBER`\n")?;
        Err(NoRequest::Wrong(said))
    }
}

/// The request of words that were taken.
fn requested<'a>(matches: &ArgMatches<'a>) -> Option<ToolRequest<'a>> {
    let (name, matches) = matches.subcommand()?;
    match name {
        "verify" => Some(ToolRequest::Verify {
            image: matches.get_str("IMAGE")?,
        }),
        "run" => run(matches),
        "gdb" => debug(matches),
        "build" => Some(ToolRequest::Build {
            source: matches.get_str("SOURCE")?,
            image: matches.get_str("IMAGE")?,
        }),
        "make" => Some(ToolRequest::Make {
            system: matches.get_str("SYSTEM")?,
            image: matches.get_str("IMAGE")?,
        }),
        "expand" => Some(ToolRequest::Expand {
            description: matches.get_str("DESCRIPTION")?,
            text: matches.get_str("TEXT")?,
        }),
        "certify" => Some(ToolRequest::Certify {
            source: matches.get_str("SOURCE")?,
            certified: matches.get_str("CERTIFIED")?,
        }),
        "alone" => Some(ToolRequest::Alone {
            system: matches.get_str("SYSTEM")?,
        }),
        "test" => test(matches),
        name => view(name, matches),
    }
}

/// What is to be put of a run.
fn shown_of<'a>(matches: &ArgMatches<'a>) -> Shown<'a> {
    if let Some(part) = matches.get_str("bytes-of") {
        Shown::BytesOf(part)
    } else if matches.get_flag("by-part") {
        Shown::BytesByPart
    } else if matches.get_flag("bytes") {
        Shown::Bytes
    } else if matches.get_flag("plain") {
        Shown::Plain
    } else {
        Shown::Named
    }
}

/// The request to run a system.
fn run<'a>(matches: &ArgMatches<'a>) -> Option<ToolRequest<'a>> {
    Some(ToolRequest::Run {
        system: matches.get_str("SYSTEM")?,
        events: matches.get_str("EVENTS")?,
        unverified: matches.get_flag("unverified"),
        shown: shown_of(matches),
    })
}

/// The request to debug a system.
fn debug<'a>(matches: &ArgMatches<'a>) -> Option<ToolRequest<'a>> {
    Some(ToolRequest::Debug {
        system: matches.get_str("SYSTEM")?,
        events: matches.get_str("EVENTS"),
        part: matches.get_str("part"),
        unverified: matches.get_flag("unverified"),
    })
}

/// The request to compare a trace.
fn test<'a>(matches: &ArgMatches<'a>) -> Option<ToolRequest<'a>> {
    Some(ToolRequest::Test {
        system: matches.get_str("SYSTEM")?,
        events: matches.get_str("EVENTS")?,
        expected: matches.get_str("EXPECTED")?,
    })
}

/// A request that shows something of a system.
fn view<'a>(name: &str, matches: &ArgMatches<'a>) -> Option<ToolRequest<'a>> {
    match name {
        "explain" => Some(ToolRequest::Explain {
            system: matches.get_str("SYSTEM")?,
        }),
        "draw" => Some(ToolRequest::Draw {
            system: matches.get_str("SYSTEM")?,
            is_svg: matches.get_flag("svg"),
        }),
        "report" => Some(ToolRequest::Report {
            system: matches.get_str("SYSTEM")?,
            out: matches.get_str("OUT")?,
            is_json: matches.get_flag("json"),
        }),
        "parts" => Some(ToolRequest::Parts {
            system: matches.get_str("SYSTEM")?,
        }),
        "response" => Some(ToolRequest::Response {
            system: matches.get_str("SYSTEM")?,
        }),
        "chart" => Some(ToolRequest::Chart {
            trace: matches.get_str("TRACE")?,
            system: matches.get_str("SYSTEM"),
            from: matches.get_one::<u64>("from"),
            to: matches.get_one::<u64>("to"),
        }),
        "list" => Some(ToolRequest::List {
            image: matches.get_str("IMAGE")?,
        }),
        "diff" => Some(ToolRequest::Diff {
            before: matches.get_str("BEFORE")?,
            after: matches.get_str("AFTER")?,
        }),
        _ => None,
    }
}
